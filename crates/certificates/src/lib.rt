// Searches that are left out, since what is known of the window tells what they would find:
//
// | the search | here |
// |---|---|
// | one that would find the last find's start again | certain: `find_certain`, by a certificate of that start; certify: `certify` makes one, `search` keeps it letter by letter |
// | one that would find nothing | low: `low_tells`, by the low starts that `find_low` makes after a search that found nothing |

#![tactic(auto)]

mod certain;
mod certify;
mod low;

pub use certain::find_certain;
pub use low::{find_low, low_tells};

// What a search that found nothing says of the window: each start of more than 32 and at most `reach` places scores `score` or less,
// and so does the second sum over `reach` places.
#[derive(Clone, Copy)]
pub struct LowStarts {
    pub reach: usize,
    pub score: f64,
}
