// Scores: digits, maybe a point and more digits.

ghost use Rattle.std.specs.Prelude.{◌≡◌};
ghost use Rattle.command_line.specs.Score.{score};

use crate::sizes::{behind, digits, part, size_by};

/// A score in units of 2^-32: digits, maybe a point and up to six digits. What is less than a unit is left out. None for any other text, or for more
/// than 2^30.
#[tactic(auto, unfolding(crate::specs::Score::score))]
pub fn score(text: &[u8]) -> Option<u64>
    ensures { result ≡ score text.now }
{
    let whole = digits(text);
    let rest = &text[whole..];
    if !behind(rest).is_empty() {
        return None;
    }
    size_by(&text[..whole], part(rest), 4294967296)
}
