// The checks of a request, in order.

ghost use Rattle.std.specs.Prelude.{◌≡◌, length};
ghost use Rattle.checks.specs.Refusal.{number_of};
ghost use Rattle.strongest.specs.Checks.{too_short_of};
ghost use Rattle.strongest_list.specs.Call.{asked_of};
ghost use Rattle.strongest_list.specs.Checks.{bad_region, any_bad_region, refusal};

use crate::Request;
use checks::{Refusal, below_sum, check_sequence, too_many_letters};
use intervals::Interval;
use letters::below_n_kmers;
use strongest::too_wide;

// A region is empty or ends past letter n.
fn bad_region(n: usize, region: Interval) -> bool
    ensures { result ≡ bad_region n region }
{
    (region.end <= region.start) | (n < region.end as usize)
}

fn any_bad_region(n: usize, regions: &[Interval]) -> bool
    ensures { result ≡ any_bad_region n regions.now }
{
    for region in regions {
        if bad_region(n, *region) {
            return true;
        }
    }
    false
}

// A lent buffer beside the tiles is shorter than listed.
#[tactic(auto, unfolding(strongest::specs::Checks::too_short_of))]
fn too_short(request: &Request, codes_len: usize, newest_len: usize) -> bool
    ensures { result ≡ too_short_of (length request.now.sequence.now) request.now.kmer request.now.window_size
        (length request.now.scoring.ln.now) (length request.now.scoring.f.now) codes_len newest_len }
{
    let w = request.window_size;
    below_sum(request.scoring.ln.len(), w, 1)
        | below_sum(request.scoring.f.len(), w, 2)
        | (codes_len < request.sequence.len())
        | below_n_kmers(newest_len, request.kmer)
}

// The first check that fails.
pub fn check(
    request: &Request,
    codes_len: usize,
    newest_len: usize,
    places_len: usize,
    tiles_len: usize,
) -> Result<(), Refusal>
    ensures { number_of result ≡ refusal (asked_of request.now) codes_len newest_len places_len tiles_len }
{
    let n = request.sequence.len();
    check_sequence(request.sequence, request.kmer, request.window_size)?;
    if too_many_letters(n) {
        return Err(Refusal::TooManyLetters);
    }
    if any_bad_region(n, request.regions) {
        return Err(Refusal::UnusualList);
    }
    if too_short(request, codes_len, newest_len)
        | (places_len < 2 * request.window_size + 4096 + request.kmer)
        | (tiles_len <= n / (request.window_size + 4096))
    {
        return Err(Refusal::ShortSlice);
    }
    if too_wide(request.window_size, &request.scoring) {
        return Err(Refusal::HighTable);
    }
    Ok(())
}
