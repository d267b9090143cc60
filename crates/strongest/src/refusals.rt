// The checks of a request, in order.

ghost use Rattle.std.specs.Prelude.{◌≡◌, length};
ghost use Rattle.strongest.specs.Strongest.{largest};
ghost use Rattle.strongest.specs.Checks.{too_short_of, too_wide, refusal};
ghost use Rattle.checks.specs.Refusal.{number_of};
ghost use Rattle.strongest.specs.Call.{asked_of};

use crate::Request;
use crate::scores::Scoring;
use checks::{Refusal, below_sum, check_sequence, too_many_letters};
use letters::below_n_kmers;

/// T and the ln entries lie below this: 16, in units of 2^-32.
pub const LN_WIDTH: u64 = 1 << 36;

/// The f entries lie below this: 1,048,576, in units of 2^-32.
pub const F_WIDTH: u64 = 1 << 52;

/// The largest of a table's entries 1..w. Entry 0 is not among them, and those past the table's end count as 0.
#[tactic(auto, using(crate::proofs::Largest::largest_of))]
pub fn largest(table: &[u64], w: usize) -> u64
    ensures { result ≡ largest table.now w }
{
    let end = table.len().min(w.saturating_add(1));
    let mut most = 0;
    for i in 1..end {
        most = most.max(table[i]);
    }
    most
}

// A lent buffer is shorter than listed.
#[tactic(auto, unfolding(crate::specs::Checks::too_short_of))]
fn too_short(request: &Request, codes_len: usize, counts_len: usize) -> bool
    ensures { let r = request.now in
        result ≡ too_short_of (length r.sequence.now) r.kmer r.window_size
        (length r.scoring.ln.now) (length r.scoring.f.now) codes_len counts_len }
{
    let w = request.window_size;
    below_sum(request.scoring.ln.len(), w, 1)
        | below_sum(request.scoring.f.len(), w, 2)
        | (codes_len < request.sequence.len())
        | below_n_kmers(counts_len, request.kmer)
}

/// Check 20: T, or an entry of 1..w, is outside its width.
#[tactic(auto, unfolding(crate::specs::Checks::too_wide))]
pub fn too_wide(window_size: usize, scoring: &Scoring) -> bool
    ensures { let s = scoring.now in
        result ≡ too_wide window_size s.threshold s.ln.now s.f.now }
{
    let wide_ln = LN_WIDTH <= largest(scoring.ln, window_size);
    (LN_WIDTH <= scoring.threshold) | wide_ln | (F_WIDTH <= largest(scoring.f, window_size))
}

/// The first check that fails; the work space has so many codes and counts.
pub fn check(request: &Request, codes_len: usize, counts_len: usize) -> Result<(), Refusal>
    ensures { number_of result ≡ refusal (asked_of request.now) codes_len counts_len }
{
    let n = request.sequence.len();
    check_sequence(request.sequence, request.kmer, request.window_size)?;
    if too_many_letters(n) {
        return Err(Refusal::TooManyLetters);
    }
    if too_short(request, codes_len, counts_len) {
        return Err(Refusal::ShortSlice);
    }
    if request.budget == 0 {
        return Err(Refusal::NoBudget);
    }
    if n <= request.place {
        return Err(Refusal::PlaceOutside);
    }
    if too_wide(request.window_size, &request.scoring) {
        return Err(Refusal::HighTable);
    }
    Ok(())
}
