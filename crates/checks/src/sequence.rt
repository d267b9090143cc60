// The checks of a sequence and its sizes, which the calls begin with.

ghost use Rattle.std.specs.Prelude.{◌≡◌};
ghost use Rattle.checks.specs.Checks.{first};
ghost use Rattle.checks.specs.Refusal.{number_of};
ghost use Rattle.checks.specs.Sequence.{sequence_checks};

use crate::refusal::Refusal;

/// The first check that fails of those that every call begins with: 1, 2, 13, 3, 4 and 5, for k-mer length k and window w in letters.
pub fn check_sequence(sequence: &[u8], k: usize, w: usize) -> Result<(), Refusal>
    ensures { number_of result ≡ first (sequence_checks sequence.now k w) }
{
    if crate::kmer_outside(k) {
        return Err(Refusal::KmerOutside);
    }
    let bytes = crate::find_bytes(sequence);
    if bytes.high {
        return Err(Refusal::HighByte);
    }
    if bytes.other {
        return Err(Refusal::OtherByte);
    }
    if crate::below_sum(sequence.len(), k, 1) {
        return Err(Refusal::TooFewLetters);
    }
    if crate::below_sum(w, k, 1) {
        return Err(Refusal::WindowBelow);
    }
    if crate::window_above(w) {
        return Err(Refusal::WindowAbove);
    }
    Ok(())
}
