// The single tests of a request, on plain data, and its refusals. Every test is total, so that a check needs nothing of the checks before it.

#![tactic(auto)]

mod refusal;
mod sequence;

ghost use Rattle.std.specs.Prelude.{◌≡◌, ◌+◌, nat_lt};
ghost use Rattle.checks.specs.Tests.{kmer_outside, is_other, any_high, any_other, window_above, threshold_bad};
ghost use Rattle.checks.specs.Tests.{min_start_below, too_many_letters, most_intervals};

pub use refusal::Refusal;
pub use sequence::check_sequence;

/// The largest k-mer length that is accepted, in letters: check 1.
pub const MAX_KMER: usize = 12;

/// The largest window that is accepted, in letters: check 5.
pub const MAX_WINDOW: usize = 65535;

/// The most letters that are accepted, 2^31 - 1: check 10.
pub const MAX_LETTERS: usize = 2147483647;

/// Check 1: the k-mer length is outside 1 to 12.
pub fn kmer_outside(k: usize) -> bool
    ensures { result ≡ kmer_outside k }
{
    (k < 1) | (MAX_KMER < k)
}

/// Which bytes that are refused a sequence has.
#[derive(Clone, Copy)]
pub struct BytesFound {
    /// A byte of 128 or more: check 2.
    pub high: bool,
    /// A byte below 128 that is no letter, `-` or `*`: refusal 13.
    pub other: bool,
}

// Whether a byte below 128 is not accepted.
fn is_other(b: u8) -> bool
    ensures { result ≡ is_other b }
{
    b.is_ascii() & !(b.is_ascii_alphabetic() | (b == b'-') | (b == b'*'))
}

/// Looks for both kinds of refused bytes in one pass.
#[tactic(auto, using(crate::proofs::Bytes::of_bytes))]
pub fn find_bytes(sequence: &[u8]) -> BytesFound
    ensures high { result.high ≡ any_high sequence.now }
    ensures other { result.other ≡ any_other sequence.now }
{
    let mut high = false;
    let mut other = false;
    for b in sequence {
        high |= 128 <= *b;
        other |= is_other(*b);
    }
    BytesFound { high, other }
}

/// Whether x is below a + b, also where this sum is too large for a number.
pub fn below_sum(x: usize, a: usize, b: usize) -> bool
    ensures { result ≡ nat_lt x (a + b) }
{
    if x < b {
        return true;
    }
    x - b < a
}

/// Check 5: the window is above 65,535 letters.
pub fn window_above(w: usize) -> bool
    ensures { result ≡ window_above w }
{
    MAX_WINDOW < w
}

/// Check 6: the threshold is infinite, not a number, or not above 0.
pub fn threshold_bad(t: f64) -> bool
    ensures { result ≡ threshold_bad t }
{
    !((0.0 < t) & (t < f64::INFINITY))
}

/// Check 8: min_start_cnt is below 2.
pub fn min_start_below(min_start_cnt: u16) -> bool
    ensures { result ≡ min_start_below min_start_cnt }
{
    min_start_cnt < 2
}

/// Check 10: there are more than 2,147,483,647 letters.
pub fn too_many_letters(n: usize) -> bool
    ensures { result ≡ too_many_letters n }
{
    MAX_LETTERS < n
}

/// Whether a slice of `len` entries is too short for R = (n + 1) / (k + 1) intervals, also where n + 1 or k + 1 is too large for a number.
pub fn below_intervals(len: usize, n: usize, k: usize) -> bool
    ensures { result ≡ nat_lt len (most_intervals n k) }
{
    if n < k {
        return false;
    }
    if k < n {
        return len <= (n - k) / (k + 1);
    }
    len < 1
}
