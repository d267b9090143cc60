// What is counted of a record.

ghost use Rattle.std.specs.Prelude.{◌≡◌, ◌≤◌, ℕ, Bool, length, IfOk};
ghost use Rattle.std.specs.List.{count_by};
ghost use Rattle.forms.specs.Counts.{is_n, is_gc, is_acgt, letters_in, n_inside, is_uneven, accepted_sums, refused_sums};

use crate::masked::Mask;
use entries::Sums;
use intervals::Interval;
use std::io::{Error, Result as IoResult};

// A kind of letters.
trait Kind {
    ghost test: { Self → ℕ → Bool };

    fn holds(&self, byte: u8) -> bool
        ensures { result ≡ test self.now byte };
}

// N.
struct Unknown;

impl Kind for Unknown {
    ghost test = { λ k. is_n };

    #[inline(always)]
    fn holds(&self, byte: u8) -> bool {
        (byte == b'N') | (byte == b'n')
    }
}

// C and G.
struct Strong;

impl Kind for Strong {
    ghost test = { λ k. is_gc };

    #[inline(always)]
    fn holds(&self, byte: u8) -> bool {
        ((byte == b'C') | (byte == b'c')) | ((byte == b'G') | (byte == b'g'))
    }
}

// A, C, G, T and U.
struct Known;

impl Kind for Known {
    ghost test = { λ k. is_acgt };

    #[inline(always)]
    fn holds(&self, byte: u8) -> bool {
        let au = ((byte == b'A') | (byte == b'a')) | ((byte == b'U') | (byte == b'u'));
        Strong.holds(byte) | (au | ((byte == b'T') | (byte == b't')))
    }
}

// How many of a few letters are of a kind. Its sum has eight bits, so that sixteen letters are counted at once; 224 are seven times 32.
fn few<K: Kind>(kind: &K, letters: &[u8]) -> u8
    requires { length letters.now ≤ 224 }
    ensures { result ≡ count_by (K.test kind.now) letters.now }
{
    let mut n = 0u8;
    for i in 0..letters.len() {
        n += kind.holds(letters[i]) as u8;
    }
    n
}

// How many letters are of a kind.
fn count<K: Kind>(kind: &K, letters: &[u8]) -> u32
    requires { length letters.now ≤ 2147483647 }
    ensures count { result ≡ count_by (K.test kind.now) letters.now }
    ensures most { result ≤ 2147483647 }
{
    let mut n = 0u32;
    for k in 0..(letters.len() + 223) / 224 {
        let start = 224 * k;
        let end = (start + 224).min(letters.len());
        n += few(kind, &letters[start..end]) as u32;
    }
    n
}

// The letters of an interval.
fn letters_in(letters: &[u8], interval: Interval) -> &[u8]
    ensures letters { result.now ≡ letters_in letters.now interval }
    ensures most { length result.now ≤ length letters.now }
{
    let end = (interval.end as usize).min(letters.len());
    let start = (interval.start as usize).min(end);
    &letters[start..end]
}

// How many letters in the intervals are N.
fn n_inside(letters: &[u8], list: &[Interval]) -> u64
    requires { length letters.now ≤ 2147483647 }
    ensures { result ≡ n_inside letters.now list.now }
{
    let mut n = 0u64;
    for k in 0..list.len() {
        n = n.saturating_add(count(&Unknown, letters_in(letters, list[k])) as u64);
    }
    n
}

// Whether so many of 10,000 letters or more are less than 0.30 or more than 0.70 of them.
fn is_uneven(gc: u64, acgt: u64) -> bool
    requires { (gc ≤ 2147483647) × (acgt ≤ 2147483647) }
    ensures { result ≡ is_uneven gc acgt }
{
    (10000 <= acgt) & ((10 * gc < 3 * acgt) | (7 * acgt < 10 * gc))
}

// Those of an accepted record with its mask.
#[tactic(auto, unfolding(crate::specs::Counts::accepted_sums))]
pub fn accepted_sums(letters: &[u8], list: &[Interval]) -> IoResult<Sums>
    ensures { IfOk result (λ sums. sums ≡ accepted_sums letters.now list.now) }
{
    if 2147483647 < letters.len() {
        return Err(Error::other("too many letters"));
    }
    let range = Interval {
        start: 0,
        end: letters.len() as u32,
    };
    let masked = Mask::new(list)?.masked(range);
    let gc = count(&Strong, letters) as u64;
    let acgt = count(&Known, letters) as u64;
    Ok(Sums {
        records: 1,
        refused: 0,
        letters: letters.len() as u64,
        intervals: list.len() as u64,
        masked: masked as u64,
        n: count(&Unknown, letters) as u64,
        masked_n: n_inside(letters, list),
        gc,
        acgt,
        uneven: is_uneven(gc, acgt) as u64,
    })
}

// Those of a refused record.
pub fn refused_sums() -> Sums
    ensures { result ≡ refused_sums }
{
    Sums {
        records: 1,
        refused: 1,
        letters: 0,
        intervals: 0,
        masked: 0,
        n: 0,
        masked_n: 0,
        gc: 0,
        acgt: 0,
        uneven: 0,
    }
}
