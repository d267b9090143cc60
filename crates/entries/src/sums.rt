// What is counted of records.

ghost use Rattle.std.specs.Prelude.{◌≡◌, ◌+◌, ◌≤◌, ◌++◌, length, OnOk, IfOk, IfSome};
ghost use Rattle.entries.specs.Outcome.{Sent};
ghost use Rattle.entries.specs.Sums.{no_sums, add, number_at, sums_at, sums_in, number, numbers};

use crate::write_whole;
use std::alloc::{AllocError, Global};
use std::io::{Error, ErrorKind, Read, Result as IoResult, Write};

/// What is counted of records. A number that would pass 2^64 - 1 stays there.
#[derive(Clone, Copy)]
pub struct Sums {
    /// Records.
    pub records: u64,
    /// Those of them that were refused.
    pub refused: u64,
    /// Letters of the others. So is what follows: of these alone.
    pub letters: u64,
    /// Intervals of the masks.
    pub intervals: u64,
    /// Letters in them.
    pub masked: u64,
    /// Letters N.
    pub n: u64,
    /// Letters N that are masked.
    pub masked_n: u64,
    /// Letters G and C.
    pub gc: u64,
    /// Letters A, C, G, T and U.
    pub acgt: u64,
    /// Records of 10,000 such letters or more of which less than 0.30 or more than 0.70 are G and C.
    pub uneven: u64,
}

// The bytes of so many numbers.
const SIZE: usize = 80;

impl Sums {
    /// Those of no record.
    pub fn new() -> Self
        ensures { result ≡ no_sums }
    {
        Sums {
            records: 0,
            refused: 0,
            letters: 0,
            intervals: 0,
            masked: 0,
            n: 0,
            masked_n: 0,
            gc: 0,
            acgt: 0,
            uneven: 0,
        }
    }

    /// Those of both.
    #[tactic(auto, unfolding(crate::specs::Sums::add, crate::specs::Sums::plus))]
    pub fn add(self, other: Sums) -> Self
        ensures { result ≡ add self other }
    {
        Sums {
            records: self.records.saturating_add(other.records),
            refused: self.refused.saturating_add(other.refused),
            letters: self.letters.saturating_add(other.letters),
            intervals: self.intervals.saturating_add(other.intervals),
            masked: self.masked.saturating_add(other.masked),
            n: self.n.saturating_add(other.n),
            masked_n: self.masked_n.saturating_add(other.masked_n),
            gc: self.gc.saturating_add(other.gc),
            acgt: self.acgt.saturating_add(other.acgt),
            uneven: self.uneven.saturating_add(other.uneven),
        }
    }

    // Appends them as ten numbers of eight bytes, in the order above, the lowest byte first.
    fn add_numbers(self, text: &mut Vec<u8>) -> Result<(), AllocError>
        ensures { OnOk result (text.new.items ≡ text.old.items ++ numbers self) }
    {
        add_number(text, self.records)?;
        add_number(text, self.refused)?;
        add_number(text, self.letters)?;
        add_number(text, self.intervals)?;
        add_number(text, self.masked)?;
        add_number(text, self.n)?;
        add_number(text, self.masked_n)?;
        add_number(text, self.gc)?;
        add_number(text, self.acgt)?;
        add_number(text, self.uneven)?;
        Ok(())
    }
}

// Appends a number, the lowest byte first.
fn add_number(text: &mut Vec<u8>, n: u64) -> Result<(), AllocError>
    ensures { OnOk result (text.new.items ≡ text.old.items ++ number n) }
{
    text.extend_from_slice(&n.to_le_bytes())
}

// The number that begins at byte i.
fn number_at(bytes: &[u8], i: usize) -> u64
    requires { i + 8 ≤ length bytes.now }
    ensures { result ≡ number_at bytes.now i }
{
    u64::from_le_bytes([
        bytes[i],
        bytes[i + 1],
        bytes[i + 2],
        bytes[i + 3],
        bytes[i + 4],
        bytes[i + 5],
        bytes[i + 6],
        bytes[i + 7],
    ])
}

// The sums that begin at byte i.
#[tactic(auto, unfolding(crate::specs::Sums::sums_at))]
fn sums_at(bytes: &[u8], i: usize) -> Sums
    requires { i + 80 ≤ length bytes.now }
    ensures { result ≡ sums_at bytes.now i }
{
    Sums {
        records: number_at(bytes, i),
        refused: number_at(bytes, i + 8),
        letters: number_at(bytes, i + 16),
        intervals: number_at(bytes, i + 24),
        masked: number_at(bytes, i + 32),
        n: number_at(bytes, i + 40),
        masked_n: number_at(bytes, i + 48),
        gc: number_at(bytes, i + 56),
        acgt: number_at(bytes, i + 64),
        uneven: number_at(bytes, i + 72),
    }
}

/// The sums that bytes hold, added: as many as are whole.
pub fn sums_in(bytes: &[u8]) -> Sums
    ensures { result ≡ sums_in bytes.now }
{
    let mut all = Sums::new();
    for k in 0..bytes.len() / SIZE {
        all = all.add(sums_at(bytes, SIZE * k));
    }
    all
}

/// The sums in what a reader gives.
pub fn read_sums<R: Read>(alloc: Global, reader: &mut R) -> IoResult<Sums>
    ensures { IfSome (R.remaining reader.old) (λ bytes. IfOk result (λ sums. sums ≡ sums_in bytes)) }
{
    let mut bytes = Vec::new(alloc);
    reader.read_to_end(&mut bytes)?;
    Ok(sums_in(bytes.as_slice()))
}

/// Writes sums as ten numbers of eight bytes, in the order of their fields, the lowest byte first.
pub fn write_sums<W: Write>(alloc: Global, sums: Sums, out: &mut W) -> IoResult<()>
    ensures { Sent (W.contents out.old) (W.contents out.new) (numbers sums) result }
{
    let mut text = Vec::new(alloc);
    if let Err(_) = sums.add_numbers(&mut text) {
        return Err(Error::from(ErrorKind::OutOfMemory));
    }
    write_whole(out, text.as_slice())
}
