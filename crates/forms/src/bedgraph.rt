// bedGraph: a line for each block of letters.

ghost use Rattle.std.specs.Prelude.{◌≡◌, ◌≤◌, ◌<◌, max, length};
ghost use Rattle.fasta.specs.Lines.{name_of};
ghost use Rattle.entries.specs.Outcome.{Sent};
ghost use Rattle.forms.specs.Bedgraph.{blocks, block_line, bedgraph};

use crate::each::{Lines, write_each};
use crate::masked::Mask;
use crate::share::add_share;
use crate::text::add_place;
use entries::HeldEntry;
use intervals::Interval;
use std::io::{Error, Result as IoResult, Write};

// The blocks of a record with so many letters.
#[derive(Drop)]
pub struct Blocks<'a> {
    pub name: &'a [u8],
    pub mask: Mask<'a>,
    pub letters: usize,
    pub size: usize,
    ghost few: { letters ≤ 2147483647 },
    ghost some: { 1 ≤ size },
    ghost small: { size ≤ 4294967295 },
}

impl<'a> Lines for Blocks<'a> {
    ghost line = { λ b i. block_line b.name.now b.mask.list.now b.letters b.size i };

    ghost count = { λ b. blocks b.letters b.size };

    fn count(&self) -> usize {
        (self.letters + (self.size - 1)) / self.size
    }

    fn add(&self, i: usize, text: &mut Vec<u8>) -> IoResult<()> {
        let start = i * self.size;
        let end = (start + self.size).min(self.letters);
        let range = Interval {
            start: start as u32,
            end: end as u32,
        };
        let masked = self.mask.masked(range);
        add_place(text, self.name, start as u64, end as u64)?;
        add_share(text, masked as u64, (end - start) as u64)?;
        text.push(b'\n')?;
        Ok(())
    }
}

// Writes the lines of an entry, for blocks of so many letters, at least 1. The buffer is for a line.
pub fn write_bedgraph<W: Write>(
    entry: &HeldEntry,
    list: &[Interval],
    size: u32,
    text: &mut Vec<u8>,
    out: &mut W,
) -> IoResult<()>
    ensures { Sent (W.contents out.old) (W.contents out.new)
        (bedgraph (name_of entry.now.header.items) list.now (length entry.now.letters.items) (max size 1)) result }
{
    let letters = entry.letters.len();
    if 2147483647 < letters {
        return Err(Error::other("too many letters"));
    }
    match Mask::new(list) {
        Ok(mask) => {
            let blocks = Blocks {
                name: entry.name(),
                mask,
                letters,
                size: size.max(1) as usize,
            };
            write_each(&blocks, text, out)
        }
        Err(e) => Err(e),
    }
}
