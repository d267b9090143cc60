// What is written for a record of which one strand is masked.

ghost use Rattle.std.specs.Prelude.{◌≡◌, true, ℕ, List, Option, map, IfSome};
ghost use Rattle.entries.specs.Held.{entry_of};
ghost use Rattle.entries.specs.Outcome.{AllSent, Recorded, Outcome};
ghost use Rattle.small.specs.Bytes.{bytes_of};
ghost use Rattle.strands.specs.Strand.{bytes_report, strand_report};

use crate::{StrandMasker, encode_list};
use entries::{Failed, HeldEntry, Recorder, Sums, put_records, write_whole};
use intervals::Interval;
use longdust::LongdustOptions;
use std::alloc::Global;
use std::io::{BufRead, Result as IoResult, Write};

// Writes the same bytes to each writer.
fn write_each<W: Write>(bytes: &[u8], outs: &mut [W]) -> IoResult<()>
    ensures { AllSent (map (λ w. W.contents w) outs.old) (map (λ w. W.contents w) outs.new) (λ i. bytes.now) result }
{
    for i in 0..outs.len() {
        let out = &mut outs[i];
        if let Err(e) = write_whole(out, bytes) {
            return Err(e);
        }
    }
    Ok(())
}

// Writes the bytes of a list to each writer. The buffer is for them.
fn put_list<W: Write>(list: &[Interval], text: &mut Vec<u8>, outs: &mut [W]) -> Result<Sums, Failed>
    ensures { (notes : Option (List ℕ)) → Recorded (bytes_report (bytes_of list.now)) (map (λ w. W.contents w) outs.old)
        (map (λ w. W.contents w) outs.new) notes notes result }
{
    if let Err(_) = encode_list(list, text) {
        return Err(Failed::NoMemory);
    }
    match write_each(text.as_slice(), outs) {
        Ok(()) => Ok(Sums::new()),
        Err(e) => Err(Failed::Writing(e)),
    }
}

/// Masks one strand of each record, and writes its list as bytes to each writer; nothing for a record that is refused.
#[derive(Drop)]
pub struct StrandRecorder {
    /// The masker, with its options.
    pub masker: StrandMasker,
    /// The strand.
    pub reverse: bool,
    /// Room for a list.
    pub list: Vec<Interval>,
    /// Room for its bytes.
    pub text: Vec<u8>,
}

impl Recorder for StrandRecorder {
    ghost report = { λ r. strand_report r.masker.options r.reverse };

    fn put<W: Write, N: Write>(
        &mut self,
        entry: &HeldEntry,
        outs: &mut [W],
        notes: &mut N,
    ) -> Result<Sums, Failed> {
        let letters = entry.letters.as_slice();
        match self.masker.mask(letters, self.reverse, &mut self.list) {
            Ok(Ok(count)) => { put_list(&self.list.as_slice()[..count], &mut self.text, outs) }
            Ok(Err(_)) => Ok(Sums::new()),
            Err(_) => Err(Failed::NoMemory),
        }
    }
}

/// Masks one strand of each record of the file that the reader gives, and writes its list as bytes to each of `outs`: eight bytes for each interval,
/// its start and its end in the strand's own positions, lowest first. Of a record that is refused nothing is written or said. A byte 13 at a line's
/// end is not of the line.
pub fn put_strand<R: BufRead, W: Write, N: Write>(
    alloc: Global,
    reader: &mut R,
    options: LongdustOptions,
    reverse: bool,
    outs: &mut [W],
    notes: &mut N,
    sums: &mut Sums,
) -> Result<(), Failed>
    ensures { IfSome (R.remaining reader.old) (λ file. Outcome true (strand_report options reverse) file (map (λ w. W.contents w) outs.old)
        (map (λ w. W.contents w) outs.new) (N.contents notes.old) (N.contents notes.new) sums.old sums.new result) }
{
    let mut recorder = StrandRecorder {
        masker: StrandMasker::new(alloc, options),
        reverse,
        list: Vec::new(alloc),
        text: Vec::new(alloc),
    };
    put_records(alloc, reader, true, &mut recorder, outs, notes, sums)
}
