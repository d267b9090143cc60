// The records of a file, read one after the other, each with what is written for it.

ghost use Rattle.std.specs.Prelude.{◌≡◌, map, IfSome};
ghost use Rattle.entries.specs.Entries.{Entry};
ghost use Rattle.entries.specs.Held.{entry_of};
ghost use Rattle.entries.specs.Outcome.{Report, Recorded, Outcome};

use crate::{Failed, HeldEntry, Sums, next_entry};
use std::alloc::Global;
use std::io::{BufRead, Error, Write};

/// What is written for a record.
pub trait Recorder {
    /// What is written for an entry to each writer, what is said of it, and what is counted of it.
    ghost report: { Self → Entry → Report };

    /// Writes the entry's text to each of `outs`, and then what is said of it to `notes`; answers what is counted of it.
    fn put<W: Write, N: Write>(
        &mut self,
        entry: &HeldEntry,
        outs: &mut [W],
        notes: &mut N,
    ) -> Result<Sums, Failed>
        ensures recorded { Recorded (report self.old (entry_of entry.now)) (map (λ w. W.contents w) outs.old)
            (map (λ w. W.contents w) outs.new) (N.contents notes.old) (N.contents notes.new) result }
        ensures report { report self.new ≡ report self.old };
}

/// Writes for each record of the file that the reader gives, in the file's order, to each of `outs` and to `notes`, and adds to `sums` what is
/// counted of the records that were written whole.
pub fn put_records<R: BufRead, T: Recorder, W: Write, N: Write>(
    alloc: Global,
    reader: &mut R,
    cr: bool,
    recorder: &mut T,
    outs: &mut [W],
    notes: &mut N,
    sums: &mut Sums,
) -> Result<(), Failed>
    ensures outcome { IfSome (R.remaining reader.old) (λ file. Outcome cr (T.report recorder.old) file (map (λ w. W.contents w) outs.old)
        (map (λ w. W.contents w) outs.new) (N.contents notes.old) (N.contents notes.new) sums.old sums.new result) }
    ensures report { T.report recorder.new ≡ T.report recorder.old }
{
    let mut entry = HeldEntry::new(alloc);
    for _ in 0..u64::MAX {
        match next_entry(reader, cr, &mut entry) {
            Ok(true) => {}
            Ok(false) => return Ok(()),
            Err(e) => return Err(e),
        }
        match recorder.put(&entry, outs, notes) {
            Ok(one) => *sums = sums.add(one),
            Err(e) => return Err(e),
        }
    }
    Err(Failed::Reading(Error::other("too many records")))
}
