// A record's text.

ghost use Rattle.std.specs.Prelude.{◌≡◌, map, OnOk};
ghost use Rattle.entries.specs.Entries.{record_of};
ghost use Rattle.entries.specs.Held.{entry_of};
ghost use Rattle.entries.specs.Outcome.{AllSent};
ghost use Rattle.contigs_text.specs.Text.{record_text};
ghost use Rattle.contigs_text.specs.Terms.Report.{to_first, report_of};

use crate::Limits;
use crate::lines::{add_lines, add_refused, add_too_long};
use entries::{Failed, HeldEntry, Recorder, Sums, write_whole};
use intervals::Interval;
use masker::Masker;
use std::io::{Result as IoResult, Write};

// Masks each record alone, and writes its lines, or why it is refused.
#[derive(Drop)]
pub struct Listing {
    pub limits: Limits,
    pub masker: Masker,
    // Room for a mask, for its marks, and for a record's text.
    pub list: Vec<Interval>,
    pub marks: Vec<u8>,
    pub text: Vec<u8>,
}

impl Listing {
    // Makes the record's text.
    fn make_text(&mut self, entry: &HeldEntry) -> IoResult<()>
        ensures text { OnOk result (self.new.text.items
            ≡ record_text self.old.limits self.old.masker.options (record_of (entry_of entry.now))) }
        ensures limits { self.new.limits ≡ self.old.limits }
        ensures options { self.new.masker.options ≡ self.old.masker.options }
    {
        let name = entry.name();
        let letters = entry.letters.as_slice();
        self.text.clear();
        if (self.limits.letters as usize) < letters.len() {
            return add_too_long(&mut self.text, name);
        }
        match self.masker.mask(letters, &mut self.list, &mut self.marks)? {
            Ok(count) => add_lines(&mut self.text, name, &self.list.as_slice()[..count]),
            Err(refusal) => add_refused(&mut self.text, name, refusal),
        }
    }
}

// Writes the text to the first writer, if there is one.
fn write_first<W: Write>(outs: &mut [W], text: &[u8]) -> IoResult<()>
    ensures { AllSent (map (λ w. W.contents w) outs.old) (map (λ w. W.contents w) outs.new) (to_first text.now) result }
{
    if outs.is_empty() {
        return Ok(());
    }
    let out = &mut outs[0];
    write_whole(out, text)
}

impl Recorder for Listing {
    ghost report = { λ l. report_of l.limits l.masker.options };

    fn put<W: Write, N: Write>(
        &mut self,
        entry: &HeldEntry,
        outs: &mut [W],
        notes: &mut N,
    ) -> Result<Sums, Failed> {
        if let Err(_) = self.make_text(entry) {
            return Err(Failed::NoMemory);
        }
        match write_first(outs, self.text.as_slice()) {
            Ok(()) => Ok(Sums::new()),
            Err(e) => Err(Failed::Writing(e)),
        }
    }
}
