// The forms, and the masker that writes some of them.

ghost use Rattle.std.specs.Prelude.{◌≡◌, ◌≤◌, true, map, length, IfSome, IfOk};
ghost use Rattle.fasta.specs.Lines.{name_of};
ghost use Rattle.entries.specs.Held.{entry_of};
ghost use Rattle.entries.specs.Outcome.{Sent, AllSent, Recorded, Outcome};
ghost use Rattle.checks.specs.Refusal.{number};
ghost use Rattle.forms.specs.Form.{body, head_of, foot_of, by_form, passes, report_by_making, report_of};

use crate::bed::{Bed, MarkedBed};
use crate::bedgraph::write_bedgraph;
use crate::each::write_each;
use crate::fasta_text::write_fasta;
use crate::free_lines::write_free;
use crate::outputs::{Accepted, Foot, put_accepted, put_refused, write_parts};
use crate::ranked::write_strongest;
use crate::room::Room;
use crate::summary::write_summary;
use checks::Refusal;
use entries::{Failed, HeldEntry, Recorder, Sums, put_records, write_whole};
use intervals::Interval;
use longdust::LongdustOptions;
use masked_copy::Masking;
use masker::{Maker, Masker};
use ranking::Wanted;
use std::alloc::{AllocError, Global};
use std::io::{BufRead, Result as IoResult, Write};

/// What is written for each record.
#[derive(Clone, Copy)]
pub enum Form {
    /// A line for each interval: name, start, end; from 0, the end not included.
    Bed,
    /// The same with three columns more: the strands that saw the interval in words, 0, and + or - or . for both.
    Marks,
    /// FASTA, masked letters in lower case, the others as they came; lines as long as they came.
    Soft,
    /// FASTA, N for each masked letter.
    HardN,
    /// FASTA, X for each masked letter.
    HardX,
    /// A line for each record: name, letters, intervals, masked letters, their share to six decimals, rounded half to even; letters N, the share of
    /// G and C of the letters A, C, G, T and U, the masked share of the letters that are not N. The line for all has the name `#all`.
    Summary,
    /// A line for each block of so many letters: name, start, end, the masked share as above. A block of 0 letters has 1.
    Bedgraph(u32),
    /// A line for each of the strongest stretches, by rank, of a record's mask or of the whole record: name, start, end, rank, score, score a place,
    /// places, the region's start and end, the rank within it, the count of its most frequent k-mer, its first 40 letters. A record whose T is 16 or more
    /// has none.
    Strongest(Wanted),
    /// A line for each stretch where a probe may stand: name, start, end. Its letters are A, C, G, T or U, and at least so many letters lie
    /// between each of them and any masked letter.
    Free(u32),
}

/// How records are masked, and what becomes of some of them.
#[derive(Clone, Copy)]
pub struct Settings {
    /// The options of the masker.
    pub options: LongdustOptions,
    /// A record of fewer than k + 1 letters is accepted and has no mask; else it is refused (3).
    pub skip_short: bool,
    /// Intervals of fewer letters are left out of BED, with marks and without, and of the stretches where a probe may stand.
    pub min_length: u32,
}

// Writes an accepted entry.
pub fn write_body<M: Maker, W: Write>(
    form: Form,
    part: &Accepted<'_, M>,
    room: &mut Room,
    out: &mut W,
) -> IoResult<()>
    ensures { let p = part.now in
        Sent (W.contents out.old) (W.contents out.new) (body (M.options p.masker.now) p.least form (entry_of p.entry.now) p.list.now p.marks.now) result }
{
    let entry = part.entry;
    let list = part.list;
    let marks = part.marks;
    let least = part.least;
    let name = entry.name();
    match form {
        Form::Bed => write_each(&Bed { name, list, least }, &mut room.text, out),
        Form::Marks => write_each(
            &MarkedBed {
                name,
                list,
                marks,
                least,
            },
            &mut room.text,
            out,
        ),
        Form::Soft => write_fasta(entry, list, Masking::LowerCase, &mut room.text, out),
        Form::HardN => write_fasta(entry, list, Masking::Replace(b'N'), &mut room.text, out),
        Form::HardX => write_fasta(entry, list, Masking::Replace(b'X'), &mut room.text, out),
        Form::Summary => write_summary(entry, list, &mut room.text, out),
        Form::Bedgraph(size) => write_bedgraph(entry, list, size, &mut room.text, out),
        Form::Strongest(wanted) => write_strongest(part, wanted, room, out),
        Form::Free(pad) => write_free(part, pad, room, out),
    }
}

/// Writes what stands above all records in a form: the head of a table.
pub fn put_head<W: Write>(form: Form, out: &mut W) -> IoResult<()>
    ensures { Sent (W.contents out.old) (W.contents out.new) (head_of form) result }
{
    match form {
        Form::Summary => write_whole(
            out,
            b"#name\tletters\tintervals\tmasked\tshare\tN\tGC\tshare_not_N\n",
        ),
        Form::Strongest(_) => write_whole(out, ranking::head()),
        _ => Ok(()),
    }
}

/// Writes to each writer what stands above all records in its form.
pub fn put_heads<W: Write>(forms: &[Form], outs: &mut [W]) -> IoResult<()>
    ensures { AllSent (map (λ w. W.contents w) outs.old) (map (λ w. W.contents w) outs.new) (by_form head_of forms.now) result }
{
    for i in 0..forms.len().min(outs.len()) {
        let out = &mut outs[i];
        if let Err(e) = put_head(forms[i], out) {
            return Err(e);
        }
    }
    Ok(())
}

/// Writes to each writer what stands below all records in its form, by their sums.
pub fn put_feet<W: Write>(
    forms: &[Form],
    sums: Sums,
    room: &mut Room,
    outs: &mut [W],
) -> IoResult<()>
    ensures { AllSent (map (λ w. W.contents w) outs.old) (map (λ w. W.contents w) outs.new) (by_form (foot_of sums) forms.now) result }
{
    write_parts(forms, &Foot { sums }, room, outs)
}

/// Masks each record alone, and writes it to each writer in its form. A record that is refused is passed through as it came in FASTA, and is not in
/// the other forms; a line is said of it.
#[derive(Drop)]
pub struct FormRecorder<'a, M: Maker> {
    /// What is written, a form a writer.
    pub forms: &'a [Form],
    /// What makes the masks.
    pub masker: M,
    /// Whether records of too few letters are accepted, with no mask.
    pub skip_short: bool,
    /// The fewest letters of an interval that has a line.
    pub min_length: u32,
    /// Room for a mask.
    pub list: Vec<Interval>,
    /// Room for its marks.
    pub marks: Vec<u8>,
    /// Room for what is written.
    pub room: Room,
}

impl<'a> FormRecorder<'a, Masker> {
    /// For any number of files, one after the other: the tables are filled once. Fails where there is no memory for them.
    pub fn new(alloc: Global, forms: &'a [Form], settings: Settings) -> Result<Self, AllocError>
        ensures forms { IfOk result (λ r. r.forms.now ≡ forms.now) }
        ensures options { IfOk result (λ r. r.masker.options ≡ settings.options) }
        ensures skip_short { IfOk result (λ r. r.skip_short ≡ settings.skip_short) }
        ensures min_length { IfOk result (λ r. r.min_length ≡ settings.min_length) }
    {
        let masker = Masker::new(alloc, settings.options)?;
        Ok(FormRecorder {
            forms,
            masker,
            skip_short: settings.skip_short,
            min_length: settings.min_length,
            list: Vec::new(alloc),
            marks: Vec::new(alloc),
            room: Room::new(alloc),
        })
    }
}

// Whether a refused record may pass without a mask.
fn passes(skip: bool, refusal: Refusal) -> bool
    ensures { result ≡ passes skip (number refusal) }
{
    skip & (refusal.number() == 3)
}

impl<'a, M: Maker> Recorder for FormRecorder<'a, M> {
    ghost report = { λ r. report_by_making r.forms.now (M.options r.masker) (M.making r.masker) r.skip_short r.min_length };

    fn put<W: Write, N: Write>(
        &mut self,
        entry: &HeldEntry,
        outs: &mut [W],
        notes: &mut N,
    ) -> Result<Sums, Failed> {
        let least = self.min_length;
        let letters = entry.letters.as_slice();
        match self.masker.make(letters, &mut self.list, &mut self.marks) {
            Ok(Ok(count)) => {
                let list = &self.list.as_slice()[..count];
                let marks = &self.marks.as_slice()[..count];
                let masked = Accepted {
                    entry,
                    masker: &self.masker,
                    least,
                    list,
                    marks,
                };
                put_accepted(self.forms, &masked, &mut self.room, outs)
            }
            Ok(Err(refusal)) => {
                if passes(self.skip_short, refusal) {
                    let bare = Accepted {
                        entry,
                        masker: &self.masker,
                        least,
                        list: &[],
                        marks: &[],
                    };
                    return put_accepted(self.forms, &bare, &mut self.room, outs);
                }
                put_refused(self.forms, entry, refusal, &mut self.room, outs, notes)
            }
            Err(_) => Err(Failed::NoMemory),
        }
    }
}

/// Masks each record of the file that the reader gives, alone, once, and writes it to each of `outs` in the form that stands at its place in
/// `forms`; what is said of refused records goes to `notes`, and what is counted of the records that were written whole is added to `sums`. A
/// writer without a form gets nothing. A byte 13 at a line's end is not of the line.
pub fn put_file<R: BufRead, W: Write, N: Write>(
    alloc: Global,
    reader: &mut R,
    forms: &[Form],
    settings: Settings,
    outs: &mut [W],
    notes: &mut N,
    sums: &mut Sums,
) -> Result<(), Failed>
    ensures { IfSome (R.remaining reader.old) (λ file. Outcome true (report_of forms.now settings) file (map (λ w. W.contents w) outs.old)
        (map (λ w. W.contents w) outs.new) (N.contents notes.old) (N.contents notes.new) sums.old sums.new result) }
{
    let mut recorder = match FormRecorder::new(alloc, forms, settings) {
        Ok(recorder) => recorder,
        Err(_) => return Err(Failed::NoMemory),
    };
    put_records(alloc, reader, true, &mut recorder, outs, notes, sums)
}
