// Records whose strands were masked apart: both lists joined, and written in each form.

ghost use Rattle.std.specs.Prelude.{◌≡◌, ◌+◌, true, length, map, IfOk, IfSome};
ghost use Rattle.intervals.specs.Out.{SameOut};
ghost use Rattle.entries.specs.Outcome.{Outcome};
ghost use Rattle.masker.specs.Run.{record_refusal, Makes};
ghost use Rattle.forms.specs.Form.{report_of};
ghost use Rattle.strands.specs.Joined.{joined, StrandsOf};
ghost use Rattle.strands.specs.Terms.Reads.{Reads};

use crate::read_list;
use checks::Refusal;
use entries::{Failed, Sums, put_records};
use forms::{Form, FormRecorder, Room, Settings};
use intervals::{Interval, MarksOut};
use longdust::LongdustOptions;
use masker::{Maker, TableRoom, check};
use std::alloc::{AllocError, Global};
use std::io::{BufRead, Write};

/// Joins the lists of both strands, each in its own positions, to the mask of a record.
#[derive(Drop)]
pub struct Joiner {
    pub options: LongdustOptions,
    pub forward: Vec<Interval>,
    pub reverse: Vec<Interval>,
}

impl Joiner {
    // The mask of letters that are not refused, in room for both lists.
    fn merge_out(&self, letters: &[u8], out: &mut MarksOut) -> Result<usize, Refusal>
        requires accepted { record_refusal self.now.options letters.now ≡ 0 }
        requires list_len { length out.old.list.now ≡ length self.now.forward.items + length self.now.reverse.items }
        requires marks_len { length out.old.marks.now ≡ length self.now.forward.items + length self.now.reverse.items }
        ensures makes { Makes (joined self.now.options self.now.forward.items self.now.reverse.items) letters.now out.new.list.now out.new.marks.now result }
        ensures same { SameOut out.old out.new }
    {
        let forward = self.forward.as_slice();
        let reverse = self.reverse.as_slice();
        longdust::merge_strands(forward, reverse, letters.len(), out)
    }

    // The same in two slices.
    fn merge(
        &self,
        letters: &[u8],
        list: &mut [Interval],
        marks: &mut [u8],
    ) -> Result<usize, Refusal>
        requires accepted { record_refusal self.now.options letters.now ≡ 0 }
        requires list_len { length list.old ≡ length self.now.forward.items + length self.now.reverse.items }
        requires marks_len { length marks.old ≡ length self.now.forward.items + length self.now.reverse.items }
        ensures { Makes (joined self.now.options self.now.forward.items self.now.reverse.items) letters.now list.new marks.new result }
    {
        let mut out = MarksOut { list, marks };
        self.merge_out(letters, &mut out)
    }
}

impl Maker for Joiner {
    ghost options = { λ j. j.options };

    ghost making = { λ j. joined j.options j.forward.items j.reverse.items };

    fn options(&self) -> LongdustOptions {
        self.options
    }

    fn make(
        &mut self,
        letters: &[u8],
        list: &mut Vec<Interval>,
        marks: &mut Vec<u8>,
    ) -> Result<Result<usize, Refusal>, AllocError> {
        if let Err(refusal) = check(self.options, letters) {
            return Ok(Err(refusal));
        }
        let rows = self.forward.len().saturating_add(self.reverse.len());
        list.resize(rows, Interval { start: 0, end: 0 })?;
        marks.resize(rows, 0)?;
        Ok(self.merge(letters, list.as_mut_slice(), marks.as_mut_slice()))
    }

    fn fill_tables(&self, letters: &[u8], room: &mut TableRoom) -> Result<(), AllocError> {
        room.fill(self.options, letters)
    }
}

/// What is written of a record, and the lists of its strands as bytes.
#[derive(Clone, Copy)]
pub struct Joining<'a> {
    /// What is written, a form a writer.
    pub forms: &'a [Form],
    pub settings: Settings,
    pub forward: &'a [u8],
    pub reverse: &'a [u8],
}

// The joiner of the lists that these bytes are.
fn joiner_of(alloc: Global, joining: &Joining) -> Result<Joiner, AllocError>
    ensures { IfOk result (λ j. Reads joining.now.settings.options joining.now.forward.now joining.now.reverse.now j) }
{
    let mut forward = Vec::new(alloc);
    let mut reverse = Vec::new(alloc);
    read_list(joining.forward, &mut forward)?;
    read_list(joining.reverse, &mut reverse)?;
    Ok(Joiner {
        options: joining.settings.options,
        forward,
        reverse,
    })
}

/// Writes for the record of the file that the reader gives what `forms::put_file` writes, where the lists are those that `put_strand` writes for it.
/// With other lists the record is refused (16), or some other list is taken for its mask.
pub fn put_joined<R: BufRead, W: Write, N: Write>(
    alloc: Global,
    reader: &mut R,
    joining: &Joining,
    outs: &mut [W],
    notes: &mut N,
    sums: &mut Sums,
) -> Result<(), Failed>
    ensures { IfSome (R.remaining reader.old) (λ file. StrandsOf joining.now.settings.options file joining.now.forward.now joining.now.reverse.now
        → Outcome true (report_of joining.now.forms.now joining.now.settings) file (map (λ w. W.contents w) outs.old)
        (map (λ w. W.contents w) outs.new) (N.contents notes.old) (N.contents notes.new) sums.old sums.new result) }
{
    let masker = match joiner_of(alloc, joining) {
        Ok(masker) => masker,
        Err(_) => return Err(Failed::NoMemory),
    };
    let mut recorder = FormRecorder {
        forms: joining.forms,
        masker,
        skip_short: joining.settings.skip_short,
        min_length: joining.settings.min_length,
        list: Vec::new(alloc),
        marks: Vec::new(alloc),
        room: Room::new(alloc),
    };
    put_records(alloc, reader, true, &mut recorder, outs, notes, sums)
}
