// What is written to several writers, to each in its form.

ghost use Rattle.std.specs.Prelude.{◌≡◌, ℕ, List, Option, map};
ghost use Rattle.checks.specs.Refusal.{number};
ghost use Rattle.entries.specs.Held.{entry_of};
ghost use Rattle.entries.specs.Outcome.{Sent, AllSent, Recorded};
ghost use Rattle.forms.specs.declared.form.Form.{Form};
ghost use Rattle.forms.specs.Form.{body, passed, foot_of, by_form, accepted, refused};

use crate::counts::{accepted_sums, refused_sums};
use crate::fasta_text::write_plain;
use crate::form::{Form, write_body};
use crate::notes::write_note;
use crate::room::Room;
use crate::summary::write_foot;
use checks::Refusal;
use entries::{Failed, HeldEntry, Sums};
use intervals::Interval;
use masker::Maker;
use std::io::{Result as IoResult, Write};

// What is written of a record, by the form.
pub trait Part {
    ghost text: { Self → Form → List ℕ };

    fn write<W: Write>(&self, form: Form, room: &mut Room, out: &mut W) -> IoResult<()>
        ensures { Sent (W.contents out.old) (W.contents out.new) (text self.now form) result };
}

// An entry that is accepted.
#[derive(Drop)]
pub struct Accepted<'a, M: Maker> {
    pub entry: &'a HeldEntry,
    // What made its mask.
    pub masker: &'a M,
    pub least: u32,
    pub list: &'a [Interval],
    pub marks: &'a [u8],
}

impl<'a, M: Maker> Part for Accepted<'a, M> {
    ghost text = { λ a f. body (M.options a.masker.now) a.least f (entry_of a.entry.now) a.list.now a.marks.now };

    fn write<W: Write>(&self, form: Form, room: &mut Room, out: &mut W) -> IoResult<()> {
        write_body(form, self, room, out)
    }
}

// An entry that is refused.
#[derive(Drop)]
pub struct Refused<'a> {
    pub entry: &'a HeldEntry,
}

impl<'a> Part for Refused<'a> {
    ghost text = { λ r f. passed f (entry_of r.entry.now) };

    fn write<W: Write>(&self, form: Form, room: &mut Room, out: &mut W) -> IoResult<()> {
        match form {
            Form::Soft => write_plain(self.entry, out),
            Form::HardN => write_plain(self.entry, out),
            Form::HardX => write_plain(self.entry, out),
            _ => Ok(()),
        }
    }
}

// What stands below all records, by their sums.
#[derive(Drop)]
pub struct Foot {
    pub sums: Sums,
}

impl Part for Foot {
    ghost text = { λ t f. foot_of t.sums f };

    fn write<W: Write>(&self, form: Form, room: &mut Room, out: &mut W) -> IoResult<()> {
        match form {
            Form::Summary => write_foot(self.sums, &mut room.text, out),
            _ => Ok(()),
        }
    }
}

// Writes to each writer by its form; to one without a form nothing.
pub fn write_parts<P: Part, W: Write>(
    forms: &[Form],
    part: &P,
    room: &mut Room,
    outs: &mut [W],
) -> IoResult<()>
    ensures { AllSent (map (λ w. W.contents w) outs.old) (map (λ w. W.contents w) outs.new) (by_form (P.text part.now) forms.now) result }
{
    for i in 0..forms.len().min(outs.len()) {
        let out = &mut outs[i];
        if let Err(e) = part.write(forms[i], room, out) {
            return Err(e);
        }
    }
    Ok(())
}

// Writes an entry that is accepted; nothing is said of it, so whatever the writer of notes holds stays.
pub fn put_accepted<M: Maker, W: Write>(
    forms: &[Form],
    part: &Accepted<'_, M>,
    room: &mut Room,
    outs: &mut [W],
) -> Result<Sums, Failed>
    ensures { (notes : Option (List ℕ)) → Recorded
        (accepted forms.now (M.options part.now.masker.now) part.now.least (entry_of part.now.entry.now) part.now.list.now part.now.marks.now)
        (map (λ w. W.contents w) outs.old) (map (λ w. W.contents w) outs.new) notes notes result }
{
    let sums = match accepted_sums(part.entry.letters.as_slice(), part.list) {
        Ok(sums) => sums,
        Err(e) => return Err(Failed::Writing(e)),
    };
    match write_parts(forms, part, room, outs) {
        Ok(()) => Ok(sums),
        Err(e) => Err(Failed::Writing(e)),
    }
}

// Writes an entry that is refused, and says it.
pub fn put_refused<W: Write, N: Write>(
    forms: &[Form],
    entry: &HeldEntry,
    refusal: Refusal,
    room: &mut Room,
    outs: &mut [W],
    notes: &mut N,
) -> Result<Sums, Failed>
    ensures { Recorded (refused forms.now (entry_of entry.now) (number refusal))
        (map (λ w. W.contents w) outs.old) (map (λ w. W.contents w) outs.new) (N.contents notes.old) (N.contents notes.new) result }
{
    if let Err(e) = write_parts(forms, &Refused { entry }, room, outs) {
        return Err(Failed::Writing(e));
    }
    match write_note(
        &mut room.text,
        entry.name(),
        entry.letters.as_slice(),
        refusal,
        notes,
    ) {
        Ok(()) => Ok(refused_sums()),
        Err(e) => Err(Failed::Saying(e)),
    }
}
