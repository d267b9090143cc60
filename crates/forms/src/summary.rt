// Summary: a line for a record, and one for all.

ghost use Rattle.std.specs.Prelude.{◌≡◌, ◌++◌, OnOk};
ghost use Rattle.fasta.specs.Lines.{name_of};
ghost use Rattle.entries.specs.Outcome.{Sent};
ghost use Rattle.forms.specs.Counts.{accepted_sums};
ghost use Rattle.forms.specs.Summary.{of_letters, summary, summary_foot};

use crate::counts::accepted_sums;
use crate::share::add_share;
use crate::text::{add_column, add_place};
use entries::{HeldEntry, Sums, write_whole};
use intervals::Interval;
use std::io::{Result as IoResult, Write};

// Appends the last columns of a line, and its end.
fn add_of_letters(text: &mut Vec<u8>, sums: Sums) -> IoResult<()>
    ensures { OnOk result (text.new.items ≡ text.old.items ++ of_letters sums) }
{
    add_column(text, sums.n)?;
    add_share(text, sums.gc, sums.acgt)?;
    let masked = sums.masked.saturating_sub(sums.masked_n);
    add_share(text, masked, sums.letters.saturating_sub(sums.n))?;
    text.push(b'\n')?;
    Ok(())
}

// Appends a line.
#[tactic(auto, unfolding(crate::specs::Summary::summary))]
fn add_summary(text: &mut Vec<u8>, name: &[u8], sums: Sums) -> IoResult<()>
    ensures { OnOk result (text.new.items ≡ text.old.items ++ summary name.now sums) }
{
    add_place(text, name, sums.letters, sums.intervals)?;
    add_column(text, sums.masked)?;
    add_share(text, sums.masked, sums.letters)?;
    add_of_letters(text, sums)?;
    Ok(())
}

// Writes a line. The buffer is for it.
fn write_line<W: Write>(name: &[u8], sums: Sums, text: &mut Vec<u8>, out: &mut W) -> IoResult<()>
    ensures { Sent (W.contents out.old) (W.contents out.new) (summary name.now sums) result }
{
    text.clear();
    if let Err(e) = add_summary(text, name, sums) {
        return Err(e);
    }
    write_whole(out, text.as_slice())
}

// Writes the line of an entry. The buffer is for it.
pub fn write_summary<W: Write>(
    entry: &HeldEntry,
    list: &[Interval],
    text: &mut Vec<u8>,
    out: &mut W,
) -> IoResult<()>
    ensures { Sent (W.contents out.old) (W.contents out.new)
        (summary (name_of entry.now.header.items) (accepted_sums entry.now.letters.items list.now)) result }
{
    match accepted_sums(entry.letters.as_slice(), list) {
        Ok(sums) => write_line(entry.name(), sums, text, out),
        Err(e) => Err(e),
    }
}

// Writes the line for all. The buffer is for it.
pub fn write_foot<W: Write>(sums: Sums, text: &mut Vec<u8>, out: &mut W) -> IoResult<()>
    ensures { Sent (W.contents out.old) (W.contents out.new) (summary_foot sums) result }
{
    write_line(b"#all", sums, text, out)
}
