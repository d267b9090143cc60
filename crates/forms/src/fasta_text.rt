// FASTA with masked letters: the header, and the lines as long as they came.

ghost use Rattle.std.specs.Prelude.{◌≡◌, [], ◌++◌, OnOk, IfOk};
ghost use Rattle.report.specs.Ascii.{ascii};
ghost use Rattle.entries.specs.Held.{lengths_of, cut, entry_of};
ghost use Rattle.entries.specs.Outcome.{Sent};
ghost use Rattle.masked_copy.specs.Copy.{copy_of};
ghost use Rattle.forms.specs.Each.{each};
ghost use Rattle.forms.specs.Fasta.{ended, plain_fasta, masked_fasta};
ghost use Rattle.forms.specs.Terms.Runs.{left, line_at};

use entries::{HeldEntry, LineRun, write_whole};
use intervals::Interval;
use masked_copy::{Masking, masked_copy};
use std::io::{Error, Result as IoResult, Write};

// A line and its end.
fn write_line<W: Write>(line: &[u8], out: &mut W) -> IoResult<()>
    ensures { Sent (W.contents out.old) (W.contents out.new) (line.now ++ ascii "\n") result }
{
    match write_whole(out, line) {
        Ok(()) => write_whole(out, b"\n"),
        Err(e) => Err(e),
    }
}

// The lines of a run; answers the letters that are left.
fn write_run<'a, W: Write>(run: LineRun, letters: &'a [u8], out: &mut W) -> IoResult<&'a [u8]>
    ensures sent { Sent (W.contents out.old) (W.contents out.new) (each (line_at run.letters letters.now) run.lines) result }
    ensures left { IfOk result (λ rest. rest.now ≡ left run.lines run.letters letters.now) }
{
    let mut rest = letters;
    for i in 0..run.lines {
        let n = run.letters.min(rest.len());
        if let Err(e) = write_line(&rest[..n], out) {
            return Err(e);
        }
        rest = &rest[n..];
    }
    Ok(rest)
}

// What no run has: one more line.
fn write_rest<W: Write>(rest: &[u8], out: &mut W) -> IoResult<()>
    ensures { Sent (W.contents out.old) (W.contents out.new) (ended (cut [] rest.now)) result }
{
    if rest.is_empty() {
        return Ok(());
    }
    write_line(rest, out)
}

// All lines.
fn write_lines<W: Write>(runs: &[LineRun], letters: &[u8], out: &mut W) -> IoResult<()>
    ensures { Sent (W.contents out.old) (W.contents out.new) (ended (cut (lengths_of runs.now) letters.now)) result }
{
    let mut rest = letters;
    for j in 0..runs.len() {
        match write_run(runs[j], rest, out) {
            Ok(left) => rest = left,
            Err(e) => return Err(e),
        }
    }
    write_rest(rest, out)
}

// The masked letters of an entry, in the buffer.
fn copy_masked(
    letters: &[u8],
    list: &[Interval],
    masking: Masking,
    copy: &mut Vec<u8>,
) -> IoResult<()>
    ensures { OnOk result (copy.new.items ≡ copy_of masking list.now letters.now) }
{
    copy.resize(letters.len(), 0)?;
    match masked_copy(letters, list, masking, copy.as_mut_slice()) {
        Ok(_) => Ok(()),
        Err(_) => Err(Error::other("no copy")),
    }
}

// Writes the entry with its masked letters. The buffer is for these.
pub fn write_fasta<W: Write>(
    entry: &HeldEntry,
    list: &[Interval],
    masking: Masking,
    copy: &mut Vec<u8>,
    out: &mut W,
) -> IoResult<()>
    ensures { Sent (W.contents out.old) (W.contents out.new) (masked_fasta masking (entry_of entry.now) list.now) result }
{
    if let Err(e) = copy_masked(entry.letters.as_slice(), list, masking, copy) {
        return Err(e);
    }
    if let Err(e) = write_line(entry.header.as_slice(), out) {
        return Err(e);
    }
    write_lines(entry.runs.as_slice(), copy.as_slice(), out)
}

// Writes the entry as it came.
pub fn write_plain<W: Write>(entry: &HeldEntry, out: &mut W) -> IoResult<()>
    ensures { Sent (W.contents out.old) (W.contents out.new) (plain_fasta (entry_of entry.now)) result }
{
    if let Err(e) = write_line(entry.header.as_slice(), out) {
        return Err(e);
    }
    write_lines(entry.runs.as_slice(), entry.letters.as_slice(), out)
}
