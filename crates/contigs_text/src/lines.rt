// Lines of the text. Each of these appends.

ghost use Rattle.std.specs.Prelude.{◌≡◌, ◌++◌, OnOk};
ghost use Rattle.checks.specs.Refusal.{number};
ghost use Rattle.fasta.specs.Steps.{fault_number};
ghost use Rattle.report.specs.Text.{numbered, refusal_line};
ghost use Rattle.contigs_text.specs.Text.{mask_lines, refused_line, too_long_line};

use checks::Refusal;
use fasta::Fault;
use intervals::Interval;
use std::io::Result as IoResult;

// A word, a number, and the line's end.
fn add_numbered(text: &mut Vec<u8>, word: &[u8], n: u64) -> IoResult<()>
    ensures { OnOk result (text.new.items ≡ text.old.items ++ numbered word.now n) }
{
    text.extend_from_slice(word)?;
    forms::add_decimal(text, n)?;
    text.push(b'\n')?;
    Ok(())
}

// A line for each interval of a record.
pub fn add_lines(text: &mut Vec<u8>, name: &[u8], list: &[Interval]) -> IoResult<()>
    ensures { OnOk result (text.new.items ≡ text.old.items ++ mask_lines name.now list.now) }
{
    for interval in list {
        forms::add_place(text, name, interval.start as u64, interval.end as u64)?;
        text.push(b'\n')?;
    }
    Ok(())
}

// The line of a record that its run refuses.
pub fn add_refused(text: &mut Vec<u8>, name: &[u8], refusal: Refusal) -> IoResult<()>
    ensures { OnOk result (text.new.items ≡ text.old.items ++ refused_line name.now (number refusal)) }
{
    text.extend_from_slice(name)?;
    add_numbered(text, b"\trefused\t", refusal.number() as u64)
}

// The line of a record that has too many letters.
pub fn add_too_long(text: &mut Vec<u8>, name: &[u8]) -> IoResult<()>
    ensures { OnOk result (text.new.items ≡ text.old.items ++ too_long_line name.now) }
{
    text.extend_from_slice(name)?;
    text.extend_from_slice(b"\trefused\tsize\n")?;
    Ok(())
}

// The line of a file that has a fault.
pub fn add_fault(text: &mut Vec<u8>, fault: Fault) -> IoResult<()>
    ensures { OnOk result (text.new.items ≡ text.old.items ++ refusal_line (fault_number fault)) }
{
    add_numbered(text, b"refused ", fault.number() as u64)
}
