// A reader of FASTA files over a lent slice: a cursor whose step answers the next record, nothing at the end, or the fault.

#![tactic(auto)]

ghost use Rattle.std.specs.Prelude.{◌≡◌, true, ◌+◌, ◌≤◌, length, drop};
ghost use Rattle.fasta.specs.Contents.{contents_of, fault_of};
ghost use Rattle.fasta.specs.Steps.{fault_number_of, bytes_of, Told};
ghost use Rattle.fasta.specs.Terms.Lengths.{empty_lines, name_length, line_length, lines_length};

/// Some bytes of a file in a row, by their places in it.
#[derive(Clone, Copy)]
pub struct Part {
    /// The first byte's place, from 0.
    pub start: usize,
    /// One past the last byte's.
    pub end: usize,
}

/// Where a reader stands: what is before is read.
#[derive(Clone, Copy)]
pub struct Cursor {
    /// The next byte's place, from 0.
    pub at: usize,
}

/// A record of a file.
#[derive(Clone, Copy)]
pub struct Found {
    /// Its name: from after `>` up to a blank, a tab or the line's end.
    pub name: Part,
    /// Its lines of letters, with their line ends.
    pub lines: Part,
    /// The cursor after it.
    pub next: Cursor,
}

/// Why a file is refused.
#[derive(Clone, Copy)]
pub enum Fault {
    /// Letters stand before the first name.
    LettersFirst = 14,
    /// A name is empty.
    EmptyName = 15,
}

impl Fault {
    ghost use Rattle.fasta.specs.Steps.{fault_number};

    /// Its number, 14 or 15.
    pub fn number(self) -> u32
        ensures { result ≡ fault_number self }
    {
        self as u32
    }
}

impl Cursor {
    /// At the first byte.
    pub fn new() -> Self
        ensures { result.at ≡ 0 }
    {
        Cursor { at: 0 }
    }

    /// The next record of the file from the cursor on; none at the end of the file, and from past it.
    #[tactic(auto, using(crate::proofs::Stepping::of_steps))]
    pub fn next(self, file: &[u8]) -> Result<Option<Found>, Fault>
        ensures { Told file.now self.at result }
    {
        if file.len() <= self.at {
            return Ok(None);
        }
        let at = self.at + empty_lines(&file[self.at..]);
        if file.len() <= at {
            return Ok(None);
        }
        if file[at] != b'>' {
            return Err(Fault::LettersFirst);
        }
        let name = at + 1;
        let name_end = name + name_length(&file[name..]);
        if name_end == name {
            return Err(Fault::EmptyName);
        }
        let line_end = name_end + line_length(&file[name_end..]);
        let lines = (line_end + 1).min(file.len());
        let end = lines + lines_length(&file[lines..]);
        Ok(Some(Found {
            name: Part {
                start: name,
                end: name_end,
            },
            lines: Part { start: lines, end },
            next: Cursor { at: end },
        }))
    }
}

/// The first fault of a file, none if it has none.
pub fn first_fault(file: &[u8]) -> Option<Fault>
    ensures { fault_number_of result ≡ fault_of (contents_of file.now) }
{
    let mut cursor = Cursor::new();
    loop {
        match cursor.next(file) {
            Ok(Some(found)) => cursor = found.next,
            Ok(None) => return None,
            Err(fault) => return Some(fault),
        }
    }
}

/// The bytes of a part, as far as the file has them.
pub fn bytes(file: &[u8], part: Part) -> &[u8]
    ensures { result.now ≡ bytes_of part file.now }
{
    let end = part.end.min(file.len());
    let start = part.start.min(end);
    &file[start..end]
}

// The four below count bytes from the front of what is left of a file: those of empty lines, of a name, of a line without its byte 10,
// and of lines up to the next that starts with `>`.

fn empty_lines(rest: &[u8]) -> usize
    ensures { result ≡ empty_lines rest.now }
{
    rest.iter().take_while(|byte| **byte == b'\n').count()
}

fn name_length(rest: &[u8]) -> usize
    ensures { result ≡ name_length rest.now }
{
    rest.iter()
        .take_while(|byte| !matches!(**byte, b' ' | b'\t' | b'\n'))
        .count()
}

fn line_length(rest: &[u8]) -> usize
    ensures { result ≡ line_length rest.now }
{
    rest.iter().take_while(|byte| **byte != b'\n').count()
}

#[tactic(auto, using(crate::proofs::Lengths::of_lines))]
fn lines_length(rest: &[u8]) -> usize
    ensures { result ≡ lines_length true rest.now }
{
    let mut fresh = true;
    for (i, byte) in rest.iter().enumerate() {
        if fresh & (*byte == b'>') {
            return i;
        }
        fresh = *byte == b'\n';
    }
    rest.len()
}
