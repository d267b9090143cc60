// The entry that a reader holds.

ghost use Rattle.std.specs.Prelude.{◌≡◌, [], ◌∷◌, ◌++◌, ◌-◌, ℕ, List, length, min, IfOk};
ghost use Rattle.std.specs.List.{prefix_len};
ghost use Rattle.fasta.specs.Lines.{name_of};
ghost use Rattle.entries.specs.Held.{lengths_of, entry_of};
ghost use Rattle.entries.specs.Terms.Reading.{in_name};

use std::alloc::{AllocError, Global};

/// Lines of one length that follow each other.
#[derive(Clone, Copy)]
pub struct LineRun {
    /// How many lines.
    pub lines: u64,
    /// How many letters each of them has.
    pub letters: usize,
}

/// The entry that a reader holds. Its buffers grow, and serve the next entry too.
#[derive(Drop)]
pub struct HeldEntry {
    /// The line that opens it, from its `>` on.
    pub header: Vec<u8>,
    /// The letters of its lines, one line after the other.
    pub letters: Vec<u8>,
    /// How long its lines are, in their order.
    pub runs: Vec<LineRun>,
}

impl HeldEntry {
    /// Nothing is read yet.
    pub fn new(alloc: Global) -> Self
        ensures header { result.header.items ≡ [] }
        ensures letters { result.letters.items ≡ [] }
        ensures runs { result.runs.items ≡ [] }
    {
        HeldEntry {
            header: Vec::new(alloc),
            letters: Vec::new(alloc),
            runs: Vec::new(alloc),
        }
    }

    /// The name: what stands after `>`, up to the first blank or tab.
    pub fn name(&self) -> &[u8]
        ensures { result.now ≡ name_of self.now.header.items }
    {
        name(self.header.as_slice())
    }
}

// How many bytes stand before the first blank or tab.
fn name_length(rest: &[u8]) -> usize
    ensures { result ≡ prefix_len in_name rest.now }
{
    rest.iter()
        .take_while(|byte| !matches!(**byte, b' ' | b'\t'))
        .count()
}

// The name in a line that opens a record.
fn name(header: &[u8]) -> &[u8]
    ensures { result.now ≡ name_of header.now }
{
    let rest = &header[header.len().min(1)..];
    &rest[..name_length(rest)]
}

// A line more: the run that it ends, where those before it are in `runs`.
pub fn note_line(
    runs: &mut Vec<LineRun>,
    run: LineRun,
    letters: usize,
) -> Result<LineRun, AllocError>
    ensures { IfOk result (λ next. lengths_of (runs.new.items ++ next ∷ [])
        ≡ lengths_of (runs.old.items ++ run ∷ []) ++ letters ∷ []) }
{
    if (run.letters == letters) & (run.lines < u64::MAX) {
        return Ok(LineRun {
            lines: run.lines + 1,
            letters,
        });
    }
    runs.push(run)?;
    Ok(LineRun { lines: 1, letters })
}
