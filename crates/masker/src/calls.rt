// The two masking calls, in buffers of exactly the listed sizes.

ghost use Rattle.std.specs.Prelude.{◌≡◌, true, length};
ghost use Rattle.intervals.specs.Out.{SameOut};
ghost use Rattle.mask.specs.Lent.{SameBuffers};
ghost use Rattle.masker.specs.Run.{serves_all, TablesFor, Masks};
ghost use Rattle.masker.specs.Terms.Room.{Sized};

use checks::Refusal;
use intervals::MarksOut;
use longdust::{LongdustOptions, Tables};
use mask::Workspace;

// Tables and mask.
pub fn mask_filling(
    options: LongdustOptions,
    letters: &[u8],
    ln: &mut [f64],
    f: &mut [f64],
    codes: &mut [u8],
    work: &mut Workspace,
    out: &mut MarksOut,
) -> Result<usize, Refusal>
    requires { Sized options (length letters.now) (length ln.old) (length f.old) (length codes.old) work.old out.old }
    ensures masks { Masks options letters.now out.new.list.now out.new.marks.now result }
    ensures same_buffers { SameBuffers work.old work.new }
    ensures same { SameOut out.old out.new }
{
    match longdust::process(letters, options, ln, f, codes, work, out) {
        Ok(answer) => Ok(answer.count),
        Err(refusal) => Err(refusal),
    }
}

// The mask, by tables that serve all records.
pub fn mask_by(
    options: LongdustOptions,
    letters: &[u8],
    tables: &Tables,
    codes: &mut [u8],
    work: &mut Workspace,
    out: &mut MarksOut,
) -> Result<usize, Refusal>
    requires sized { Sized options (length letters.now) (length tables.now.ln.now) (length tables.now.f.now) (length codes.old)
        work.old out.old }
    requires tables { TablesFor options tables.now.ln.now tables.now.f.now }
    requires serves { serves_all options ≡ true }
    ensures masks { Masks options letters.now out.new.list.now out.new.marks.now result }
    ensures same_buffers { SameBuffers work.old work.new }
    ensures same { SameOut out.old out.new }
{
    match longdust::process_tables(letters, options, tables, codes, work, out) {
        Ok(answer) => Ok(answer.count),
        Err(refusal) => Err(refusal),
    }
}
