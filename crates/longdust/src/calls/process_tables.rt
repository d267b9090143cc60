// The call on filled tables, which it only reads.

ghost use Rattle.intervals.specs.Out.{SameOut};
ghost use Rattle.mask.specs.Lent.{SameBuffers};
ghost use Rattle.longdust.specs.Buffers.{lends};
ghost use Rattle.longdust.specs.Call.{Answered, Kept};

use crate::refusals::{check, lent};
use crate::run::mask_encoded;
use crate::{Answer, LongdustOptions, Tables};
use checks::Refusal;
use intervals::MarksOut;
use mask::Workspace;

/// Masks `sequence` by filled tables. The intervals and their marks go to the fronts of `out`; the answer has their count.
/// A request outside a limit is refused with the first check that fails, 1 to 11 or 13, and no buffer changes.
pub fn process_tables(
    sequence: &[u8],
    options: LongdustOptions,
    tables: &Tables,
    codes: &mut [u8],
    work: &mut Workspace,
    out: &mut MarksOut,
) -> Result<Answer, Refusal>
    ensures answered { Answered Kept options sequence.now
        (lends tables.now.ln.now tables.now.f.now codes.old work.old out.old)
        (lends tables.now.ln.now tables.now.f.now codes.new work.new out.new) result }
    ensures same_buffers { SameBuffers work.old work.new }
    ensures same { SameOut out.old out.new }
{
    let lent = lent(tables.ln.len(), tables.f.len(), codes.len(), work, out);
    check(options, sequence, lent)?;
    letters::encode_sequence(sequence, codes);
    let codes = &codes[..sequence.len()];
    Ok(mask_encoded(options, codes, tables, work, out))
}
