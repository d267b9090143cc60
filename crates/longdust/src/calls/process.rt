// The call that fills the tables by their formulas, then masks by them.

ghost use Rattle.intervals.specs.Out.{SameOut};
ghost use Rattle.mask.specs.Lent.{SameBuffers};
ghost use Rattle.longdust.specs.Buffers.{lends};
ghost use Rattle.longdust.specs.Call.{Answered, Filled};

use crate::refusals::{check, lent};
use crate::run::mask_encoded;
use crate::{Answer, LongdustOptions, Tables};
use checks::Refusal;
use intervals::MarksOut;
use mask::Workspace;

/// Fills `ln` and `f`, w + 1 and w + 2 entries, for the options and the sequence, and masks by them as `process_tables` does.
pub fn process(
    sequence: &[u8],
    options: LongdustOptions,
    ln: &mut [f64],
    f: &mut [f64],
    codes: &mut [u8],
    work: &mut Workspace,
    out: &mut MarksOut,
) -> Result<Answer, Refusal>
    ensures answered { Answered Filled options sequence.now
        (lends ln.old f.old codes.old work.old out.old)
        (lends ln.new f.new codes.new work.new out.new) result }
    ensures same_buffers { SameBuffers work.old work.new }
    ensures same { SameOut out.old out.new }
{
    let lent = lent(ln.len(), f.len(), codes.len(), work, out);
    check(options, sequence, lent)?;
    letters::encode_sequence(sequence, codes);
    let codes = &codes[..sequence.len()];
    tables::fill_tables(ln, f, options.kmer, options.window_size, options.gc, codes);
    let tables = Tables { ln, f };
    Ok(mask_encoded(options, codes, &tables, work, out))
}
