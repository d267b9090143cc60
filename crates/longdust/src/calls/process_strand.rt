// The call that masks one strand alone, on filled tables.

ghost use Rattle.longdust.specs.Strand.{strand_lends, StrandAnswered, SameStrandSpace};

use crate::one_strand::{StrandSpace, encode_strand, mask_strand, strand_too_short};
use crate::refusals::check_request;
use crate::{Answer, LongdustOptions, Tables};
use checks::Refusal;

/// Masks one strand of `sequence`, its own or its reverse complement, by filled tables.
/// The strand's intervals go to the front of the list, in its own positions; the answer has their count.
/// The lists of both strands make the mask by `merge_strands`. `forward_only` is not read. Refusals as those of `process_tables`.
pub fn process_strand(
    sequence: &[u8],
    options: LongdustOptions,
    reverse: bool,
    tables: &Tables,
    space: &mut StrandSpace,
) -> Result<Answer, Refusal>
    ensures answered { StrandAnswered options reverse sequence.now
        (strand_lends tables.now.ln.now tables.now.f.now space.old)
        (strand_lends tables.now.ln.now tables.now.f.now space.new) result }
    ensures same_space { SameStrandSpace space.old space.new }
{
    let n = sequence.len();
    let short = strand_too_short(n, options.kmer, options.window_size, tables, space);
    check_request(options, sequence, short)?;
    encode_strand(sequence, reverse, space.codes);
    Ok(mask_strand(options, n, tables, space))
}
