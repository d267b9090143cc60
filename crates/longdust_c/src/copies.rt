// The call for masked copies.
// Kinds cross as numbers: include/longdust.h lends them so.

ghost use Rattle.std.specs.Prelude.{◌≡◌, ◌<◌, length};
ghost use Rattle.buffers.specs.Fill.{put};
ghost use Rattle.masked_copy.specs.Copy.{copy_of, refusal};
ghost use Rattle.longdust_c.specs.Numbers.{masking_of, count_or};

use crate::numbers::{masking_of, returned};
use intervals::Interval;

/// `masked_copy::masked_copy` on numbers and slices. Returns the number of bytes copied, or minus refusal 12 or 11.
#[unsafe(no_mangle)]
pub extern "C" fn longdust_masked_copy(
    sequence: &[u8],
    list: &[Interval],
    lower_case: u32,
    replacement: u8,
    copy: &mut [u8],
) -> i64
    ensures number { let masking = masking_of lower_case replacement in
        result ≡ count_or (refusal masking sequence.now copy.old) (length sequence.now) }
    ensures accepted { let masking = masking_of lower_case replacement in
        refusal masking sequence.now copy.old ≡ 0
        → copy.new ≡ put (copy_of masking list.now sequence.now) copy.old }
    ensures refused { let masking = masking_of lower_case replacement in
        0 < refusal masking sequence.now copy.old → copy.new ≡ copy.old }
{
    let masking = masking_of(lower_case, replacement);
    returned(masked_copy::masked_copy(sequence, list, masking, copy))
}
