// The call that joins the lists of both strands.

ghost use Rattle.std.specs.Prelude.{◌≡◌, ◌<◌, length};
ghost use Rattle.buffers.specs.Fill.{put};
ghost use Rattle.intervals.specs.Merge.{ranges, marks_of};
ghost use Rattle.longdust.specs.Strand.{strands_merged, merging_refusal};
ghost use Rattle.longdust_c.specs.Numbers.{count_or};

use crate::numbers::returned;
use intervals::{Interval, MarksOut};

/// `longdust::merge_strands` on numbers and slices. Returns the number of intervals, or minus refusal 10, 16 or 11.
#[unsafe(no_mangle)]
pub extern "C" fn longdust_merge_strands(
    n: usize,
    forward: &[Interval],
    reverse: &[Interval],
    list: &mut [Interval],
    marks: &mut [u8],
) -> i64
    ensures number { result
        ≡ count_or (merging_refusal n forward.now reverse.now (length list.old) (length marks.old))
        (length (strands_merged n forward.now reverse.now)) }
    ensures list { merging_refusal n forward.now reverse.now
        (length list.old) (length marks.old) ≡ 0
        → list.new ≡ put (ranges (strands_merged n forward.now reverse.now)) list.old }
    ensures marks { merging_refusal n forward.now reverse.now
        (length list.old) (length marks.old) ≡ 0
        → marks.new ≡ put (marks_of (strands_merged n forward.now reverse.now)) marks.old }
    ensures same_list { 0 < merging_refusal n forward.now reverse.now
        (length list.old) (length marks.old)
        → list.new ≡ list.old }
    ensures same_marks { 0 < merging_refusal n forward.now reverse.now
        (length list.old) (length marks.old)
        → marks.new ≡ marks.old }
{
    let mut out = MarksOut { list, marks };
    returned(longdust::merge_strands(forward, reverse, n, &mut out))
}
