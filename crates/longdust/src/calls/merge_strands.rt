// The call that joins the lists of both strands into the mask.

ghost use Rattle.std.specs.Prelude.{◌≡◌, length, OnOk, OnErr};
ghost use Rattle.buffers.specs.Fill.{put};
ghost use Rattle.checks.specs.Refusal.{number_of, count_of, count_unless};
ghost use Rattle.intervals.specs.Merge.{ranges, marks_of};
ghost use Rattle.intervals.specs.Out.{SameOut};
ghost use Rattle.longdust.specs.Strand.{strands_merged, merging_refusal};

use checks::{Refusal, below_sum, too_many_letters};
use intervals::{Interval, MarksOut, is_usual, merge_intervals};

// The first check that fails.
fn check(
    forward: &[Interval],
    reverse: &[Interval],
    n: usize,
    list: usize,
    marks: usize,
) -> Result<(), Refusal>
    ensures { number_of result ≡ merging_refusal n forward.now reverse.now list marks }
{
    if too_many_letters(n) {
        return Err(Refusal::TooManyLetters);
    }
    if !is_usual(forward, n) {
        return Err(Refusal::UnusualList);
    }
    if !is_usual(reverse, n) {
        return Err(Refusal::UnusualList);
    }
    if below_sum(list, forward.len(), reverse.len())
        | below_sum(marks, forward.len(), reverse.len())
    {
        return Err(Refusal::ShortSlice);
    }
    Ok(())
}

/// Joins the lists of both strands of n letters, each in its own positions, into the mask and its marks.
/// `out` has as many entries as both lists together, or more. Returns the number of intervals, or refusal 10, 16 or 11.
/// With no interval in `reverse` it is the mask of a forward-only request.
pub fn merge_strands(
    forward: &[Interval],
    reverse: &[Interval],
    n: usize,
    out: &mut MarksOut,
) -> Result<usize, Refusal>
    ensures refusal { number_of result
        ≡ merging_refusal n forward.now reverse.now
        (length out.old.list.now) (length out.old.marks.now) }
    ensures count { count_of result
        ≡ count_unless
        (merging_refusal n forward.now reverse.now
        (length out.old.list.now) (length out.old.marks.now))
        (length (strands_merged n forward.now reverse.now)) }
    ensures list { OnOk result (out.new.list.now
        ≡ put (ranges (strands_merged n forward.now reverse.now)) out.old.list.now) }
    ensures marks { OnOk result (out.new.marks.now
        ≡ put (marks_of (strands_merged n forward.now reverse.now)) out.old.marks.now) }
    ensures same_list { OnErr result (out.new.list.now ≡ out.old.list.now) }
    ensures same_marks { OnErr result (out.new.marks.now ≡ out.old.marks.now) }
    ensures same { SameOut out.old out.new }
{
    check(forward, reverse, n, out.list.len(), out.marks.len())?;
    Ok(merge_intervals(forward, reverse, n as u32, out))
}
