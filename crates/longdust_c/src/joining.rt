// The call for joining tracks.
// Kinds cross as numbers: include/longdust.h lends them so.

ghost use Rattle.std.specs.Prelude.{◌≡◌, ◌<◌, length};
ghost use Rattle.buffers.specs.Fill.{put};
ghost use Rattle.join.specs.Joining.{joined, joined_marks, refusal};
ghost use Rattle.longdust_c.specs.Numbers.{kind_of, count_or};

use crate::numbers::{kind_of, returned};
use intervals::{Interval, MarksOut};
use join::MarkedList;

/// `join::join_tracks` on numbers and slices: kind 0 either, 1 both, any other ours outside theirs.
/// Returns the number of intervals, or minus refusal 10, 16 or 11.
#[unsafe(no_mangle)]
pub extern "C" fn longdust_join_tracks(
    kind: u32,
    n: usize,
    ours: &[Interval],
    marks: &[u8],
    theirs: &[Interval],
    list: &mut [Interval],
    list_marks: &mut [u8],
) -> i64
    ensures number { let number = refusal n ours.now marks.now theirs.now
        (length list.old) (length list_marks.old) in
        result ≡ count_or number (length (joined (kind_of kind) n ours.now theirs.now)) }
    ensures list { let number = refusal n ours.now marks.now theirs.now
        (length list.old) (length list_marks.old) in
        number ≡ 0 → list.new ≡ put (joined (kind_of kind) n ours.now theirs.now) list.old }
    ensures marks { let number = refusal n ours.now marks.now theirs.now
        (length list.old) (length list_marks.old) in
        number ≡ 0
        → list_marks.new
        ≡ put (joined_marks (kind_of kind) n ours.now marks.now theirs.now) list_marks.old }
    ensures same_list { let number = refusal n ours.now marks.now theirs.now
        (length list.old) (length list_marks.old) in
        0 < number → list.new ≡ list.old }
    ensures same_marks { let number = refusal n ours.now marks.now theirs.now
        (length list.old) (length list_marks.old) in
        0 < number → list_marks.new ≡ list_marks.old }
{
    let ours = MarkedList { list: ours, marks };
    let mut out = MarksOut {
        list,
        marks: list_marks,
    };
    returned(join::join_tracks(kind_of(kind), n, &ours, theirs, &mut out))
}
