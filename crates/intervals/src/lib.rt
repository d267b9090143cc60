// Lists of intervals, each in a slice.

#![tactic(auto)]

mod output;

ghost use Rattle.std.specs.Prelude.{◌≡◌, ◌+◌, ◌-◌, ◌≤◌, ◌<◌, min, max, length, take, slice_index_or};
ghost use Rattle.buffers.specs.Fill.{put};
ghost use Rattle.intervals.specs.Out.{SameOut};
ghost use Rattle.intervals.specs.Interval.{interval, usual_entry, usual};
ghost use Rattle.intervals.specs.Terms.Bounds.{Inside};
ghost use Rattle.intervals.specs.Save.{staying, save};
ghost use Rattle.intervals.specs.Merge.{merge, from_forward, from_reverse, grown, merge_marked, range, mark_of, WroteMarked, flip, backwards};
ghost use Rattle.intervals.specs.Terms.Pick.{picked, Picks};

pub use output::MarksOut;

/// The letters from `start` up to `end`, counted from 0.
#[repr(C)]
#[derive(Clone, Copy)]
pub struct Interval {
    /// Its first letter.
    pub start: u32,
    /// One past its last letter.
    pub end: u32,
}

fn usual_entry(n: usize, lo: usize, start: usize, end: usize) -> bool
    ensures { result ≡ usual_entry n lo start end }
{
    (lo <= start) & ((start < end) & (end <= n))
}

/// Whether the list is of the usual kind in n letters: no entry empty or past n, ascending, a letter or more between.
#[tactic(auto, using(crate::proofs::Usual::of_usual))]
pub fn is_usual(list: &[Interval], n: usize) -> bool
    ensures { result ≡ usual n list.now }
{
    let mut lo = 0;
    for interval in list {
        if !usual_entry(n, lo, interval.start as usize, interval.end as usize) {
            return false;
        }
        lo = interval.end as usize + 1;
    }
    true
}

// How many intervals stay when one that begins at `start` is saved. From the end, since it is asked of a list in any order, and few do not stay.
#[tactic(auto, using(crate::proofs::SaveSteps::of_staying))]
fn count_staying(list: &[Interval], start: u32) -> usize
    ensures { result ≡ staying list.now start (length list.now) }
{
    for k in (0..list.len()).rev() {
        if list[k].end < start {
            return k + 1;
        }
    }
    0
}

/// Saves [start, end) to the list of the first `count` entries, joined with those that it overlaps or touches at the list's end.
/// Returns how many intervals there are then.
#[tactic(auto, using(crate::proofs::SaveSteps::of_save))]
pub fn save_interval(list: &mut [Interval], count: usize, start: u32, end: u32) -> usize
    requires count_in_bounds { count ≤ length list.old }
    requires end_in_bounds { length (save (take count list.old) start end) ≤ length list.old }
    ensures list { list.new ≡ put (save (take count list.old) start end) list.old }
    ensures count { result ≡ length (save (take count list.old) start end) }
{
    let k = count_staying(&list[..count], start);
    if k < count {
        let s = start.min(list[k].start);
        let e = end.max(list[k].end);
        list[k] = Interval { start: s, end: e };
        return k + 1;
    }
    list[k] = Interval { start, end };
    k + 1
}

/// An interval with its marks. Its ends stand beside them: the definitions of the merge compare and move each end alone.
#[derive(Clone, Copy)]
pub struct Marked {
    /// Its first letter.
    pub start: u32,
    /// One past its last letter.
    pub end: u32,
    /// Whether an interval of the forward list joined into it.
    pub forward: bool,
    /// Whether an interval of the reverse list joined into it.
    pub reverse: bool,
}

impl Marked {
    // With a part that overlaps or touches it joined into it.
    fn grown(mut self, part: Marked) -> Self
        ensures { result ≡ grown self part }
    {
        self.end = self.end.max(part.end);
        self.forward |= part.forward;
        self.reverse |= part.reverse;
        self
    }

    fn range(self) -> Interval
        ensures { result ≡ range self }
    {
        Interval {
            start: self.start,
            end: self.end,
        }
    }

    // Its marks as a byte: 1 forward, 2 reverse, 3 both.
    fn mark(self) -> u8
        ensures { result ≡ mark_of self }
    {
        match (self.forward, self.reverse) {
            (true, true) => 3,
            (true, false) => 1,
            (false, true) => 2,
            (false, false) => 0,
        }
    }
}

// The interval that a merge takes next, and what is left then.
#[derive(Clone, Copy)]
struct Picked {
    part: Marked,
    // The forward list is left from this index on.
    forward: usize,
    // Of the reverse list so many are left, its first ones.
    reverse: usize,
}

// Takes interval i of the forward list.
fn pick_forward(forward: &[Interval], i: usize, j: usize) -> Picked
    requires { i < length forward.now }
    ensures { result
        ≡ picked (from_forward (slice_index_or forward.now i (interval 0 0))) (i + 1) j }
{
    let part = Marked {
        start: forward[i].start,
        end: forward[i].end,
        forward: true,
        reverse: false,
    };
    Picked {
        part,
        forward: i + 1,
        reverse: j,
    }
}

// Takes interval j - 1 of the reverse list, as seen from the other end of n letters.
fn pick_reverse(reverse: &[Interval], i: usize, j: usize, n: u32) -> Picked
    requires inside { Inside n reverse.now }
    requires some { 0 < j }
    requires j_in_bounds { j ≤ length reverse.now }
    ensures { result
        ≡ picked (from_reverse (flip n (slice_index_or reverse.now (j - 1) (interval 0 0))))
        i (j - 1) }
{
    let last = j - 1;
    let part = Marked {
        start: n - reverse[last].end,
        end: n - reverse[last].start,
        forward: false,
        reverse: true,
    };
    Picked {
        part,
        forward: i,
        reverse: last,
    }
}

// Takes the one of these two that starts first; of equal starts the reverse list's.
fn pick(forward: &[Interval], i: usize, reverse: &[Interval], j: usize, n: u32) -> Picked
    requires inside { Inside n reverse.now }
    requires j_in_bounds { j ≤ length reverse.now }
    requires i_in_bounds { i ≤ length forward.now }
    requires some_left { 0 < (length forward.now - i) + j }
    ensures { Picks forward.now i reverse.now j n result }
{
    if j == 0 {
        return pick_forward(forward, i, j);
    }
    if i == forward.len() {
        return pick_reverse(reverse, i, j, n);
    }
    if forward[i].start < n - reverse[j - 1].end {
        return pick_forward(forward, i, j);
    }
    pick_reverse(reverse, i, j, n)
}

/// Joins the lists of both strands, the reverse one read backwards in n letters, and writes the joined list with its marks.
/// Returns how many intervals there are then.
pub fn merge_intervals(
    forward: &[Interval],
    reverse: &[Interval],
    n: u32,
    out: &mut MarksOut,
) -> usize
    requires inside { Inside n reverse.now }
    requires room { length (merge forward.now (backwards n reverse.now))
        ≤ length out.old.list.now }
    requires marks_room { length (merge forward.now (backwards n reverse.now))
        ≤ length out.old.marks.now }
    ensures merged { WroteMarked (merge_marked forward.now (backwards n reverse.now))
        out.old.list.now out.new.list.now out.old.marks.now out.new.marks.now result }
    ensures same { SameOut out.old out.new }
{
    let mut i = 0;
    let mut j = reverse.len();
    // Empty: none yet, as the definition has it.
    let mut part = Marked {
        start: 0,
        end: 0,
        forward: false,
        reverse: false,
    };
    let mut count = 0;
    for taken in 0..forward.len() + reverse.len() {
        let next = pick(forward, i, reverse, j, n);
        i = next.forward;
        j = next.reverse;
        let end = part.end;
        let start = next.part.start;
        if start <= end {
            part = part.grown(next.part);
            continue;
        }
        count = out.push(count, part.range(), part.mark());
        part = next.part;
    }
    out.push(count, part.range(), part.mark())
}
