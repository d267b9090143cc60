// A list that is written with a byte of marks for each interval.

ghost use Rattle.std.specs.Prelude.{◌≡◌, ◌+◌, ◌≤◌, map, length};
ghost use Rattle.buffers.specs.Fill.{put_at};
ghost use Rattle.intervals.specs.Merge.{nonempty};

use crate::Interval;

/// Where a list and its marks go: to the fronts of two slices.
#[derive(Drop)]
pub struct MarksOut<'a> {
    pub list: &'a mut [Interval],
    /// A byte for each interval: 1 forward, 2 reverse, 3 both.
    pub marks: &'a mut [u8],
}

impl<'a> MarksOut<'a> {
    ghost use Rattle.intervals.specs.Out.{SameOut};

    /// Puts an interval and its mark after the first `count` entries if it has a letter, and returns how many there are then.
    #[tactic(auto, using(crate::proofs::Pushing::of_push))]
    pub fn push(&mut self, count: usize, interval: Interval, mark: u8) -> usize
        requires room { count + length (nonempty interval.start interval.end)
            ≤ length self.old.list.now }
        requires marks_room { count + length (nonempty interval.start interval.end)
            ≤ length self.old.marks.now }
        ensures list { self.new.list.now
            ≡ put_at count (nonempty interval.start interval.end) self.old.list.now }
        ensures marks { self.new.marks.now
            ≡ put_at count (map (λ _. mark) (nonempty interval.start interval.end))
            self.old.marks.now }
        ensures count { result ≡ count + length (nonempty interval.start interval.end) }
        ensures same { SameOut self.old self.new }
    {
        if interval.start < interval.end {
            self.list[count] = interval;
            self.marks[count] = mark;
            return count + 1;
        }
        count
    }
}
