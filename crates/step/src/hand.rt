// The interval in hand.

ghost use Rattle.std.specs.Prelude.{◌≡◌, ◌-◌, ◌<◌, ◌≤◌, length};
ghost use Rattle.scans.specs.Terms.Window.{find_of};
ghost use Rattle.step.specs.Step.{first_letter, start_after, save_from, saved_after};
ghost use Rattle.step.specs.Terms.Finding.{saved_in, Found, Saving};

use intervals::Interval;

// Its start and end, each -1 at first, and how many intervals are saved.
// No Option: the specification compares and subtracts these numbers, -1 too.
// The list does not stand beside its count: the run's state is a value, and the list is lent.
#[derive(Clone, Copy)]
pub struct Open {
    pub start: i64,
    pub end: i64,
    pub count: usize,
}

// The first letter of a find at letter i, 0 where it would lie before: r is one past the find's index in a window of `len` entries.
fn first_letter(i: usize, len: usize, r: usize, k: usize) -> i64
    requires { (i < 2147483648) × (len < 65536) × (0 < r) × (r ≤ len) × (k ≤ 12) }
    ensures { result ≡ first_letter k i len (r - 1) }
{
    let past = i + r + 1;
    let before = len + k;
    past.saturating_sub(before) as i64
}

// The start after a find from letter s on.
fn start_after(start: i64, end: i64, s: i64) -> i64
    ensures { result ≡ start_after start end s }
{
    if s < end { s.min(start) } else { s }
}

impl Open {
    // The interval is saved, if there is one; answers how many are saved then.
    #[tactic(auto, using(crate::proofs::Finding::closed))]
    pub fn close(self, list: &mut [Interval]) -> usize
        requires { Saving self list.old }
        ensures { (saved_in result list.new ≡ save_from (saved_in self.count list.old) self.start self.end)
            × (result ≤ length list.new) }
    {
        let start = self.start;
        let end = self.end;
        let count = self.count;
        if start < 0 {
            return count;
        }
        intervals::save_interval(list, count, start as u32, end as u32)
    }

    // The same before a find from letter s on, unless s lies before the end.
    fn close_before(self, s: i64, list: &mut [Interval]) -> usize
        requires { Saving self list.old }
        ensures { (saved_in result list.new ≡ saved_after (saved_in self.count list.old) self.start self.end s)
            × (result ≤ length list.new) }
    {
        let end = self.end;
        if s < end {
            return self.count;
        }
        self.close(list)
    }

    // The interval after a search at letter i: r is one past the index found in a window of `len` entries, 0 for none.
    pub fn found(mut self, k: usize, i: usize, len: usize, r: usize, list: &mut [Interval]) -> Self
        requires i_bound { (i < 2147483648) × (len < 65536) × (r ≤ len) × (k ≤ 12) }
        requires saving { Saving self list.old }
        ensures { Found k i len self result (find_of r) (saved_in self.count list.old)
            (saved_in result.count list.new) × (result.count ≤ length list.new) }
    {
        if r == 0 {
            return self;
        }
        let s = first_letter(i, len, r, k);
        let count = self.close_before(s, list);
        self.count = count;
        self.start = start_after(self.start, self.end, s);
        self.end = (i + 1) as i64;
        self
    }
}
