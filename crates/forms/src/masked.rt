// The masked letters of a range.

ghost use Rattle.std.specs.Prelude.{◌≡◌, ◌≤◌, ◌-◌, true, IfOk};
ghost use Rattle.intervals.specs.Interval.{covered_in, usual};
ghost use Rattle.questions.specs.Answers.{inside};
ghost use Rattle.questions.specs.Terms.Found.{IsFirstPast};

use intervals::{Interval, is_usual};
use std::io::{Error, Result as IoResult};

// A list of the usual kind.
#[derive(Clone, Copy)]
pub struct Mask<'a> {
    pub list: &'a [Interval],
    ghost usual: { usual 2147483647 list.now ≡ true },
}

// How many letters of the interval lie inside the range.
fn letters_inside(range: Interval, interval: Interval) -> u32
    ensures { result ≡ inside range.start range.end interval }
{
    let start = interval.start.max(range.start);
    let end = interval.end.min(range.end);
    end.saturating_sub(start)
}

impl<'a> Mask<'a> {
    // A list of another kind is no mask.
    pub fn new(list: &'a [Interval]) -> IoResult<Self>
        ensures { IfOk result (λ mask. mask.list.now ≡ list.now) }
    {
        if !is_usual(list, 2147483647) {
            return Err(Error::other("no mask"));
        }
        Ok(Mask { list })
    }

    // The index of the first interval whose end lies past x; the list's length if there is none.
    fn first_past(&self, x: u32) -> usize
        ensures { IsFirstPast self.now.list.now x result }
    {
        self.list.partition_point(|interval| interval.end <= x)
    }

    // The masked letters of the range.
    pub fn masked(&self, range: Interval) -> u32
        requires { range.start ≤ range.end }
        ensures masked { result ≡ covered_in self.now.list.now range.start range.end }
        ensures most { result ≤ range.end - range.start }
    {
        let mut letters = 0;
        for k in self.first_past(range.start)..self.list.len() {
            let interval = self.list[k];
            letters += letters_inside(range, interval);
            if range.end < interval.end {
                return letters;
            }
        }
        letters
    }
}
