// The recorded answer, compared with the port's.

ghost use Rattle.std.specs.Prelude.{◌≡◌, ◌&&◌, nat_lt, ◌==◌, length, slice_index_or};
ghost use Rattle.intervals.specs.Interval.{interval};
ghost use Rattle.replay.specs.Words.{Follows};

use crate::words::{Malformed, Words};
use checks::Refusal;
use intervals::Interval;
use longdust::Answer;

// Whether entry i of a list is there and is [start, end].
fn has(list: &[Interval], i: usize, start: u32, end: u32) -> bool
    ensures { let L = list.now in let here = slice_index_or L i (interval 0 0) in
        result ≡ (nat_lt i (length L) && ((here.start == start) && (here.end == end))) }
{
    list.get(i)
        .is_some_and(|interval| interval.start == start && interval.end == end)
}

// Whether entry i of the marks is there and is `mark`.
fn has_mark(marks: &[u8], i: usize, mark: u32) -> bool
    ensures { result ≡ (nat_lt i (length marks.now) && (slice_index_or marks.now i 0 == mark)) }
{
    marks.get(i).is_some_and(|entry| *entry as u32 == mark)
}

// Reads `count` intervals with their marks; whether they are the first ones of a list.
#[tactic(auto, using(crate::proofs::Following::following))]
fn intervals(
    words: &mut Words,
    count: u32,
    list: &[Interval],
    marks: &[u8],
) -> Result<bool, Malformed>
    ensures { Follows words.old.rest.now words.new.rest.now }
{
    let mut same = true;
    for i in 0..count as usize {
        let start = words.number(u32::MAX)?;
        let end = words.number(u32::MAX)?;
        let mark = words.number(3)?;
        same &= has(list, i, start, end) & has_mark(marks, i, mark);
    }
    Ok(same)
}

/// Reads the recorded answer, refusal, flag, count, intervals and marks. Returns whether the answer is the recorded one.
#[tactic(auto, using(crate::proofs::Following::following))]
pub fn compare(
    words: &mut Words,
    answer: Result<Answer, Refusal>,
    list: &[Interval],
    marks: &[u8],
) -> Result<bool, Malformed>
    ensures { Follows words.old.rest.now words.new.rest.now }
{
    let number = words.number(13)?;
    if number != 0 {
        return Ok(matches!(answer, Err(refusal) if refusal.number() == number));
    }
    let in_range = words.flag()?;
    let count = words.number(100)?;
    let same =
        matches!(answer, Ok(mask) if mask.in_range == in_range && mask.count == count as usize);
    Ok(intervals(words, count, list, marks)? & same)
}
