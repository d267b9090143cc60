// Questions about a position: the nearest interval, those wholly within a range, those with letters both inside and outside it,
// and the range's masked share.

#![tactic(auto)]

ghost use Rattle.std.specs.Prelude.{◌≡◌, ◌^◌, ◌+◌, ◌-◌, ◌≤◌, ◌<◌, length, sum, true, unwrap_or, OnOk, OnErr, IfOk};
ghost use Rattle.buffers.specs.Fill.{put, tabulate};
ghost use Rattle.intervals.specs.Interval.{interval, covered_in, usual};
ghost use Rattle.questions.specs.Answers.{none, nearest, all_that, within, inside, partly, share, answer_to};
ghost use Rattle.questions.specs.Batch.{blocks, block, summary_of, results_of, bad_question, any_bad, refusal, list_refusal};
ghost use Rattle.checks.specs.Refusal.{number_of, count_of, count_unless};
ghost use Rattle.questions.specs.Terms.Walked.{Walks};
ghost use Rattle.questions.specs.Terms.Found.{IsFirstPast, first_from, Summed, Askable, AllAskable};

use checks::{Refusal, too_many_letters};
use intervals::{Interval, is_usual};

// The letters of a block: the summary has an entry for each.
const BLOCK: u32 = 1024;

/// A question about a range of letters.
#[repr(C)]
#[derive(Clone, Copy)]
pub struct Question {
    /// 0: the interval nearest to letter `from`. 1: the intervals wholly within the range. 2: those with letters both inside
    /// and outside it. 3: the range's masked share.
    pub kind: u32,
    /// The range's first letter, counted from 0.
    pub from: u32,
    /// One past its last letter. A question of kind 0 does not read it.
    pub to: u32,
}

/// What a question is answered; 4,294,967,295 and 0 where there is no such interval.
#[repr(C)]
#[derive(Clone, Copy)]
pub struct Answer {
    /// Kind 0 the interval's index, 1 and 2 the first one's, 3 the share in ten-thousandths.
    pub first: u32,
    /// Kind 0 its distance in letters, 1 and 2 how many intervals, 3 the share's remainder.
    pub second: u32,
}

impl Answer {
    // No interval.
    const NONE: Answer = Answer {
        first: u32::MAX,
        second: 0,
    };
}

// A list of the usual kind.
#[derive(Clone, Copy)]
struct UsualList<'a> {
    list: &'a [Interval],
    ghost usual: { usual 2147483647 list.now ≡ true },
}

impl<'a> UsualList<'a> {
    fn new(n: usize, list: &'a [Interval]) -> Result<Self, Refusal>
        ensures list { IfOk result (λ usual. usual.list.now ≡ list.now) }
        ensures few { OnOk result (n ≤ 2147483647) }
        ensures refusal { number_of result ≡ list_refusal n list.now }
    {
        if too_many_letters(n) {
            return Err(Refusal::TooManyLetters);
        }
        if !is_usual(list, n) {
            return Err(Refusal::UnusualList);
        }
        Ok(UsualList { list })
    }

    // The index of the first interval whose end lies past x; the list's length if there is none.
    fn first_past(&self, x: u32) -> usize
        ensures { IsFirstPast self.now.list.now x result }
    {
        self.list.partition_point(|interval| interval.end <= x)
    }

    // The nearest to letter x is the first interval whose end lies past x, or the one before it.
    #[tactic(auto, using(crate::proofs::NearestSteps::of_nearest))]
    fn nearest_interval(&self, x: u32) -> Option<Answer>
        ensures { unwrap_or result none ≡ nearest x self.now.list.now }
    {
        if self.list.is_empty() {
            return None;
        }
        let j = self.first_past(x);
        if j == 0 {
            return Some(Answer {
                first: 0,
                second: letters_before(x, self.list[0].start),
            });
        }
        let left = x - self.list[j - 1].end;
        if j == self.list.len() {
            return Some(Answer {
                first: (j - 1) as u32,
                second: left,
            });
        }
        let right = letters_before(x, self.list[j].start);
        if right < left {
            return Some(Answer {
                first: j as u32,
                second: right,
            });
        }
        Some(Answer {
            first: (j - 1) as u32,
            second: left,
        })
    }

    // The index of the first interval that begins at x or later; the list's length if there is none.
    fn first_from(&self, x: u32) -> usize
        ensures { result ≡ first_from self.now.list.now x }
    {
        self.list.partition_point(|interval| interval.start < x)
    }

    // The intervals wholly within the range: those that begin at its start or later, up to the first whose end lies past its end.
    #[tactic(auto, using(crate::proofs::RangeSteps::of_within))]
    fn intervals_within(&self, range: Interval) -> Option<Answer>
        ensures { unwrap_or result none
            ≡ all_that (within range.start range.end) self.now.list.now }
    {
        let first = self.first_from(range.start);
        let past = self.first_past(range.end);
        if first < past {
            return Some(Answer {
                first: first as u32,
                second: (past - first) as u32,
            });
        }
        None
    }

    // The intervals with letters both inside and outside the range: at most one over its start and one over its end, which may be the same.
    #[tactic(auto, using(crate::proofs::RangeSteps::of_partly))]
    fn intervals_partly(&self, range: Interval) -> Option<Answer>
        requires nonempty { range.start < range.end }
        ensures { unwrap_or result none
            ≡ all_that (partly range.start range.end) self.now.list.now }
    {
        let left = self.first_past(range.start);
        let right = self.first_past(range.end);
        if left < self.first_from(range.start) {
            if left < right && right < self.first_from(range.end) {
                return Some(Answer {
                    first: left as u32,
                    second: 2,
                });
            }
            return Some(Answer {
                first: left as u32,
                second: 1,
            });
        }
        if right < self.first_from(range.end) {
            return Some(Answer {
                first: right as u32,
                second: 1,
            });
        }
        None
    }

    // Counts the range's covered letters, from j on, the first interval whose end lies past the range's start.
    fn walk(&self, j: usize, range: Interval) -> Walked
        requires first_past { IsFirstPast self.now.list.now range.start j }
        requires in_order { range.start ≤ range.end }
        ensures { Walks self.now.list.now range.start range.end result }
    {
        let mut letters = 0;
        for k in j..self.list.len() {
            let interval = self.list[k];
            letters += letters_inside(range, interval);
            if range.end < interval.end {
                return Walked { letters, next: k };
            }
        }
        Walked {
            letters,
            next: self.list.len(),
        }
    }

    // The range's covered letters, by a walk from the first interval whose end lies past its start.
    fn count_letters(&self, range: Interval) -> u32
        requires in_order { range.start ≤ range.end }
        ensures { result ≡ covered_in self.now.list.now range.start range.end }
    {
        self.walk(self.first_past(range.start), range).letters
    }

    // Writes the covered letters of each block, one walk over the list in all.
    fn fill_summary(&self, summary: &mut [u32])
        requires { length summary.old ≤ 2097152 }
        ensures { summary.new ≡ tabulate (block self.now.list.now) (length summary.old) }
    {
        let mut next = 0;
        for (i, entry) in summary.iter_mut().enumerate() {
            let start = BLOCK * i as u32;
            let end = start + BLOCK;
            let walked = self.walk(next, Interval { start, end });
            *entry = walked.letters;
            next = walked.next;
        }
    }

    // The range's covered letters: those up to the first block that begins in it, whole blocks from the summary, those after the last.
    #[tactic(auto, using(crate::proofs::Blocks::of_parts))]
    fn masked_letters(&self, summary: &[u32], range: Interval) -> u32
        requires summed { Summed self.now.list.now summary.now range.end }
        requires in_order { range.start ≤ range.end }
        requires end_in_bounds { range.end ≤ 2147483647 }
        ensures { result ≡ covered_in self.now.list.now range.start range.end }
    {
        let first = range.start.div_ceil(BLOCK);
        let last = range.end / BLOCK;
        if last < first {
            return self.count_letters(range);
        }
        let front = Interval {
            start: range.start,
            end: first * BLOCK,
        };
        let back = Interval {
            start: last * BLOCK,
            end: range.end,
        };
        let blocks = &summary[first as usize..last as usize];
        self.count_letters(front) + total_letters(blocks) + self.count_letters(back)
    }

    // The range's masked share in ten-thousandths, and the remainder.
    #[tactic(auto, using(crate::proofs::Share::of_share))]
    fn masked_share(&self, summary: &[u32], range: Interval) -> Answer
        requires summed { Summed self.now.list.now summary.now range.end }
        requires nonempty { range.start < range.end }
        requires end_in_bounds { range.end ≤ 2147483647 }
        ensures { result ≡ share range.start range.end self.now.list.now }
    {
        let parts = 10000 * (self.masked_letters(summary, range) as usize);
        let long = (range.end - range.start) as usize;
        Answer {
            first: (parts / long) as u32,
            second: (parts % long) as u32,
        }
    }

    // C has the kind as a number in the question.
    #[tactic(auto, unfolding(crate::specs::Answers::answer_to))]
    fn answer_one(&self, summary: &[u32], question: Question) -> Answer
        requires askable { Askable self.now.list.now summary.now question }
        ensures { result ≡ answer_to self.now.list.now question.kind question.from question.to }
    {
        let range = Interval {
            start: question.from,
            end: question.to,
        };
        match question.kind {
            0 => self.nearest_interval(question.from).unwrap_or(Answer::NONE),
            1 => self.intervals_within(range).unwrap_or(Answer::NONE),
            2 => self.intervals_partly(range).unwrap_or(Answer::NONE),
            _ => self.masked_share(summary, range),
        }
    }

    #[tactic(auto, using(crate::proofs::Answering::of_answers))]
    fn answer_all(&self, summary: &[u32], questions: &[Question], results: &mut [Answer])
        requires all_askable { AllAskable self.now.list.now summary.now questions.now }
        requires questions_in_bounds { length questions.now ≤ length results.old }
        ensures { results.new ≡ put (results_of self.now.list.now questions.now) results.old }
    {
        for (i, question) in questions.iter().enumerate() {
            results[i] = self.answer_one(summary, *question);
        }
    }
}

// The letters between letter x and a start after it.
fn letters_before(x: u32, start: u32) -> u32
    ensures { result ≡ start - (x + 1) }
{
    start.saturating_sub(x).saturating_sub(1)
}

// How many letters of the interval lie inside the range.
fn letters_inside(range: Interval, interval: Interval) -> u32
    ensures { result ≡ inside range.start range.end interval }
{
    let start = interval.start.max(range.start);
    let end = interval.end.min(range.end);
    end.saturating_sub(start)
}

// What a walk over a range found.
#[derive(Clone, Copy)]
struct Walked {
    // The range's covered letters.
    letters: u32,
    // The first interval whose end lies past the range's.
    next: usize,
}

// The sum of the entries.
fn total_letters(blocks: &[u32]) -> u32
    requires { sum blocks.now < 2 ^ 32 }
    ensures { result ≡ sum blocks.now }
{
    blocks.iter().sum()
}

// C has the kind as a number in the question.
fn bad_question(n: usize, question: Question) -> bool
    ensures { result ≡ bad_question n question.kind question.from question.to }
{
    let from = question.from as usize;
    let to = question.to as usize;
    if question.kind == 0 {
        return n <= from;
    }
    (3 < question.kind) | ((to <= from) | (n < to))
}

fn any_bad(questions: &[Question], n: usize) -> bool
    ensures { result ≡ any_bad n questions.now }
{
    questions.iter().any(|question| bad_question(n, *question))
}

fn count_blocks(n: usize) -> usize
    ensures { result ≡ blocks n }
{
    n.div_ceil(BLOCK as usize)
}

/// Answers a batch of questions about a list of the usual kind in n letters: a result is written for each question, in order.
/// The summary is built first: an entry for each 1,024 letters, n / 1,024 rounded up. Returns the number of questions, or refusal 10, 16, 11 or 17.
pub fn answer_questions(
    n: usize,
    list: &[Interval],
    questions: &[Question],
    summary: &mut [u32],
    results: &mut [Answer],
) -> Result<usize, Refusal>
    ensures count { IfOk result (λ count. count ≡ length questions.now) }
    ensures values { count_of result
        ≡ count_unless (refusal n list.now questions.now (length summary.old) (length results.old))
        (length questions.now) }
    ensures summary { OnOk result (summary.new ≡ put (summary_of n list.now) summary.old) }
    ensures results { OnOk result
        (results.new ≡ put (results_of list.now questions.now) results.old) }
    ensures refusal { number_of result
        ≡ refusal n list.now questions.now (length summary.old) (length results.old) }
    ensures same_summary { OnErr result (summary.new ≡ summary.old) }
    ensures same_results { OnErr result (results.new ≡ results.old) }
{
    let list = UsualList::new(n, list)?;
    let blocks = count_blocks(n);
    if summary.len() < blocks || results.len() < questions.len() {
        return Err(Refusal::ShortSlice);
    }
    if any_bad(questions, n) {
        return Err(Refusal::BadQuestion);
    }
    list.fill_summary(&mut summary[..blocks]);
    list.answer_all(summary, questions, results);
    Ok(questions.len())
}
