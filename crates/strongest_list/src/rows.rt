// A row of letters that are not barred: the stretches of each end, by blocks of 64 places.

ghost use Rattle.std.specs.Prelude.{◌≡◌, ℕ, ◌+◌, ◌-◌, ◌*◌, ◌/◌, ◌^◌, ◌≤◌, ◌<◌, min, max, true, not, ◌&&◌, length};
ghost use Rattle.strongest.specs.Terms.Reading.{Narrow};
ghost use Rattle.strongest_list.specs.Call.{asked_of};
ghost use Rattle.strongest_list.specs.Checks.{n_places};
ghost use Rattle.strongest_list.specs.Mirrored.{Rises};
ghost use Rattle.strongest_list.specs.Terms.Best.{Searchable};
ghost use Rattle.strongest_list.specs.Terms.Blocks.{Below_top, Blocked, order_at, gains};
ghost use Rattle.strongest_list.specs.Terms.Rows.{reaches, offers, gained, loss_of, Capped, steps_in_row, low_in_row, Searches, read_next};

use crate::Request;
use crate::blocks::Block;
use crate::linked::{LinkedPlace, join, value};
use crate::search::Candidate;
use letters::Kmer;

// Blocks for 2 * 65,535 + 4,096 + 12 places.
const BLOCKS: usize = 2113;

// The letters of a row.
#[derive(Clone, Copy)]
pub struct Row {
    // The number of its first letter.
    pub first: usize,
    // How many of its first places have a letter before it.
    pub skipped: usize,
    // The ends of how many of its first places were searched before.
    pub before: usize,
    // Neither table falls.
    pub steady: bool,
}

// The best so far, and what no stretch that ends with the newest place exceeds.
#[derive(Clone, Copy)]
pub struct Reached {
    pub best: Option<Candidate>,
    pub ceiling: u64,
}

// Places from .. end - 1 of the `count` that joined, of those from `low` on.
#[derive(Clone, Copy)]
pub struct Part {
    pub from: usize,
    pub end: usize,
    pub count: usize,
    pub low: usize,
}

// The stretches that were looked at, and what the places behind them gain.
#[derive(Clone, Copy)]
pub struct Looked {
    pub best: Option<Candidate>,
    pub ceiling: u64,
    pub after: u64,
}

// The places of a block that were read, and what they gain; their top.
#[derive(Clone, Copy)]
pub struct Read {
    pub best: Option<Candidate>,
    pub ceiling: u64,
    pub gain: u64,
    pub top: u64,
}

// Whether a stretch with this score and so many places would be better than the best so far.
fn reaches(floor: u64, best: Option<Candidate>, score: u64, size: usize) -> bool
    ensures { result ≡ reaches floor best score size }
{
    match best {
        None => floor < score,
        Some(c) => {
            let high = c.gain.saturating_sub(c.loss);
            (high < score) | ((high == score) & (c.size < size))
        }
    }
}

impl Read {
    // One place more at the old side: the first of a stretch of `size` places, `back` of which in the block are read.
    fn next(
        self,
        request: &Request,
        first: usize,
        size: usize,
        after: u64,
        back: usize,
        value: u64,
    ) -> Self
        requires narrow { let s = request.now.scoring in
            Narrow s.threshold s.ln.now s.f.now request.now.window_size }
        requires window { request.now.window_size ≤ 65535 }
        requires some { 0 < size }
        requires size { size ≤ request.now.window_size }
        requires back { back < 64 }
        requires after { after < 4503599627370496 }
        requires gain { self.gain < 4503599627370496 }
        requires value { value < 68719476736 }
        ensures { result ≡ read_next request.now self first size after back value }
    {
        let threshold = request.scoring.threshold;
        let gain = self.gain + value;
        let loss = (size as u64) * threshold + request.scoring.f[size];
        let all = after + gain;
        let score = all.saturating_sub(loss);
        let top = self.top.max(gain + (63 - back as u64) * threshold);
        let ceiling = self.ceiling.max(score);
        if reaches(request.floor, self.best, score, size) {
            let best = Candidate {
                first,
                size,
                gain: all,
                loss,
            };
            return Self {
                best: Some(best),
                ceiling,
                gain,
                top,
            };
        }
        Self {
            best: self.best,
            ceiling,
            gain,
            top,
        }
    }
}

impl Row {
    // No stretch with this score and so many places at most is better than the best so far: where neither table falls, the score is a bound.
    fn leaves_out(self, floor: u64, best: Option<Candidate>, score: u64, size: usize) -> bool
        ensures { result ≡ (self.steady && not (reaches floor best score size)) }
    {
        self.steady & !reaches(floor, best, score, size)
    }

    // Reads the places of a part.
    fn read(self, request: &Request, places: &[LinkedPlace], part: Part, looked: Looked) -> Read
        requires narrow { let s = request.now.scoring in
            Narrow s.threshold s.ln.now s.f.now request.now.window_size }
        requires window { request.now.window_size ≤ 65535 }
        requires order { part.from ≤ part.end }
        requires block { part.end ≤ part.from + 64 }
        requires end { part.end ≤ part.count }
        requires inside { part.count ≤ length places.now }
        requires short { part.count ≤ part.from + request.now.window_size }
        requires few { (p : ℕ) → p < part.count → order_at places.now p ≤ request.now.window_size }
        requires first { self.first + part.count < 9223372036854775807 }
        requires after { looked.after ≡ gained request.now places.now part.count (part.count - part.end) }
        ensures best { result.best
            ≡ offers request.now places.now self.first part.count looked.best (part.count - part.end) (part.end - part.from) }
        ensures ceiling { looked.ceiling ≤ result.ceiling }
        ensures capped { Capped request.now places.now part.count result.ceiling (part.count - part.end) (part.end - part.from) }
        ensures top { (p : ℕ) → part.from ≤ p → p < part.end
            → Below_top request.now.scoring.threshold (gains request.now.scoring.ln.now (order_at places.now) p (part.end - p)) (part.end - p) result.top }
        ensures top_small { result.top ≤ 1152921504606846976 }
    {
        let mut read = Read {
            best: looked.best,
            ceiling: looked.ceiling,
            gain: 0,
            top: 0,
        };
        for back in 0..part.end - part.from {
            let p = part.end - 1 - back;
            let gained = value(request.scoring.ln, places[p].order);
            read = read.next(
                request,
                self.first + p,
                part.count - p,
                looked.after,
                back,
                gained,
            );
        }
        read
    }

    // The stretches that begin in a part, which lies in one block.
    fn look_at(
        self,
        request: &Request,
        places: &[LinkedPlace],
        blocks: &mut [Block],
        part: Part,
        looked: Looked,
    ) -> Looked
        requires narrow { let s = request.now.scoring in
            Narrow s.threshold s.ln.now s.f.now request.now.window_size }
        requires window { request.now.window_size ≤ 65535 }
        requires steady { self.steady ≡ true → Rises request.now.scoring.f.now request.now.window_size }
        requires order { part.from < part.end }
        requires from { part.from ≡ max part.low (64 * (part.from / 64)) }
        requires end { part.end ≡ min (64 * (part.from / 64) + 64) part.count }
        requires inside { part.count ≤ length places.now }
        requires blocks { part.count ≤ 64 * length blocks.old }
        requires short { part.count ≤ part.low + request.now.window_size }
        requires few { (p : ℕ) → p < part.count → order_at places.now p ≤ request.now.window_size }
        requires first { self.first + part.count < 9223372036854775807 }
        requires after { looked.after ≡ gained request.now places.now part.count (part.count - part.end) }
        requires blocked { let s = request.now.scoring in
            Blocked s.ln.now s.threshold part.low part.count (order_at places.now) blocks.old }
        ensures best { result.best
            ≡ offers request.now places.now self.first part.count looked.best (part.count - part.end) (part.end - part.from) }
        ensures ceiling { looked.ceiling ≤ result.ceiling }
        ensures capped { Capped request.now places.now part.count result.ceiling (part.count - part.end) (part.end - part.from) }
        ensures after { part.low < part.from → result.after ≡ gained request.now places.now part.count (part.count - part.from) }
        ensures blocked { let s = request.now.scoring in
            Blocked s.ln.now s.threshold part.low part.count (order_at places.now) blocks.new }
    {
        let j = part.from / 64;
        let block = blocks[j];
        let newer = part.count - part.end;
        let loss = (newer as u64 + 64) * request.scoring.threshold + request.scoring.f[newer + 1];
        let bound = (looked.after + block.top).saturating_sub(loss);
        let after = looked.after + block.gain;
        let ceiling = looked.ceiling.max(bound);
        let out = self.leaves_out(request.floor, looked.best, bound, part.count - part.from);
        if out {
            return Looked {
                best: looked.best,
                ceiling,
                after,
            };
        }
        let seen = self.read(request, places, part, looked);
        blocks[j].top = seen.top;
        Looked {
            best: seen.best,
            ceiling: seen.ceiling,
            after,
        }
    }

    // The stretches of `steps` places at most that end with the last of `count` places.
    fn look(
        self,
        request: &Request,
        places: &[LinkedPlace],
        blocks: &mut [Block],
        count: usize,
        low: usize,
        best: Option<Candidate>,
    ) -> Reached
        requires narrow { let s = request.now.scoring in
            Narrow s.threshold s.ln.now s.f.now request.now.window_size }
        requires window { request.now.window_size ≤ 65535 }
        requires steady { self.steady ≡ true → Rises request.now.scoring.f.now request.now.window_size }
        requires order { low ≤ count }
        requires inside { count ≤ length places.now }
        requires blocks { count ≤ 64 * length blocks.old }
        requires short { count ≤ low + request.now.window_size }
        requires few { (p : ℕ) → p < count → order_at places.now p ≤ request.now.window_size }
        requires first { self.first + count < 9223372036854775807 }
        requires blocked { let s = request.now.scoring in
            Blocked s.ln.now s.threshold low count (order_at places.now) blocks.old }
        ensures best { result.best ≡ offers request.now places.now self.first count best 0 (count - low) }
        ensures capped { Capped request.now places.now count result.ceiling 0 (count - low) }
        ensures blocked { let s = request.now.scoring in
            Blocked s.ln.now s.threshold low count (order_at places.now) blocks.new }
    {
        let mut looked = Looked {
            best,
            ceiling: 0,
            after: 0,
        };
        let mut end = count;
        'back: while low < end {
            let from = low.max((end - 1) / 64 * 64);
            let part = Part {
                from,
                end,
                count,
                low,
            };
            looked = self.look_at(request, places, blocks, part, looked);
            end = from;
        }
        Reached {
            best: looked.best,
            ceiling: looked.ceiling,
        }
    }

    // The newest place as an end. It is looked at only if a stretch may be better than the best so far.
    fn judge(
        self,
        request: &Request,
        places: &[LinkedPlace],
        blocks: &mut [Block],
        count: usize,
        low: usize,
        reached: Reached,
    ) -> Reached
        requires narrow { let s = request.now.scoring in
            Narrow s.threshold s.ln.now s.f.now request.now.window_size }
        requires window { request.now.window_size ≤ 65535 }
        requires steady { self.steady ≡ true → Rises request.now.scoring.f.now request.now.window_size }
        requires order { low ≤ count }
        requires inside { count ≤ length places.now }
        requires blocks { count ≤ 64 * length blocks.old }
        requires short { count ≤ low + request.now.window_size }
        requires few { (p : ℕ) → p < count → order_at places.now p ≤ request.now.window_size }
        requires first { self.first + count < 9223372036854775807 }
        requires blocked { let s = request.now.scoring in
            Blocked s.ln.now s.threshold low count (order_at places.now) blocks.old }
        requires capped { self.steady ≡ true → Capped request.now places.now count reached.ceiling 0 (count - low) }
        ensures early { count ≤ self.before → result.best ≡ reached.best }
        ensures best { self.before < count
            → result.best ≡ offers request.now places.now self.first count reached.best 0 (count - low) }
        ensures capped { self.steady ≡ true → Capped request.now places.now count result.ceiling 0 (count - low) }
        ensures blocked { let s = request.now.scoring in
            Blocked s.ln.now s.threshold low count (order_at places.now) blocks.new }
    {
        if count <= self.before {
            return reached;
        }
        let out = self.leaves_out(request.floor, reached.best, reached.ceiling, count - low);
        if out {
            return reached;
        }
        self.look(request, places, blocks, count, low, reached.best)
    }
}

// The best of those found and those that end at a place of the row.
pub fn search_row(
    request: &Request,
    letters: &[u8],
    newest: &mut [u32],
    places: &mut [LinkedPlace],
    row: Row,
    best: Option<Candidate>,
) -> Option<Candidate>
    requires searchable { Searchable request.now }
    requires newest { length newest.old ≡ 4 ^ request.now.kmer }
    requires places { length places.old ≡ n_places (asked_of request.now) }
    requires inside { length letters.now ≤ length places.old }
    requires first { row.first + length letters.now ≤ 2147483647 }
    requires ln { row.steady ≡ true → Rises request.now.scoring.ln.now request.now.window_size }
    requires f { row.steady ≡ true → Rises request.now.scoring.f.now request.now.window_size }
    ensures { Searches request.now row letters.now best result }
{
    let mut blocks = [Block { gain: 0, top: 0 }; BLOCKS];
    let mut kmer = Kmer::new();
    let mut reached = Reached { best, ceiling: 0 };
    for n in 0..letters.len() {
        let count = n + 1;
        let whole = count.saturating_sub(row.skipped);
        let steps = request.window_size.min(whole);
        let low = count - steps;
        kmer = kmer.next(letters[n], request.kmer);
        let entry = kmer.entry(request.kmer);
        let order = join(request, places, newest, &mut blocks, n, low, entry);
        let gained = value(request.scoring.ln, order);
        let most = reached.ceiling.min(1152921504606846976) + gained;
        let ceiling = most.saturating_sub(request.scoring.threshold);
        let next = Reached {
            best: reached.best,
            ceiling,
        };
        reached = row.judge(request, places, &mut blocks, count, low, next);
    }
    reached.best
}
