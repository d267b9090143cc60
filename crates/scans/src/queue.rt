// The window's queue in its ring: where entries stand, and the scan counts of some of them cleared or taken out.

ghost use Rattle.std.specs.Prelude.{◌≡◌, ◌<◌, ◌≤◌, length, drop, replicate};
ghost use Rattle.letters.specs.Terms.Entry.{decoded};
ghost use Rattle.scans.specs.Terms.Counted.{Counted, Touched};
ghost use Rattle.scans.specs.Terms.Window.{ring_index, ring_end, newest_in};
ghost use Rattle.scans.specs.Terms.Parts.{Coded, Walked};
ghost use Rattle.scans.specs.Terms.Run.{entries_of, KmersCounted, InParts, PartTo};

use crate::Ring;
use crate::counts::lower_entry;

// Setting one count costs as much as clearing this many in a row.
const CLEARED_AT_ONCE: usize = 8;

// Where the j-th entry of the queue from `head` on stands in a ring of `window` numbers.
pub fn ring_index(window: usize, head: usize, j: usize) -> usize
    requires { (head < window) × (j ≤ window) × (window ≤ 65535) }
    ensures { result ≡ ring_index window head j }
{
    let i = head + j;
    if i < window {
        return i;
    }
    i - window
}

// Two straight parts of a ring, the older entries and the newer ones.
#[derive(Clone, Copy)]
pub(crate) struct Parts<'a> {
    pub older: &'a [u32],
    pub newer: &'a [u32],
}

impl<'a> Ring<'a> {
    // Where the j-th entry stands.
    pub fn index(&self, j: usize) -> usize
        requires { j ≤ length self.now.queue.now }
        ensures { result ≡ ring_index (length self.now.queue.now) self.now.head j }
    {
        ring_index(self.queue.len(), self.head, j)
    }

    // The same, but the ring's end where the entry stands past it: entries `from` to `to - 1` stand from end(from) to end(to),
    // and from head + from - end(from) to head + to - end(to).
    fn end(&self, j: usize) -> usize
        requires { j ≤ length self.now.queue.now }
        ensures { result ≡ ring_end (length self.now.queue.now) self.now.head j }
    {
        (self.head + j).min(self.queue.len())
    }

    // The newest entry.
    #[tactic(auto, using(crate::proofs::Rings::of_newest))]
    pub fn newest(&self) -> u32
        requires { 0 < self.now.len }
        ensures { result ≡ newest_in self.now.queue.now self.now.head self.now.len }
    {
        self.queue[self.index(self.len - 1)]
    }

    // The straight parts with entries `from` to `to - 1`.
    pub(crate) fn parts(&self, from: usize, to: usize) -> Parts<'a>
        requires { (from ≤ to) × (to ≤ self.now.len) }
        ensures { InParts self.now from to result.older.now result.newer.now }
    {
        let a = self.end(from);
        let b = self.end(to);
        let c = self.head + from - a;
        let d = self.head + to - b;
        Parts {
            older: &self.queue[a..b],
            newer: &self.queue[c..d],
        }
    }

    // A straight part with the entries just before entry `low`: the newer part, or what is left of it, else of the older part.
    pub(crate) fn before(&self, low: usize) -> &'a [u32]
        requires { (0 < low) × (low ≤ self.now.len) }
        ensures { PartTo self.now low result.now }
    {
        let to = self.head + low;
        if self.queue.len() < to {
            return &self.queue[..to - self.queue.len()];
        }
        &self.queue[self.head..to]
    }

    // Takes entries `from` to `to - 1` out of the scan counts, which are those of the entries from `from` on.
    pub fn uncount(&self, from: usize, to: usize, scan_counts: &mut [u16])
        requires kmers_counted { KmersCounted self.now (length scan_counts.old) }
        requires from_le_to { (from ≤ to) × (to ≤ self.now.len)
            × Counted (length scan_counts.old) scan_counts.old (drop from (entries_of self.now)) }
        ensures { Counted (length scan_counts.old) scan_counts.new (drop to (entries_of self.now)) }
    {
        let parts = self.parts(from, to);
        uncount_part(parts.older, scan_counts);
        uncount_part(parts.newer, scan_counts);
    }

    // Clears the scan counts, which only entries from `from` on have touched: each of theirs, or all where these are fewer.
    pub fn clear_from(&self, from: usize, scan_counts: &mut [u16])
        requires kmers_counted { KmersCounted self.now (length scan_counts.old) }
        requires from_le_len { (from ≤ self.now.len) × Touched scan_counts.old (drop from (entries_of self.now)) }
        ensures { scan_counts.new ≡ replicate (length scan_counts.old) 0 }
    {
        if (self.len - from) * CLEARED_AT_ONCE > scan_counts.len() {
            scan_counts.fill(0);
            return;
        }
        let parts = self.parts(from, self.len);
        clear_part(parts.older, scan_counts);
        clear_part(parts.newer, scan_counts);
    }
}

// Takes the entries of a straight part out of the scan counts.
// A loop of its own beside that of `clear_part`: the step passed as a closure would be as long.
fn uncount_part(part: &[u32], scan_counts: &mut [u16])
    requires { Coded part.now (length scan_counts.old) }
    ensures { Walked (Counted (length scan_counts.old)) (decoded part.now) scan_counts.old
        scan_counts.new }
{
    for entry in part {
        lower_entry(scan_counts, *entry);
    }
}

// The counts of a straight part's entries are set to 0.
fn clear_part(part: &[u32], scan_counts: &mut [u16])
    requires { Coded part.now (length scan_counts.old) }
    ensures { Walked Touched (decoded part.now) scan_counts.old scan_counts.new }
{
    for entry in part {
        scan_counts[(*entry >> 1) as usize] = 0;
    }
}
