// The window of a run, its scan counts and the scan that is carried on.

ghost use Rattle.std.specs.Prelude.{◌≡◌, ◌+◌, ◌/◌, ◌^◌, ◌<◌, ◌≤◌, length, get_or, replicate};
ghost use Rattle.letters.specs.Place.{plain};
ghost use Rattle.letters.specs.Terms.Entry.{decode};
ghost use Rattle.scans.specs.Counts.{raise, lower};
ghost use Rattle.scans.specs.Terms.Window.{find_of, window, Windowed};
ghost use Rattle.scans.specs.Terms.Parts.{Queued};
ghost use Rattle.scans.specs.Terms.Run.{as_setup};
ghost use Rattle.step.specs.Step.{whole, last_q_without, is_at};
ghost use Rattle.step.specs.Terms.KnownCounts.{Passing, Passes, Clearing, extended_of, answered_by};
ghost use Rattle.step.specs.Terms.Entering.{sum_less, sum_more, Left, Joined};
ghost use Rattle.step.specs.Terms.Finding.{last_q_by};

use letters::kmer_of;
use scans::{Ring, Setup};

// The window's float sum, last_q, and where its entries stand in the queue: `len` of them, the oldest at `head`.
// The queue is not in it: the run's state goes in and out by value, and each letter writes to the queue, which is lent. `ring` puts both together to read.
// Unless `live`, all scan counts are 0; `carry` is the forward scan from last_q on.
// No Option: the specification computes with last_q, -1 too, and `live` says something of the counts, not whether there is a value.
#[derive(Clone, Copy)]
pub struct Window {
    pub sum: f64,
    pub last_q: i64,
    pub head: usize,
    pub len: usize,
    pub live: bool,
    pub carry: search::Carry,
}

// The sum without an entry that leaves: if plain, the ln entry of its count leaves the sum, and the count falls.
// Not by `scans::lower_entry`, which tests for a count of 0 and does not tell the count that it lowers.
fn sum_without(sum: f64, entry: u32, ln: &[f64], counts: &mut [u16]) -> f64
    requires { (entry / 2 < length counts.old) × (get_or counts.old (entry / 2) 0 < length ln.now)
        × (decode entry ≡ plain (entry / 2) → 0 < get_or counts.old (entry / 2) 0) }
    ensures { (result ≡ sum_less ln.now counts.old sum (decode entry))
        × (counts.new ≡ lower counts.old (decode entry)) }
{
    let Some(kmer) = kmer_of(entry) else {
        return sum;
    };
    let c = counts[kmer];
    counts[kmer] = c - 1;
    sum - ln[c as usize]
}

// The sum with an entry that joins: if plain, its count rises, and the ln entry of the count is added.
#[tactic(auto, using(crate::proofs::Moving::joining))]
fn sum_with(sum: f64, entry: u32, ln: &[f64], counts: &mut [u16]) -> f64
    requires { (entry / 2 < length counts.old) × (get_or counts.old (entry / 2) 0 < 65535)
        × (get_or counts.old (entry / 2) 0 + 1 < length ln.now) }
    ensures { (result ≡ sum_more ln.now counts.new sum (decode entry))
        × (counts.new ≡ raise counts.old (decode entry)) }
{
    match scans::raise_entry(counts, entry) {
        Some(c) => sum + ln[c as usize],
        None => sum,
    }
}

// last_q without the oldest entry.
fn last_q_without(last_q: i64) -> i64
    ensures { result ≡ last_q_without last_q }
{
    if last_q > 0 { last_q - 1 } else { last_q }
}

// Whether a signed number is i.
pub fn is_at(z: i64, i: usize) -> bool
    requires { i < 2147483648 }
    ensures { result ≡ is_at z i }
{
    (i as i64) == z
}

impl Window {
    // The window in its queue.
    pub fn ring<'a>(self, queue: &'a [u32]) -> Ring<'a>
        requires { (self.head < length queue.now) × (self.len ≤ length queue.now) × (length queue.now ≤ 65535) }
        ensures { (result.queue.now ≡ queue.now) × (result.head ≡ self.head) × (result.len ≡ self.len) }
    {
        Ring {
            queue,
            head: self.head,
            len: self.len,
        }
    }

    // last_q as an index; 0 where there is none.
    pub fn last_q_index(self) -> usize
        ensures { result ≡ whole self.last_q }
    {
        self.last_q.max(0) as usize
    }

    // The oldest entry leaves a full queue; last_q = 0 lowers its scan count, unless all are 0, and ends a carried scan, which began there.
    fn leave(
        mut self,
        setup: &Setup,
        queue: &[u32],
        window_counts: &mut [u16],
        scan_counts: &mut [u16],
    ) -> Self
        requires len_value { (self.len ≡ setup.now.params.window_size) × (length scan_counts.old ≡ 4 ^ setup.now.params.kmer) }
        requires windowed { Windowed setup.now.params queue.now self.head self.len window_counts.old (length setup.now.ln.now) }
        ensures { Left setup.now.params setup.now.ln.now self result queue.now scan_counts.old
            window_counts.new scan_counts.new }
    {
        let head = self.head;
        let last_q = self.last_q;
        let entry = queue[head];
        self.sum = sum_without(self.sum, entry, setup.ln, window_counts);
        if self.live & is_at(last_q, 0) {
            scans::lower_entry(scan_counts, entry);
            self.carry = search::Carry::none();
        }
        self.last_q = last_q_without(last_q);
        self.head = scans::ring_index(setup.params.window_size, head, 1);
        self.len -= 1;
        self
    }

    // If the queue is full, the oldest entry leaves.
    pub fn make_room(
        self,
        setup: &Setup,
        queue: &[u32],
        window_counts: &mut [u16],
        scan_counts: &mut [u16],
    ) -> Self
        requires scan_counts_len { length scan_counts.old ≡ 4 ^ setup.now.params.kmer }
        requires windowed { Windowed setup.now.params queue.now self.head self.len window_counts.old (length setup.now.ln.now) }
        ensures { Left setup.now.params setup.now.ln.now self result queue.now scan_counts.old
            window_counts.new scan_counts.new }
    {
        if self.len == setup.params.window_size {
            self.leave(setup, queue, window_counts, scan_counts)
        } else {
            self
        }
    }

    // A new entry joins.
    pub fn join(
        mut self,
        setup: &Setup,
        entry: u32,
        queue: &mut [u32],
        window_counts: &mut [u16],
    ) -> Self
        requires len_bound { (self.len < setup.now.params.window_size) × (entry / 2 < 4 ^ setup.now.params.kmer) }
        requires windowed { Windowed setup.now.params queue.old self.head self.len window_counts.old (length setup.now.ln.now) }
        ensures { Joined setup.now.params setup.now.ln.now self result entry queue.old queue.new
            window_counts.new }
    {
        let i = scans::ring_index(setup.params.window_size, self.head, self.len);
        queue[i] = entry;
        self.sum = sum_with(self.sum, entry, setup.ln, window_counts);
        self.len += 1;
        self
    }

    // No find: a carried scan goes on to the newest entry.
    pub fn passed(
        mut self,
        setup: &Setup,
        queue: &[u32],
        window_counts: &[u16],
        scan_counts: &mut [u16],
    ) -> Self
        requires { Passing setup.now.params self queue.now window_counts.now (length setup.now.ln.now) (length setup.now.f.now) scan_counts.old }
        ensures { Passes (as_setup setup.now) (window queue.now self.head self.len) self result
            scan_counts.old scan_counts.new }
    {
        if self.carry.on {
            let from = self.last_q_index();
            let ring = self.ring(queue);
            self.carry = self
                .carry
                .next(setup, from, &ring, window_counts, scan_counts);
        }
        self
    }

    // The window with the scan counts that a find by extension leaves.
    pub fn extended(mut self) -> Self
        ensures { result ≡ (extended_of self).window }
    {
        self.live = true;
        self.carry = search::Carry::none();
        self
    }

    // The window with the scan counts that a backward scan leaves: `found` is one past the index that it found, 0 for none.
    pub fn answered(mut self, found: usize, carry: search::Carry) -> Self
        ensures { result ≡ (answered_by self found carry).window }
    {
        self.live = found != 0;
        self.carry = carry;
        self
    }

    // Clears the scan counts that can be above 0; `fill` would clear all of them at each search.
    pub fn clear(self, queue: &[u32], scan_counts: &mut [u16])
        requires queued { Queued queue.now self.head self.len (length scan_counts.old) }
        requires clearing { Clearing self (window queue.now self.head self.len) scan_counts.old }
        ensures { scan_counts.new ≡ replicate (length scan_counts.old) 0 }
    {
        if self.live {
            self.ring(queue)
                .clear_from(self.last_q_index(), scan_counts);
        }
    }

    // last_q after a search: `found` is one past the index found, 0 for none.
    pub fn found(mut self, found: usize) -> Self
        requires { found ≤ 65535 }
        ensures { result ≡ last_q_by self (find_of found) }
    {
        if found == 0 {
            return self;
        }
        self.last_q = (found - 1) as i64;
        self
    }
}
