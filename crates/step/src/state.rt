// The state of a run, and what one letter makes of it.

ghost use Rattle.std.specs.Prelude.{◌≡◌, true, List, ◌/◌, ◌^◌, ◌<◌, ◌≤◌, length, pos, ◌-ℤ◌, Float};
ghost use Rattle.std.specs.Int.Signed.{le_z};
ghost use Rattle.letters.specs.Terms.Rolling.{entry_of};
ghost use Rattle.intervals.specs.declared.Interval.{Interval};
ghost use Rattle.scans.specs.Terms.Numbers.{setup_of};
ghost use Rattle.scans.specs.Terms.Run.{as_setup};
ghost use Rattle.scans.specs.Terms.Window.{window, Windowed};
ghost use Rattle.step.specs.Terms.KnownCounts.{KnownCounts, Passing, sought, extended_of, answered_by};
ghost use Rattle.step.specs.Terms.Entering.{held, newest_of, Next, Enters, unread};
ghost use Rattle.step.specs.Terms.Searching.{tried_by, Extended, is_searched, Looks};
ghost use Rattle.step.specs.Terms.Finding.{saved_in, Saving, TakesFind, PassedOn};

use crate::hand::Open;
use crate::window::{Window, is_at};
use intervals::Interval;
use letters::kmer_of;
use scans::Setup;

// What moves on letter by letter: the next letter i, the k-mer of the letters read, the window, and the interval in hand.
// At letter i itself, once that has entered the window, the k-mer is that of letter i.
// That i is below 2^31 each step asks: it is so of a sequence's letters, which are lent.
#[derive(Clone, Copy)]
pub struct State {
    pub kmer: letters::Kmer,
    pub i: usize,
    pub window: Window,
    pub hand: Open,
}

// What a letter leads to: nothing more, a find by extension, or the backward scan.
#[derive(Clone, Copy)]
pub enum Look {
    Pass,
    Extension,
    Scan,
}

// Whether i - start >= len.
fn is_past(start: i64, i: usize, len: usize) -> bool
    requires { (i < 2147483648) × (len < 65536) }
    ensures { result ≡ le_z (pos len) (pos i -ℤ start) }
{
    start <= (i as i64) - (len as i64)
}

impl State {
    // No letter is read.
    pub fn new() -> Self
        ensures { result ≡ unread }
    {
        State {
            kmer: letters::Kmer::new(),
            i: 0,
            window: Window {
                sum: 0.0,
                last_q: -1,
                head: 0,
                len: 0,
                live: false,
                carry: search::Carry::none(),
            },
            hand: Open {
                start: -1,
                end: -1,
                count: 0,
            },
        }
    }

    // Letter i enters the window: with a full queue the oldest entry leaves, then the new entry joins.
    pub fn enter(
        mut self,
        setup: &Setup,
        codes: &[u8],
        queue: &mut [u32],
        window_counts: &mut [u16],
        scan_counts: &mut [u16],
    ) -> Self
        requires { Next setup.now.params codes.now (length setup.now.ln.now) self queue.old window_counts.old (length scan_counts.old) }
        ensures { (f : List Float) → KnownCounts (setup_of setup.now.params setup.now.ln.now f)
            (window queue.old self.window.head self.window.len) self.window scan_counts.old
            → Enters setup.now.params codes.now setup.now.ln.now f self result queue.old scan_counts.old
            queue.new window_counts.new scan_counts.new }
    {
        let i = self.i;
        self.kmer = self.kmer.next(codes[i], setup.params.kmer);
        let entry = self.kmer.entry(setup.params.kmer);
        let room = self
            .window
            .make_room(setup, queue, window_counts, scan_counts);
        self.window = room.join(setup, entry, queue, window_counts);
        self
    }

    // Whether letter i is searched from: its place is plain, and its count at least min_start_cnt.
    pub fn is_searched(self, setup: &Setup, window_counts: &[u16]) -> bool
        requires { (self.kmer.value < 16777216) × (entry_of setup.now.params.kmer self.kmer / 2 < length window_counts.now) }
        ensures { result ≡ is_searched setup.now.params.min_start_cnt window_counts.now (newest_of setup.now.params self) }
    {
        let entry = self.kmer.entry(setup.params.kmer);
        let Some(kmer) = kmer_of(entry) else {
            return false;
        };
        window_counts[kmer] >= setup.params.min_start_cnt
    }

    // Letter i is no find: a carried scan goes on to it.
    pub fn passed(
        mut self,
        setup: &Setup,
        queue: &[u32],
        window_counts: &[u16],
        scan_counts: &mut [u16],
    ) -> Self
        requires i_bound { self.i < 2147483648 }
        requires passing { Passing setup.now.params self.window queue.now window_counts.now (length setup.now.ln.now) (length setup.now.f.now) scan_counts.old }
        ensures { PassedOn setup.now.params setup.now.ln.now setup.now.f.now queue.now self result scan_counts.old
            scan_counts.new }
    {
        self.window = self.window.passed(setup, queue, window_counts, scan_counts);
        self.i += 1;
        self
    }

    // Letter i is settled: the window with the scan counts that the search left, and one past the index found, 0 for none, as `Scanned` has it.
    fn settled(mut self, setup: &Setup, window: Window, found: usize, list: &mut [Interval]) -> Self
        requires i_bound { (self.i < 2147483648) × (window.len < 65536) × (found ≤ window.len) × (setup.now.params.kmer ≤ 12) }
        requires saving { Saving self.hand list.old }
        ensures { TakesFind setup.now.params.kmer self (sought window found) result
            (saved_in self.hand.count list.old) (saved_in result.hand.count list.new)
            × (result.hand.count ≤ length list.new) }
    {
        self.hand = self
            .hand
            .found(setup.params.kmer, self.i, window.len, found, list);
        self.window = window.found(found);
        self.i += 1;
        self
    }

    // Letter i is a find by extension, at the oldest entry.
    pub fn extended(self, setup: &Setup, list: &mut [Interval]) -> Self
        requires i_bound { (self.i < 2147483648) × (self.window.len < 65536) × (1 ≤ self.window.len) × (setup.now.params.kmer ≤ 12) }
        requires saving { Saving self.hand list.old }
        ensures { TakesFind setup.now.params.kmer self (extended_of self.window) result
            (saved_in self.hand.count list.old) (saved_in result.hand.count list.new)
            × (result.hand.count ≤ length list.new) }
    {
        self.settled(setup, self.window.extended(), 1, list)
    }

    // The backward scan from letter i is answered.
    pub fn answered(self, setup: &Setup, r: search::Scanned, list: &mut [Interval]) -> Self
        requires i_bound { (self.i < 2147483648) × (self.window.len < 65536) × (r.found ≤ self.window.len) × (setup.now.params.kmer ≤ 12) }
        requires saving { Saving self.hand list.old }
        ensures { TakesFind setup.now.params.kmer self (answered_by self.window r.found r.carry) result
            (saved_in self.hand.count list.old) (saved_in result.hand.count list.new)
            × (result.hand.count ≤ length list.new) }
    {
        let found = r.found;
        self.settled(setup, self.window.answered(found, r.carry), found, list)
    }

    // Whether extend is tried at letter i: i = end, window score > 0, and last_q = 0 or i - start >= len.
    fn extend_tried(self, setup: &Setup) -> bool
        requires { (self.i < 2147483648) × (self.window.len < length setup.now.f.now) × (self.window.len < 65536) }
        ensures { result ≡ tried_by setup.now.params setup.now.f.now self }
    {
        let len = self.window.len;
        let l = len as u32;
        let score = self.window.sum - setup.f[len] - (l as f64) * setup.params.score_threshold;
        let due = is_at(self.window.last_q, 0) | is_past(self.hand.start, self.i, len);
        is_at(self.hand.end, self.i) & ((score > 0.0) & due)
    }

    // Extends from letter i's k-mer if that is tried, and answers whether it succeeded.
    fn extends(self, setup: &Setup, kmer: u32, scan_counts: &mut [u16]) -> bool
        requires { (self.i < 2147483648) × (0 < self.window.len) × (self.window.len ≤ setup.now.params.window_size) × (setup.now.params.window_size ≤ 65535)
            × (setup.now.params.window_size < length setup.now.ln.now) × (setup.now.params.window_size < length setup.now.f.now) × (kmer < length scan_counts.old) }
        ensures { Extended setup.now.params setup.now.ln.now setup.now.f.now self kmer scan_counts.old result
            scan_counts.new }
    {
        if self.extend_tried(setup) {
            return scans::extend(setup, self.window.len, kmer, scan_counts);
        }
        false
    }

    // What letter i, which is searched from, leads to. An extension raises its scan count.
    pub fn look(
        self,
        setup: &Setup,
        queue: &[u32],
        window_counts: &[u16],
        scan_counts: &mut [u16],
    ) -> Look
        requires i_bound { (self.i < 2147483648) × (0 < self.window.len) × (self.kmer.value < 16777216)
            × (entry_of setup.now.params.kmer self.kmer / 2 < 4 ^ setup.now.params.kmer) × (length scan_counts.old ≡ 4 ^ setup.now.params.kmer)
            × (setup.now.params.window_size < length setup.now.f.now) }
        requires windowed { Windowed setup.now.params queue.now self.window.head self.window.len window_counts.now (length setup.now.ln.now) }
        requires self_value { is_searched setup.now.params.min_start_cnt window_counts.now (newest_of setup.now.params self) ≡ true }
        ensures { (saved : List Interval) → Looks (as_setup setup.now) self.i
            (held self queue.now scan_counts.old saved) (newest_of setup.now.params self)
            result scan_counts.new }
    {
        let kmer = self.kmer.entry(setup.params.kmer) >> 1;
        if self.extends(setup, kmer, scan_counts) {
            return Look::Extension;
        }
        let ring = self.window.ring(queue);
        if scans::if_backward(setup, &ring, window_counts) {
            return Look::Scan;
        }
        Look::Pass
    }
}
