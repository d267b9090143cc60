// The backward scan, which rests where it pauses, where it stops, and at the ring's ends.

ghost use Rattle.std.specs.Prelude.{◌≡◌, ◌||◌, ◌+◌, ◌-◌, ◌/◌, ◌%◌, ◌^◌, ◌<◌, ◌≤◌, length, get_or, eqb};
ghost use Rattle.letters.specs.Terms.Entry.{decode, decoded};
ghost use Rattle.scans.specs.Scans.{is_noted};
ghost use Rattle.scans.specs.Terms.Parts.{backward_of, AddsEntry, with_best_at, with_previous, rests_at, Fresh, pauses, too_low, goes_on_of, rest_of, rest_over, PartBefore, NoneBest, Backs, GoesOver, GoesOn};
ghost use Rattle.scans.specs.Terms.Run.{as_setup, entries_of, WindowCounted};

use crate::{Ring, Setup};
use letters::kmer_of;

// A score less than this below the best is a near tie.
const TINY: f64 = 1e-9;

// The two sums of a backward scan, the score before and the best score, one past the index that had the best (0: none),
// and where it rests: the oldest entry read, whether it paused there, and whether it has stopped.
// One past an index, no Option: the state is made anew at each entry, and with an Option the satellites of SPEED.md take 3.5 % longer.
// That it paused and that it has stopped are two answers of yes or no, on which no value hangs: a scan may do both at one entry.
#[derive(Clone, Copy)]
pub struct BackwardState {
    pub s: f64,
    pub sw: f64,
    pub previous: f64,
    pub best: f64,
    pub found: usize,
    pub low: usize,
    pub paused: bool,
    pub done: bool,
}

impl BackwardState {
    // A scan that has read no entry; `low` is one past the first to read.
    pub fn new(low: usize) -> Self
        ensures { Fresh low result }
    {
        Self {
            s: 0.0,
            sw: 0.0,
            previous: -1.0,
            best: 0.0,
            found: 0,
            low,
            paused: false,
            done: false,
        }
    }

    // Counts an entry, and adds to both sums. Not by `raise_entry`: the k-mer is asked for its window count too.
    #[tactic(auto, using(crate::proofs::Values::adding))]
    pub fn add_entry(
        mut self,
        threshold: f64,
        entry: u32,
        window_counts: &[u16],
        ln: &[f64],
        scan_counts: &mut [u16],
    ) -> Self
        requires in_bounds { (entry / 2 < length window_counts.now) × (entry / 2 < length scan_counts.old)
            × (get_or window_counts.now (entry / 2) 0 ≤ 65535) × (get_or window_counts.now (entry / 2) 0 < length ln.now) }
        requires bound { entry % 2 ≡ 0 → get_or scan_counts.old (entry / 2) 0 < get_or window_counts.now (entry / 2) 0 }
        ensures { AddsEntry threshold window_counts.now ln.now (decode entry) self result
            scan_counts.old scan_counts.new }
    {
        let Some(kmer) = kmer_of(entry) else {
            self.s += 0.0 - threshold;
            self.sw += 0.0 - threshold;
            return self;
        };
        let c = scan_counts[kmer] + 1;
        scan_counts[kmer] = c;
        let left = window_counts[kmer] - c + 1;
        self.s += ln[c as usize] - threshold;
        self.sw += ln[left as usize] - threshold;
        self
    }

    // The score of entry i is the new best.
    fn raised(mut self, sl: f64, i: usize) -> Self
        requires { i < 65535 }
        ensures { result ≡ with_best_at self sl i }
    {
        self.previous = sl;
        self.best = sl;
        self.found = i + 1;
        self
    }

    // The score is below the best.
    fn fallen(mut self, sl: f64) -> Self
        ensures { result ≡ with_previous self sl }
    {
        self.previous = sl;
        self
    }

    // Whether the score falls from a peak above 0 and within 1e-9 of the best.
    fn leaves_peak(self, sl: f64) -> bool
        ensures { result ≡ is_noted (backward_of self) sl }
    {
        if floats::near_zero(self.previous - self.best) {
            if sl < self.previous {
                return self.previous > 0.0;
            }
        }
        false
    }

    // Whether a score below the best makes the scan pause: the fall from a peak, or, of a quick scan, a near tie.
    fn pauses(self, quick: bool, sl: f64) -> bool
        ensures { result ≡ pauses quick (backward_of self) sl }
    {
        if quick {
            return self.best - sl < TINY;
        }
        self.leaves_peak(sl)
    }

    // Whether the score is too far below the best.
    fn too_low(self, sl: f64, drop_limit: f64) -> bool
        ensures { result ≡ too_low drop_limit (backward_of self) sl }
    {
        if self.best - sl > drop_limit {
            return self.found != 0;
        }
        false
    }

    // The scan rests at entry i, where it paused or not, and has stopped or not.
    fn resting(mut self, i: usize, paused: bool, done: bool) -> Self
        ensures { result ≡ rests_at self i paused done }
    {
        self.low = i;
        self.paused = paused;
        self.done = done;
        self
    }

    // Whether no entry is left to read.
    pub fn ended(self) -> bool
        ensures { result ≡ (self.done || eqb self.low 0) }
    {
        if self.done {
            return true;
        }
        self.low == 0
    }

    // Whether a scan that rests where it pauses has entries left to read.
    pub fn goes_on(self) -> bool
        ensures { result ≡ goes_on_of self }
    {
        if self.paused {
            return false;
        }
        if self.done {
            return false;
        }
        0 < self.low
    }
}

// A backward scan goes on over a straight part of the ring, the newest entry first, until it pauses or stops.
// `quick` is a parameter here and below: as a const parameter satellites take 8 % longer, Plasmodium 5.
// The part's entries are those before `state.low`.
#[inline(never)]
fn backward_part(
    setup: &Setup,
    quick: bool,
    state: BackwardState,
    part: &[u32],
    len: usize,
    window_counts: &[u16],
    scan_counts: &mut [u16],
) -> BackwardState
    requires { PartBefore state.low len (length setup.now.ln.now) (length setup.now.f.now) part.now window_counts.now scan_counts.old }
    ensures { rest_of result scan_counts.new
        ≡ rest_over (as_setup setup.now) window_counts.now quick
        len (decoded part.now) (state.low - length part.now) (length part.now)
        (backward_of state) scan_counts.old }
{
    let p = setup.params;
    let ln = setup.ln;
    let f = setup.f;
    let from = state.low - part.len();
    let mut st = state;
    for i in (0..part.len()).rev() {
        let at = from + i;
        let fl = f[len - at];
        st = st.add_entry(p.score_threshold, part[i], window_counts, ln, scan_counts);
        if st.sw - fl < 0.0 {
            return st.resting(at, false, true);
        }
        let sl = st.s - fl;
        if sl >= st.best {
            st = st.raised(sl, at);
            continue;
        }
        if st.pauses(quick, sl) {
            let low = st.too_low(sl, p.drop_limit);
            return st.fallen(sl).resting(at, true, low);
        }
        if st.too_low(sl, p.drop_limit) {
            return st.fallen(sl).resting(at, false, true);
        }
        st = st.fallen(sl);
    }
    st.resting(from, false, false)
}

// The same while no place is best: nothing is noted, nothing is too low, and the scan rests at its first best place, where the score is 0 or more.
// A loop of its own: with one loop for both, human X takes 4.9 % longer, its centromere 8.8.
#[inline(never)]
fn backward_low(
    setup: &Setup,
    quick: bool,
    state: BackwardState,
    part: &[u32],
    len: usize,
    window_counts: &[u16],
    scan_counts: &mut [u16],
) -> BackwardState
    requires part_before { PartBefore state.low len (length setup.now.ln.now) (length setup.now.f.now) part.now window_counts.now scan_counts.old }
    requires none_best { NoneBest (backward_of state) }
    ensures { GoesOver (as_setup setup.now) window_counts.now quick len part.now
        (rest_of state scan_counts.old) (rest_of result scan_counts.new) }
{
    let p = setup.params;
    let ln = setup.ln;
    let f = setup.f;
    let from = state.low - part.len();
    let mut st = state;
    for i in (0..part.len()).rev() {
        let at = from + i;
        let fl = f[len - at];
        st = st.add_entry(p.score_threshold, part[i], window_counts, ln, scan_counts);
        if st.sw - fl < 0.0 {
            return st.resting(at, false, true);
        }
        let sl = st.s - fl;
        if sl >= 0.0 {
            return st.raised(sl, at).resting(at, false, false);
        }
        if quick & (st.best - sl < TINY) {
            return st.fallen(sl).resting(at, true, false);
        }
        st = st.fallen(sl);
    }
    st.resting(from, false, false)
}

// A backward scan goes on over what is left of the ring's newer part, or else of its older part, before its first best place no further than to that place.
pub fn backward_on(
    setup: &Setup,
    quick: bool,
    state: BackwardState,
    ring: &Ring,
    window_counts: &[u16],
    scan_counts: &mut [u16],
) -> BackwardState
    requires windowed { WindowCounted setup.now ring.now window_counts.now }
    requires low_nonzero { (0 < state.low) × (setup.now.params.window_size < length setup.now.f.now) }
    requires backs { Backs (4 ^ setup.now.params.kmer) (entries_of ring.now) (rest_of state scan_counts.old) }
    ensures { GoesOn (as_setup setup.now) window_counts.now quick (entries_of ring.now)
        (rest_of state scan_counts.old) (rest_of result scan_counts.new) }
{
    let part = ring.before(state.low);
    if state.found == 0 {
        backward_low(
            setup,
            quick,
            state,
            part,
            ring.len,
            window_counts,
            scan_counts,
        )
    } else {
        backward_part(
            setup,
            quick,
            state,
            part,
            ring.len,
            window_counts,
            scan_counts,
        )
    }
}
