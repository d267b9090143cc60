// The forward scan.

ghost use Rattle.std.specs.Prelude.{◌≡◌, true, false, ◌+◌, ◌^◌, ◌<◌, ◌≤◌, length, replicate};
ghost use Rattle.letters.specs.Terms.Entry.{decoded};
ghost use Rattle.scans.specs.Scans.{forward_start, forward_judged, dust_forward};
ghost use Rattle.scans.specs.Terms.Parts.{Coded, UpTo, forward_of, ForwardPart, Finds};
ghost use Rattle.scans.specs.Terms.Run.{as_setup, entries_of, TablesReach};

use crate::counts::count_entry;
use crate::{Ring, Setup};

// A forward scan stops after a score that lies more than this above its candidate's.
pub const SLACK: f64 = 1e-6;

// The sum of a forward scan, its best score, one past the index that had it (0: none), and whether the scan has stopped.
// A number, as the definition has it: both that ask for it compare it with a count of entries, where 0 is none. Whether it stopped is asked once, and no value hangs on it.
#[derive(Clone, Copy)]
pub struct ForwardState {
    pub s: f64,
    pub best: f64,
    pub found: usize,
    pub done: bool,
}

impl ForwardState {
    fn new() -> Self
        ensures { (forward_of result ≡ forward_start) × (result.done ≡ false) }
    {
        Self {
            s: 0.0,
            best: 0.0,
            found: 0,
            done: false,
        }
    }

    // The sum, and the score of entry i.
    fn judged(mut self, s: f64, sl: f64, i: usize) -> Self
        requires { i < 65535 }
        ensures { (forward_of result ≡ forward_judged (forward_of self) s sl i) × (result.done ≡ self.done) }
    {
        self.s = s;
        if sl >= self.best {
            self.best = sl;
            self.found = i + 1;
        }
        self
    }

    fn stopped(mut self) -> Self
        ensures { (forward_of result ≡ forward_of self) × (result.done ≡ true) }
    {
        self.done = true;
        self
    }
}

// A forward scan that began at entry `start` goes on over a straight part of the ring, whose first entry is `from`.
// The part is a slice, and does not tell where in the window it begins.
fn forward_part(
    setup: &Setup,
    state: ForwardState,
    limit: f64,
    start: usize,
    from: usize,
    part: &[u32],
    scan_counts: &mut [u16],
) -> ForwardState
    requires done_value { (state.done ≡ false) × (start ≤ from) × (from + length part.now ≤ 65535)
        × (from + length part.now < length setup.now.ln.now) × (from + length part.now < length setup.now.f.now) }
    requires coded { Coded part.now (length scan_counts.old) × UpTo from scan_counts.old }
    ensures { ForwardPart (as_setup setup.now) limit start from (decoded part.now) state result
        scan_counts.old scan_counts.new }
{
    let t = setup.params.score_threshold;
    let ln = setup.ln;
    let f = setup.f;
    let mut st = state;
    for (i, entry) in part.iter().enumerate() {
        let at = from + i;
        let v = count_entry(scan_counts, ln, *entry);
        let s = st.s + (v - t);
        let sl = s - f[at + 1 - start];
        st = st.judged(s, sl, at);
        if sl > limit {
            return st.stopped();
        }
    }
    st
}

// The forward scan from entry `start` on, from cleared counts; it stops after a score above its candidate's, `max_back`, plus 1e-6.
pub fn dust_forward(
    setup: &Setup,
    start: usize,
    max_back: f64,
    ring: &Ring,
    scan_counts: &mut [u16],
) -> ForwardState
    requires tables_reach { TablesReach setup.now ring.now (length scan_counts.old) }
    requires scan_counts_value { (scan_counts.old ≡ replicate (4 ^ setup.now.params.kmer) 0) × (start ≤ ring.now.len) }
    ensures { Finds (dust_forward (as_setup setup.now) (entries_of ring.now) start max_back) result
        scan_counts.new }
{
    let limit = max_back + SLACK;
    let parts = ring.parts(start, ring.len);
    let older = forward_part(
        setup,
        ForwardState::new(),
        limit,
        start,
        start,
        parts.older,
        scan_counts,
    );
    if older.done {
        return older;
    }
    forward_part(
        setup,
        older,
        limit,
        start,
        start + parts.older.len(),
        parts.newer,
        scan_counts,
    )
}
