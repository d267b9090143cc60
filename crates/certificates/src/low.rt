// Low starts: what a search that found nothing tells of the next searches.

ghost use Rattle.std.specs.Prelude.{◌≡◌, ◌+◌, ◌-◌, ◌<◌, IfSome, length, take};
ghost use Rattle.scans.specs.Counts.{cleared};
ghost use Rattle.scans.specs.Terms.Run.{as_setup, entries_of, WindowCounted};
ghost use Rattle.scans.specs.Terms.Shape.{Shaped, Usual};
ghost use Rattle.search.specs.Terms.Fails.{TellsNone};
ghost use Rattle.certificates.specs.Terms.Low.{near_starts, low_starts_to, LowBounds, ReadsNear, ReadsLow};

use crate::LowStarts;
use crate::certify::{HIGHEST, larger};
use scans::{BackwardState, Ring, Setup};
use search::DISTANCE;

// The starts of this many newest places are judged anew at each search.
const NEAR: usize = 32;

// Low starts tell of this many letters at most,
const LASTS: usize = 64;

// are looked for where a search that found nothing read as many entries,
const WORTH: usize = 64;

// score below this each,
const DEEP: f64 = -2.0;

// and are read down to where the second sum's score is below this.
const FAR: f64 = -20.0;

impl LowStarts {
    // The starts of up to `reach` places score `score` or less; none is known where all of them are judged anew.
    fn to(reach: usize, score: f64) -> Option<Self>
        ensures { result ≡ low_starts_to reach score }
    {
        if NEAR < reach {
            return Some(Self { reach, score });
        }
        None
    }
}

// Low starts, if any are known, and the oldest entry that is counted.
#[derive(Clone, Copy)]
struct LowRead {
    low: Option<LowStarts>,
    at: usize,
}

// Reads from the newest entry back, from cleared counts, down to where the second sum's score is far below 0 or to the oldest.
fn read_low(setup: &Setup, ring: &Ring, window_counts: &[u16], scan_counts: &mut [u16]) -> LowRead
    requires windowed { WindowCounted setup.now ring.now window_counts.now }
    requires f_long { (setup.now.params.window_size < length setup.now.f.now) × (scan_counts.old ≡ cleared (as_setup setup.now)) }
    requires usual { Usual (as_setup setup.now) }
    ensures { ReadsLow (as_setup setup.now) (entries_of ring.now) result
        scan_counts.new }
{
    let t = setup.params.score_threshold;
    let queue = ring.queue;
    let len = ring.len;
    let mut st = BackwardState::new(len);
    let mut score = -HIGHEST;
    for l in 1..len + 1 {
        let i = ring.index(len - l);
        st = st.add_entry(t, queue[i], window_counts, setup.ln, scan_counts);
        if l <= NEAR {
            continue;
        }
        let fl = setup.f[l];
        let x = st.s - fl;
        if !(x < DEEP) {
            return LowRead {
                low: None,
                at: len - l,
            };
        }
        score = larger(score, x);
        let y = st.sw - fl;
        if y < FAR {
            return LowRead {
                low: LowStarts::to(l, larger(score, y)),
                at: len - l,
            };
        }
    }
    LowRead {
        low: LowStarts::to(len, score),
        at: 0,
    }
}

// The low starts of the window, from cleared counts, which are cleared again; `read` is how many entries the search that found nothing has read.
pub fn find_low(
    setup: &Setup,
    read: usize,
    ring: &Ring,
    window_counts: &[u16],
    scan_counts: &mut [u16],
) -> Option<LowStarts>
    requires windowed { WindowCounted setup.now ring.now window_counts.now }
    requires f_long { (setup.now.params.window_size < length setup.now.f.now) × (scan_counts.old ≡ cleared (as_setup setup.now)) }
    requires shaped { Shaped setup.now.params setup.now.ln.now setup.now.f.now }
    ensures low { IfSome result (LowBounds (as_setup setup.now) (entries_of ring.now)) }
    ensures clear { scan_counts.new ≡ scan_counts.old }
{
    if (read < WORTH) | !setup.params.usual {
        return None;
    }
    let a = read_low(setup, ring, window_counts, scan_counts);
    ring.clear_from(a.at, scan_counts);
    a.low
}

// Whether nothing is found, and the oldest entry that is counted, which is there in both cases.
#[derive(Clone, Copy)]
struct NearRead {
    told: bool,
    at: usize,
}

// Reads the newest entries, from cleared counts: those that came since the low starts were found, and as many as are judged anew.
fn read_near(
    setup: &Setup,
    low: LowStarts,
    age: usize,
    ring: &Ring,
    window_counts: &[u16],
    scan_counts: &mut [u16],
) -> NearRead
    requires windowed { WindowCounted setup.now ring.now window_counts.now }
    requires f_long { (setup.now.params.window_size < length setup.now.f.now) × (scan_counts.old ≡ cleared (as_setup setup.now)) × (age + near_starts < ring.now.len) }
    requires low_bounds { LowBounds (as_setup setup.now) (take (ring.now.len - age) (entries_of ring.now)) low }
    ensures { ReadsNear (as_setup setup.now) (entries_of ring.now) result
        scan_counts.new }
{
    let t = setup.params.score_threshold;
    let queue = ring.queue;
    let len = ring.len;
    let mut st = BackwardState::new(len);
    let mut bound = low.score;
    let last = age + NEAR;
    for l in 1..last + 1 {
        let i = ring.index(len - l);
        st = st.add_entry(t, queue[i], window_counts, setup.ln, scan_counts);
        let fl = setup.f[l];
        let y = st.sw - fl;
        if y < -DISTANCE {
            return NearRead {
                told: true,
                at: len - l,
            };
        }
        if !(st.s - fl < -DISTANCE) {
            return NearRead {
                told: false,
                at: len - l,
            };
        }
        if l != age {
            continue;
        }
        bound = low.score + y;
    }
    NearRead {
        told: bound < -DISTANCE,
        at: len - last,
    }
}

// Whether low starts that were found `age` entries ago tell that a search finds nothing, from cleared counts, which are cleared again.
#[inline(never)]
pub fn low_tells(
    setup: &Setup,
    low: LowStarts,
    age: usize,
    ring: &Ring,
    window_counts: &[u16],
    scan_counts: &mut [u16],
) -> bool
    requires windowed { WindowCounted setup.now ring.now window_counts.now }
    requires f_long { (setup.now.params.window_size < length setup.now.f.now) × (scan_counts.old ≡ cleared (as_setup setup.now)) }
    requires low_bounds { LowBounds (as_setup setup.now) (take (ring.now.len - age) (entries_of ring.now)) low }
    ensures { TellsNone (as_setup setup.now) (entries_of ring.now) result
        scan_counts.new }
{
    if LASTS < age {
        return false;
    }
    if ring.len <= age + NEAR {
        return false;
    }
    let a = read_near(setup, low, age, ring, window_counts, scan_counts);
    ring.clear_from(a.at, scan_counts);
    a.told
}
