// What is known of a backward scan that is due, before it is made.

ghost use Rattle.std.specs.Prelude.{◌≡◌, List, ℕ, ◌+◌, ◌-◌, ◌<◌, IfSome, IfNone, length};
ghost use Rattle.scans.specs.Counts.{cleared};
ghost use Rattle.scans.specs.Terms.Run.{as_setup, entries_of, WindowCounted};
ghost use Rattle.scans.specs.Terms.Shape.{Shaped};
ghost use Rattle.scans.specs.Terms.Window.{window};
ghost use Rattle.search.specs.Terms.Fails.{TellsNone};
ghost use Rattle.step.specs.Terms.KnownCounts.{Clearing};
ghost use Rattle.strand.specs.Terms.ReadingOn.{run_to};
ghost use Rattle.strand.specs.Terms.LowStarts.{KnownLow, AsksLow};
ghost use Rattle.strand.specs.Terms.Running.{Asking, ScanAnswer};

use certificates::LowStarts;
use scans::{Ring, Setup};
use search::{Answered, Scanned};
use step::{State, Window};

// Low starts, found when `made` letters were read.
#[derive(Clone, Copy)]
pub struct LowSince {
    pub starts: LowStarts,
    pub made: usize,
}

// Low starts after the search at letter i, whose answer is r: those of the window where it found nothing, from cleared counts.
pub fn renewed(
    setup: &Setup,
    low: Option<LowSince>,
    i: usize,
    r: Answered,
    ring: &Ring,
    window_counts: &[u16],
    scan_counts: &mut [u16],
) -> Option<LowSince>
    requires i_bound { (i < 2147483648) × (setup.now.params.window_size < length setup.now.f.now)
        × (r.scanned.found ≡ 0 → scan_counts.old ≡ cleared (as_setup setup.now)) }
    requires windowed { WindowCounted setup.now ring.now window_counts.now }
    requires shaped { Shaped setup.now.params setup.now.ln.now setup.now.f.now }
    ensures known { (codes : List ℕ) → entries_of ring.now ≡ (run_to (as_setup setup.now) codes (i + 1)).window
        → IfSome low (KnownLow (as_setup setup.now) codes i) → IfSome result (KnownLow (as_setup setup.now) codes (i + 1)) }
    ensures counts_are { scan_counts.new ≡ scan_counts.old }
{
    if r.scanned.found != 0 {
        return low;
    }
    let starts = certificates::find_low(setup, r.read, ring, window_counts, scan_counts)?;
    Some(LowSince {
        starts,
        made: i + 1,
    })
}

// Whether low starts tell that the search at letter i finds nothing, from cleared counts, which are cleared again.
fn tells(
    setup: &Setup,
    low: Option<LowSince>,
    i: usize,
    ring: &Ring,
    window_counts: &[u16],
    scan_counts: &mut [u16],
) -> bool
    requires i_bound { (i < 2147483648) × (setup.now.params.window_size < length setup.now.f.now)
        × (scan_counts.old ≡ cleared (as_setup setup.now)) }
    requires windowed { WindowCounted setup.now ring.now window_counts.now }
    requires asks_low { IfSome low (AsksLow (as_setup setup.now) (entries_of ring.now) ring.now.len i) }
    ensures { TellsNone (as_setup setup.now) (entries_of ring.now) result
        scan_counts.new }
{
    match low {
        Some(since) => {
            let age = i + 1 - since.made;
            certificates::low_tells(setup, since.starts, age, ring, window_counts, scan_counts)
        }
        None => false,
    }
}

// The answer of the backward scan that is due, where a carried scan tells it; else the scan counts can be cleared.
fn certain(
    setup: &Setup,
    w: Window,
    queue: &[u32],
    window_counts: &[u16],
    scan_counts: &mut [u16],
) -> Option<Scanned>
    requires asking { Asking setup.now.params setup.now.ln.now setup.now.f.now w queue.now window_counts.now scan_counts.old }
    requires shaped { Shaped setup.now.params setup.now.ln.now setup.now.f.now }
    ensures told { IfSome result (λ r. ScanAnswer (as_setup setup.now) w queue.now r scan_counts.new) }
    ensures untold { IfNone result (Clearing w (window queue.now w.head w.len) scan_counts.new) }
{
    if !w.carry.on {
        return None;
    }
    let ring = w.ring(queue);
    let from = w.last_q_index();
    certificates::find_certain(setup, w.carry, from, &ring, window_counts, scan_counts)
}

// The answer of the backward scan that is due at letter i, where a carried scan or low starts tell it; else the scan counts are cleared for the scan.
pub fn foretell(
    setup: &Setup,
    st: State,
    low: Option<LowSince>,
    queue: &[u32],
    window_counts: &[u16],
    scan_counts: &mut [u16],
) -> Option<Scanned>
    requires i_bound { st.i < 2147483648 }
    requires asking { Asking setup.now.params setup.now.ln.now setup.now.f.now st.window queue.now window_counts.now scan_counts.old }
    requires shaped { Shaped setup.now.params setup.now.ln.now setup.now.f.now }
    requires asks_low { IfSome low (AsksLow (as_setup setup.now) (window queue.now st.window.head st.window.len) st.window.len st.i) }
    ensures told { IfSome result (λ r. ScanAnswer (as_setup setup.now) st.window queue.now r scan_counts.new) }
    ensures untold { IfNone result (scan_counts.new ≡ cleared (as_setup setup.now)) }
{
    let w = st.window;
    if let Some(r) = certain(setup, w, queue, window_counts, scan_counts) {
        return Some(r);
    }
    w.clear(queue, scan_counts);
    let ring = w.ring(queue);
    let told = tells(setup, low, st.i, &ring, window_counts, scan_counts);
    if told {
        return Some(search::nothing());
    }
    None
}
