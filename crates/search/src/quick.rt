// The backward scan without candidates, and the find that it tells with a carried scan.

ghost use Rattle.std.specs.Prelude.{◌≡◌, true, ◌-◌, ◌^◌, ◌<◌, length, replicate};
ghost use Rattle.scans.specs.Terms.Window.{window};
ghost use Rattle.scans.specs.Terms.Parts.{rest_of};
ghost use Rattle.scans.specs.Terms.Run.{as_setup, entries_of, TablesReach, WindowCounted};
ghost use Rattle.search.specs.Terms.Carry.{Carried, CarriesAhead, FindsQuickly, ScansQuick};

use crate::carried::nothing;
use crate::{Carry, Scanned};
use scans::{BackwardState, Ring, SLACK, Setup, backward_on};

// The quick scan over the whole window from cleared counts, the ring's newer part first.
fn scan_quickly(
    setup: &Setup,
    ring: &Ring,
    window_counts: &[u16],
    scan_counts: &mut [u16],
) -> BackwardState
    requires windowed { WindowCounted setup.now ring.now window_counts.now }
    requires len_nonzero { (0 < ring.now.len) × (setup.now.params.window_size < length setup.now.f.now)
        × (scan_counts.old ≡ replicate (4 ^ setup.now.params.kmer) 0) }
    ensures { ScansQuick (as_setup setup.now) (entries_of ring.now) (rest_of result scan_counts.new) }
{
    let mut st = BackwardState::new(ring.len);
    // A `while`: how many turns there are, the scan alone tells.
    while st.goes_on() {
        st = backward_on(setup, true, st, ring, window_counts, scan_counts);
    }
    st
}

// After a quick scan: the carried scan with the newest entry, on where that tells a find.
// It does if the quick scan met no near tie, its best place is `start`, where the carried scan started,
// no score of that scan is above the limit of a forward scan from there, and the newest entry is its best.
fn carry_ahead(
    setup: &Setup,
    carry: Carry,
    start: usize,
    st: BackwardState,
    ring: &Ring,
    scan_counts: &mut [u16],
) -> Carry
    requires tables_reach { TablesReach setup.now ring.now (length scan_counts.old) }
    requires len_nonzero { (0 < ring.now.len) × (carry.on ≡ true)
        × (length scan_counts.old ≡ 4 ^ setup.now.params.kmer) }
    requires scans_quick { ScansQuick (as_setup setup.now) (entries_of ring.now) (rest_of st scan_counts.old) }
    requires carried { Carried (as_setup setup.now)
        (window ring.now.queue.now ring.now.head (ring.now.len - 1)) start carry }
    ensures { CarriesAhead (as_setup setup.now) (entries_of ring.now) st result scan_counts.new }
{
    let found = st.found;
    if st.paused {
        return Carry::none();
    }
    if found == 0 {
        return Carry::none();
    }
    if found - 1 != start {
        return Carry::none();
    }
    if carry.best > st.best + SLACK {
        return Carry::none();
    }
    ring.uncount(st.low, start, scan_counts);
    carry.ahead(setup, ring.len - start, ring.newest(), scan_counts)
}

// The find that a carried scan tells without candidates, from cleared counts; nothing where it tells none, and the counts are cleared again.
pub fn find_quickly(
    setup: &Setup,
    carry: Carry,
    start: usize,
    ring: &Ring,
    window_counts: &[u16],
    scan_counts: &mut [u16],
) -> Scanned
    requires windowed { WindowCounted setup.now ring.now window_counts.now }
    requires len_nonzero { (0 < ring.now.len) × (setup.now.params.window_size < length setup.now.f.now)
        × (scan_counts.old ≡ replicate (4 ^ setup.now.params.kmer) 0) }
    requires carried { Carried (as_setup setup.now)
        (window ring.now.queue.now ring.now.head (ring.now.len - 1)) start carry }
    ensures { FindsQuickly (as_setup setup.now) (entries_of ring.now) result scan_counts.new }
{
    if carry.on {
        let st = scan_quickly(setup, ring, window_counts, scan_counts);
        let ahead = carry_ahead(setup, carry, start, st, ring, scan_counts);
        if ahead.on {
            return Scanned {
                found: st.found,
                carry: ahead,
            };
        }
        ring.clear_from(st.low, scan_counts);
        return nothing();
    }
    nothing()
}
