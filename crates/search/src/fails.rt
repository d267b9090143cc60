// Whether no candidate's forward scan can be best at the newest entry, which a walk over the newest entries may tell before any candidate is tried.

ghost use Rattle.std.specs.Prelude.{◌^◌, ◌<◌, ◌≤◌, length, drop};
ghost use Rattle.scans.specs.Terms.Counted.{Counted};
ghost use Rattle.scans.specs.Terms.Shape.{Shaped, Usual};
ghost use Rattle.scans.specs.Terms.Run.{as_setup, entries_of, TablesReach};
ghost use Rattle.search.specs.Terms.Search.{SearchedAll};
ghost use Rattle.search.specs.Terms.Fails.{FallsShort, TellsNone};

use crate::candidates::Searched;
use crate::kept::DISTANCE;
use scans::{Ring, Setup, lower_entry, window_value};

// From the newest entry back, over entries that are newer than every candidate: what they add to a forward scan from `oldest`, less the threshold each.
// They add no more to one from a newer candidate, and f grows by no less over them than it does in one from `newest`: where the sum falls short of that,
// each of these scans was better before them. The counts are those of the entries from `oldest` on, and those of some of them afterwards.
fn newest_fall_short(
    setup: &Setup,
    oldest: usize,
    newest: usize,
    ring: &Ring,
    scan_counts: &mut [u16],
) -> bool
    requires tables_reach { TablesReach setup.now ring.now (length scan_counts.old) }
    requires len_bound { (ring.now.len ≤ setup.now.params.window_size) × (oldest ≤ newest)
        × (newest < ring.now.len) }
    requires counted { Counted (4 ^ setup.now.params.kmer) scan_counts.old (drop oldest (entries_of ring.now)) }
    requires usual { Usual (as_setup setup.now) }
    ensures { FallsShort (as_setup setup.now) (entries_of ring.now) oldest newest result scan_counts.new }
{
    let f = setup.f;
    let ln = setup.ln;
    let t = setup.params.score_threshold;
    let whole = f[ring.len - newest];
    let mut sum = 0.0;
    for i in (newest + 1..ring.len).rev() {
        let entry = ring.queue[ring.index(i)];
        let v = window_value(scan_counts, ln, entry);
        sum += v - t;
        if sum < whole - f[i - newest] - DISTANCE {
            return true;
        }
        lower_entry(scan_counts, entry);
    }
    false
}

// Whether a search has no candidate, or none that can be found; the counts, those of the entries that its scan read, are cleared.
pub fn none_ends(setup: &Setup, searched: Searched, ring: &Ring, scan_counts: &mut [u16]) -> bool
    requires tables_reach { TablesReach setup.now ring.now (length scan_counts.old) }
    requires len_nonzero { (0 < ring.now.len) × (ring.now.len ≤ setup.now.params.window_size) }
    requires shaped { Shaped setup.now.params setup.now.ln.now setup.now.f.now }
    requires searched_all { SearchedAll (as_setup setup.now) (entries_of ring.now) searched scan_counts.old }
    ensures { TellsNone (as_setup setup.now) (entries_of ring.now) result scan_counts.new }
{
    let low = searched.low;
    if searched.noted == 0 {
        ring.clear_from(low, scan_counts);
        return true;
    }
    if setup.params.usual {
        let oldest = searched.oldest;
        let newest = searched.newest;
        ring.uncount(low, oldest, scan_counts);
        let told = newest_fall_short(setup, oldest, newest, ring, scan_counts);
        ring.clear_from(oldest, scan_counts);
        return told;
    }
    ring.clear_from(low, scan_counts);
    false
}
