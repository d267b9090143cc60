// The search at a letter.

ghost use Rattle.std.specs.Prelude.{◌≡◌, ◌-◌, ◌^◌, ◌<◌, ◌≤◌, length, replicate};
ghost use Rattle.scans.specs.Scans.{dust_backward};
ghost use Rattle.scans.specs.Terms.Shape.{Shaped};
ghost use Rattle.scans.specs.Terms.Window.{window, Roomy};
ghost use Rattle.scans.specs.Terms.Run.{as_setup, entries_of, WindowCounted};
ghost use Rattle.search.specs.Terms.Carry.{Carried, Answers};

use crate::candidates::{scan_backward, try_candidates};
use crate::carried::nothing;
use crate::fails::none_ends;
use crate::quick::find_quickly;
use crate::{Answered, Carry, Scanned};
use scans::{ForwardPosition, Ring, Setup};

// How many entries a search has read, down to entry `low`, if it noted no candidate.
fn read_in_vain(noted: usize, low: usize, len: usize) -> usize
    ensures { result ≤ len }
{
    if noted != 0 {
        return 0;
    }
    len.saturating_sub(low)
}

// One past the index in the window from which a forward scan ends best at the newest entry, 0 where there is none, from cleared counts.
// A carried scan is that of entries `start` to the newest but one.
// Out of line, so that the loops of the scans and the loop of the letters each have the registers.
#[inline(never)]
pub fn dust_backward(
    setup: &Setup,
    carry: Carry,
    start: usize,
    ring: &Ring,
    window_counts: &[u16],
    scan_counts: &mut [u16],
    candidates: &mut [ForwardPosition],
) -> Answered
    requires windowed { WindowCounted setup.now ring.now window_counts.now }
    requires roomy { Roomy setup.now.params (length setup.now.f.now) (length scan_counts.old) (length candidates.old) }
    requires len_nonzero { (0 < ring.now.len) × (scan_counts.old ≡ replicate (4 ^ setup.now.params.kmer) 0) }
    requires carried { Carried (as_setup setup.now)
        (window ring.now.queue.now ring.now.head (ring.now.len - 1)) start carry }
    requires shaped { Shaped setup.now.params setup.now.ln.now setup.now.f.now }
    ensures { let S = as_setup setup.now in let q = entries_of ring.now in
        Answers S q (dust_backward S q) result.scanned scan_counts.new }
{
    let quick = find_quickly(setup, carry, start, ring, window_counts, scan_counts);
    if quick.found != 0 {
        return Answered {
            scanned: quick,
            read: 0,
        };
    }
    let searched = scan_backward(setup, ring, window_counts, scan_counts, candidates);
    let noted = searched.noted;
    let low = searched.low;
    if none_ends(setup, searched, ring, scan_counts) {
        return Answered {
            scanned: nothing(),
            read: read_in_vain(noted, low, ring.len),
        };
    }
    let to_try = &candidates[..noted];
    let tried = try_candidates(setup, ring, to_try, scan_counts);
    Answered {
        scanned: tried,
        read: 0,
    }
}
