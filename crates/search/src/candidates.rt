// The candidates: noted by a backward scan, then tried by forward scans.

ghost use Rattle.std.specs.Prelude.{◌≡◌, List, ℕ, ◌^◌, ◌<◌, ◌≤◌, length, replicate};
ghost use Rattle.scans.specs.Scans.{try_from};
ghost use Rattle.scans.specs.Terms.Window.{Roomy};
ghost use Rattle.scans.specs.Terms.Run.{as_setup, entries_of, TablesReach, WindowCounted};
ghost use Rattle.search.specs.Terms.Carry.{Answers};
ghost use Rattle.search.specs.Terms.Search.{candidates_in, FreshSearch, noting_at, gone_on, finished_of, Searches, NextCandidate, ScansBackward, HoldsCandidates};

use crate::carried::nothing;
use crate::{Carry, Scanned};
use scans::{BackwardState, ForwardPosition, Ring, Setup, backward_on, dust_forward};

// What a search for candidates answers: how many it noted, the oldest entry that its scan read,
// and the places of the oldest and the newest candidate, which are read only where `noted` is above 0: one test for both.
#[derive(Clone, Copy)]
pub struct Searched {
    pub noted: usize,
    pub low: usize,
    pub oldest: usize,
    pub newest: usize,
}

// The search for candidates: the backward scan, how many candidates it has noted, the last of them,
// whether that one is still to be put to the others, and whether there may be more.
// Flags, as the last candidate is asked again after it was put to the others, and the counts again after the end.
#[derive(Clone, Copy)]
struct Search {
    scan: BackwardState,
    noted: usize,
    last: ForwardPosition,
    fresh: bool,
    on: bool,
}

impl Search {
    fn new(len: usize) -> Self
        ensures { FreshSearch len result }
    {
        Self {
            scan: BackwardState::new(len),
            noted: 0,
            last: ForwardPosition {
                pos: 0,
                max_score: 0.0,
            },
            fresh: false,
            on: true,
        }
    }

    // One candidate more, the place before `found` with the scan's best score.
    fn noting(mut self, found: usize) -> Self
        requires { (0 < found) × (found ≤ 65536) × (self.noted ≤ 65535) }
        ensures { result ≡ noting_at self found }
    {
        let last = ForwardPosition {
            pos: (found - 1) as u32,
            max_score: self.scan.best,
        };
        self.noted += 1;
        self.last = last;
        self.fresh = true;
        self
    }

    // The scan has gone on; a peak that it left is a candidate.
    fn gone_on(mut self, scan: BackwardState) -> Self
        requires { (scan.low < 65535) × (self.noted ≤ 65535) }
        ensures { result ≡ gone_on self scan }
    {
        self.scan = scan;
        self.fresh = false;
        if scan.paused {
            return self.noting(scan.low + 2);
        }
        self
    }

    // The scan is over: the best place joins the candidates if it is older than all noted, that is, older than the last.
    fn finished(mut self) -> Self
        requires { (self.scan.found ≤ 65535) × (self.noted ≤ 65535) }
        ensures { result ≡ finished_of self }
    {
        self.on = false;
        self.fresh = false;
        let found = self.scan.found;
        if found == 0 {
            return self;
        }
        if self.noted == 0 {
            return self.noting(found);
        }
        if (self.last.pos as usize) < found {
            return self;
        }
        self.noting(found)
    }

    // The search goes on to the next candidate, or to the end of the ring's part.
    fn next(
        self,
        setup: &Setup,
        ring: &Ring,
        window_counts: &[u16],
        scan_counts: &mut [u16],
    ) -> Self
        requires windowed { WindowCounted setup.now ring.now window_counts.now }
        requires f_long { (setup.now.params.window_size < length setup.now.f.now) × (length scan_counts.old ≡ 4 ^ setup.now.params.kmer) }
        requires searches { Searches (4 ^ setup.now.params.kmer) (entries_of ring.now) self scan_counts.old }
        ensures { NextCandidate (as_setup setup.now) (entries_of ring.now) self result
            scan_counts.old scan_counts.new }
    {
        let scan = self.scan;
        if scan.ended() {
            return self.finished();
        }
        let on = backward_on(setup, false, scan, ring, window_counts, scan_counts);
        self.gone_on(on)
    }
}

// The candidates to try, from cleared counts; the counts are then those of the entries from `low` on.
pub fn scan_backward(
    setup: &Setup,
    ring: &Ring,
    window_counts: &[u16],
    scan_counts: &mut [u16],
    candidates: &mut [ForwardPosition],
) -> Searched
    requires windowed { WindowCounted setup.now ring.now window_counts.now }
    requires roomy { Roomy setup.now.params (length setup.now.f.now) (length scan_counts.old) (length candidates.old) }
    requires len_nonzero { (0 < ring.now.len) × (scan_counts.old ≡ replicate (4 ^ setup.now.params.kmer) 0) }
    ensures { ScansBackward (as_setup setup.now) (entries_of ring.now) result scan_counts.new
        (candidates_in result.noted candidates.new) }
{
    let mut seek = Search::new(ring.len);
    // A `while`: how many turns there are, the scan alone tells.
    while seek.on {
        seek = seek.next(setup, ring, window_counts, scan_counts);
        if seek.fresh {
            candidates[seek.noted - 1] = seek.last;
        }
    }
    Searched {
        noted: seek.noted,
        low: seek.scan.low,
        oldest: seek.last.pos as usize,
        newest: candidates[0].pos as usize,
    }
}

// The candidates are tried from cleared counts, the last noted first, until the forward scan of one is best at the newest entry.
pub fn try_candidates(
    setup: &Setup,
    ring: &Ring,
    candidates: &[ForwardPosition],
    scan_counts: &mut [u16],
) -> Scanned
    requires tables_reach { TablesReach setup.now ring.now (length scan_counts.old) }
    requires scan_counts_value { scan_counts.old ≡ replicate (4 ^ setup.now.params.kmer) 0 }
    requires holds_candidates { HoldsCandidates ring.now.len candidates.now }
    ensures { let S = as_setup setup.now in let q = entries_of ring.now in
        (before : List ℕ) → Answers S q (try_from S q (candidates_in (length candidates.now) candidates.now) (length candidates.now) 0 before) result
        scan_counts.new }
{
    let mut furthest = 0;
    for i in (0..candidates.len()).rev() {
        let c = candidates[i];
        let place = c.pos as usize;
        if place + 1 < furthest {
            continue;
        }
        let st = dust_forward(setup, place, c.max_score, ring, scan_counts);
        if st.found == ring.len {
            return Scanned {
                found: place + 1,
                carry: Carry::begun(st.s, st.best),
            };
        }
        ring.clear_from(place, scan_counts);
        if setup.params.approx {
            return nothing();
        }
        furthest = furthest.max(st.found);
    }
    nothing()
}
