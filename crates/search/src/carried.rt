// What a search answers, and the last find's forward scan, carried on letter by letter.

ghost use Rattle.std.specs.Prelude.{◌≡◌, false, List, [], ◌∷◌, ◌++◌, ◌/◌, ◌<◌, length, get_or};
ghost use Rattle.letters.specs.Place.{Place};
ghost use Rattle.letters.specs.Terms.Entry.{decode};
ghost use Rattle.scans.specs.Terms.Run.{as_setup, entries_of, NewestJoins};
ghost use Rattle.search.specs.Terms.Carry.{no_carry, begun_carry, CarriesOn, carried_ahead};

use crate::{Carry, Scanned};
use scans::{Ring, Setup, count_entry, window_value};

impl Carry {
    // No scan is carried.
    pub fn none() -> Self
        ensures { result ≡ no_carry }
    {
        Self {
            on: false,
            s: 0.0,
            best: 0.0,
            certificate: None,
        }
    }

    // A find's forward scan, with its sum and its best score, begins to be carried.
    pub fn begun(s: f64, best: f64) -> Self
        ensures { result ≡ begun_carry s best }
    {
        Self {
            on: true,
            s,
            best,
            certificate: None,
        }
    }

    // The newest entry joins the scan from `start` on and its certificate, and is counted.
    pub fn next(
        mut self,
        setup: &Setup,
        start: usize,
        ring: &Ring,
        window_counts: &[u16],
        scan_counts: &mut [u16],
    ) -> Self
        requires joining { NewestJoins setup.now ring.now window_counts.now scan_counts.old }
        requires start_lt_len { (start < ring.now.len) × (setup.now.params.window_size < length setup.now.f.now) }
        ensures { (q₀ : List Place) (e : Place) → entries_of ring.now ≡ q₀ ++ e ∷ []
            → CarriesOn (as_setup setup.now) q₀ e start self result scan_counts.old
            scan_counts.new }
    {
        // A `match`: the closure of `and_then` would have `next`'s contract written out again.
        self.certificate = match self.certificate {
            Some(certificate) => certificate.next(setup, ring, window_counts, scan_counts),
            None => None,
        };
        let v = count_entry(scan_counts, setup.ln, ring.newest());
        self.s += v - setup.params.score_threshold;
        let sl = self.s - setup.f[ring.len - start];
        if self.best <= sl {
            self.best = sl;
        }
        self
    }

    // The scan with the newest entry, its l-th, which is counted already; on if the entry is its best.
    pub fn ahead(self, setup: &Setup, l: usize, entry: u32, scan_counts: &[u16]) -> Self
        requires { (entry / 2 < length scan_counts.now)
            × (get_or scan_counts.now (entry / 2) 0 < length setup.now.ln.now) × (l < length setup.now.f.now) }
        ensures { result ≡ carried_ahead (as_setup setup.now) l scan_counts.now (decode entry)
            self }
    {
        let v = window_value(scan_counts, setup.ln, entry);
        let s = self.s + (v - setup.params.score_threshold);
        let sl = s - setup.f[l];
        Self {
            on: sl >= self.best,
            s,
            best: sl,
            certificate: None,
        }
    }
}

// No find, and no scan to carry on.
pub fn nothing() -> Scanned
    ensures { (result.found ≡ 0) × (result.carry.on ≡ false) }
{
    Scanned {
        found: 0,
        carry: Carry::none(),
    }
}
