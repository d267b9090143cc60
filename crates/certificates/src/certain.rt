// The find that a carried scan tells without a backward scan, where a certificate says that such a scan would find its start.

ghost use Rattle.std.specs.Prelude.{◌≡◌, true, ◌&&◌, ◌+◌, ◌-◌, ◌^◌, ◌/◌, ◌<◌, IfSome, IfNone, length, get_or, drop};
ghost use Rattle.std.specs.Float.Ieee.{le};
ghost use Rattle.floats.specs.Arithmetic.{◌⊕◌};
ghost use Rattle.letters.specs.Terms.Entry.{decode};
ghost use Rattle.scans.specs.Scans.{dust_backward};
ghost use Rattle.scans.specs.Terms.Counted.{Counted, Touched};
ghost use Rattle.scans.specs.Terms.Run.{as_setup, entries_of, WindowCounted};
ghost use Rattle.scans.specs.Terms.Shape.{Shaped};
ghost use Rattle.scans.specs.Terms.Window.{window};
ghost use Rattle.scans.specs.Terms.Units.{distance};
ghost use Rattle.search.specs.Terms.Carry.{Answers, Carried, newest_score};

use crate::certify::certify;
use scans::{Ring, Setup, raised_value};
use search::{Carry, DISTANCE, Scanned};

// Whether an entry, the l-th of the scan, which is not yet counted, is far the best, and far above 0.
fn leads(setup: &Setup, carry: Carry, l: usize, entry: u32, scan_counts: &[u16]) -> bool
    requires { (entry / 2 < length scan_counts.now) × (get_or scan_counts.now (entry / 2) 0 + 1 < length setup.now.ln.now)
        × (l < length setup.now.f.now) }
    ensures { let sl = newest_score (as_setup setup.now) l scan_counts.now (decode entry) carry in
        result ≡ le (carry.best ⊕ distance) sl && le distance sl }
{
    let v = raised_value(scan_counts, setup.ln, entry);
    let sl = carry.s + (v - setup.params.score_threshold) - setup.f[l];
    (carry.best + DISTANCE <= sl) & (DISTANCE <= sl)
}

// The start of a carried scan, if it is certain that a backward scan from the newest entry finds it.
// The scan counts are those of the entries from `start` on without the newest.
pub fn find_certain(
    setup: &Setup,
    carry: Carry,
    start: usize,
    ring: &Ring,
    window_counts: &[u16],
    scan_counts: &mut [u16],
) -> Option<Scanned>
    requires windowed { WindowCounted setup.now ring.now window_counts.now }
    requires start_lt_len { (start < ring.now.len) × (carry.on ≡ true) × (setup.now.params.window_size < length setup.now.f.now)
        × Counted (4 ^ setup.now.params.kmer) scan_counts.old (drop start (window ring.now.queue.now ring.now.head (ring.now.len - 1))) }
    requires carried { Carried (as_setup setup.now) (window ring.now.queue.now ring.now.head (ring.now.len - 1)) start carry }
    requires shaped { Shaped setup.now.params setup.now.ln.now setup.now.f.now }
    ensures found { IfSome result (λ r. Answers (as_setup setup.now) (entries_of ring.now)
        (dust_backward (as_setup setup.now) (entries_of ring.now)) r scan_counts.new) }
    ensures untold { IfNone result (Touched scan_counts.new (drop start (entries_of ring.now))) }
{
    let entry = ring.newest();
    if !leads(setup, carry, ring.len - start, entry, scan_counts) {
        return None;
    }
    let next = carry.next(setup, start, ring, window_counts, scan_counts);
    if next.certificate.is_some() {
        return Some(Scanned {
            found: start + 1,
            carry: next,
        });
    }
    if !setup.params.usual {
        return None;
    }
    ring.clear_from(start, scan_counts);
    let made = certify(setup, start, ring, scan_counts);
    if made.is_some() {
        return Some(Scanned {
            found: start + 1,
            carry: Carry {
                on: true,
                s: next.s,
                best: next.best,
                certificate: made,
            },
        });
    }
    None
}
