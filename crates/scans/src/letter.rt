// The extension and the back check of a letter.

ghost use Rattle.std.specs.Prelude.{◌≡◌, List, ◌<◌, ◌≤◌, length, Float};
ghost use Rattle.scans.specs.Terms.Numbers.{setup_of};
ghost use Rattle.scans.specs.Scans.{if_backward};
ghost use Rattle.scans.specs.Terms.Window.{Extends};
ghost use Rattle.scans.specs.Terms.Run.{as_setup, entries_of, WindowCounted};

use crate::counts::window_value;
use crate::{Ring, Setup};

// Whether the newest of `len` entries, a plain k-mer, extends the find without a scan; then its scan count is raised.
#[tactic(auto, unfolding(crate::specs::Scans::extends))]
pub fn extend(setup: &Setup, len: usize, kmer: u32, scan_counts: &mut [u16]) -> bool
    requires { (0 < len) × (len ≤ setup.now.params.window_size) × (setup.now.params.window_size ≤ 65535)
        × (setup.now.params.window_size < length setup.now.ln.now) × (setup.now.params.window_size < length setup.now.f.now) × (kmer < length scan_counts.old) }
    ensures { Extends (as_setup setup.now) scan_counts.old len kmer result scan_counts.new }
{
    let p = setup.params;
    let f = setup.f;
    let x = kmer as usize;
    let c = scan_counts[x];
    let n = (c as usize) + 1;
    if n > p.window_size {
        return false;
    }
    if setup.ln[n] - (f[len] - f[len - 1]) < p.score_threshold {
        return false;
    }
    scan_counts[x] = c + 1;
    true
}

// The back check: whether a backward scan from the newest entry is worth its work.
#[tactic(auto, using(crate::proofs::BackCheck::of_checking))]
pub fn if_backward(setup: &Setup, ring: &Ring, window_counts: &[u16]) -> bool
    requires { WindowCounted setup.now ring.now window_counts.now }
    ensures { (f : List Float) → result ≡ if_backward (setup_of setup.now.params setup.now.ln.now f) (entries_of ring.now) }
{
    let p = setup.params;
    let steps = p.max_steps(ring.len);
    let mut s = 0.0;
    for i in (ring.len - steps..ring.len).rev() {
        let v = window_value(window_counts, setup.ln, ring.queue[ring.index(i)]);
        s += v - p.score_threshold;
        if s < 0.0 {
            return false;
        }
    }
    true
}
