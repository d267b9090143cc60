// The certificate of a carried scan's start, kept letter by letter.

ghost use Rattle.std.specs.Prelude.{◌≡◌, List, ◌<◌, Some, IfSome, unwrap_or, Float};
ghost use Rattle.scans.specs.Terms.Numbers.{setup_of};
ghost use Rattle.scans.specs.Terms.Run.{entries_of, NewestJoins};
ghost use Rattle.search.specs.Terms.Certified.{certificate_step, Since, CertifiesOn};

use crate::Certificate;
use scans::{Ring, Setup, raised_value, window_value};

// 2^-10: what floats say that are this far apart holds of the exact scores too.
pub const DISTANCE: f64 = 0.0009765625;

// How many entries lie from the last one that equals the newest to the newest, both counted; none where none of the `near` before the newest does.
fn entries_since(ring: &Ring, near: usize) -> Option<usize>
    requires { near < ring.now.len }
    ensures since { Since ring.now.queue.now ring.now.head ring.now.len near (unwrap_or result 0) }
    ensures some { IfSome result (λ l. 0 < l) }
{
    let newest = ring.newest();
    for l in 1..near + 1 {
        if ring.queue[ring.index(ring.len - 1 - l)] == newest {
            return Some(l + 1);
        }
    }
    None
}

impl Certificate {
    // One letter: the newest entry has the ln entries v, by the scan counts, and w, by the window counts; h is the near entries' new sum.
    // None where the gap, or the bound u of the far scores, comes too near 0.
    fn stepped(self, t: f64, h: f64, v: f64, w: f64) -> Option<Self>
        requires { (0 < self.left) × (self.near < 65535) }
        ensures { result ≡ certificate_step t h v w self }
    {
        let u = self.u + (v - t);
        let gap = self.gap - (w - v);
        if (u < -DISTANCE) & (DISTANCE <= gap) {
            return Some(Self {
                left: self.left - 1,
                near: self.near + 1,
                h,
                u,
                gap,
            });
        }
        None
    }

    // The certificate with the newest entry, which the scan counts have not; none where nothing is certain any more.
    pub fn next(
        self,
        setup: &Setup,
        ring: &Ring,
        window_counts: &[u16],
        scan_counts: &[u16],
    ) -> Option<Self>
        requires { NewestJoins setup.now ring.now window_counts.now scan_counts.now }
        ensures { (f : List Float) → CertifiesOn (setup_of setup.now.params setup.now.ln.now f) (entries_of ring.now) (Some self) result scan_counts.now }
    {
        if !((0 < self.left) & (self.near < ring.len)) {
            return None;
        }
        let t = setup.params.score_threshold;
        let entry = ring.newest();
        let v = raised_value(scan_counts, setup.ln, entry);
        let w = window_value(window_counts, setup.ln, entry);
        if v <= 0.0 {
            return self.stepped(t, self.h, v, w);
        }
        match entries_since(ring, self.near) {
            None => self.stepped(t, self.h, v, w),
            Some(l) => {
                let h = self.h + v;
                let n = l as u32;
                if h + DISTANCE <= (n as f64) * t {
                    return self.stepped(t, h, v, w);
                }
                None
            }
        }
    }
}
