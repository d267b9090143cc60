// What the options and the tables give a run: the drop limit, max_test, whether the tables are of the usual shape, and how far the back check reads.

ghost use Rattle.std.specs.Prelude.{◌≡◌, ◌-◌, ◌<◌, ◌≤◌, length};
ghost use Rattle.scans.specs.Setup.{drop_limit, max_test};
ghost use Rattle.scans.specs.Scans.{max_steps};
ghost use Rattle.scans.specs.Terms.Shape.{usual_to};

use crate::Params;

// How far below the best a backward scan's score may lie: xdrop, or the window, times the threshold.
#[tactic(auto, unfolding(crate::specs::Setup::drop_limit))]
pub fn drop_limit(xdrop: Option<u32>, window: u32, threshold: f64) -> f64
    ensures { result ≡ drop_limit xdrop window threshold }
{
    threshold * (xdrop.unwrap_or(window) as f64)
}

// How many entries the back check reads, from the filled tables; 0 where no sum of theirs is above 0: a number, as the definition has it.
#[tactic(auto, using(crate::proofs::MaxTest::of_testing))]
pub fn max_test(ln: &[f64], f: &[f64], window: u32, threshold: f64) -> i32
    requires { (window ≤ 65535) × (window < length ln.now) × (window < length f.now) }
    ensures { result ≡ max_test window threshold ln.now f.now }
{
    let mut s = 0.0f64;
    for i in 1..window + 1 {
        let at = i as usize;
        s += ln[at] - threshold;
        if s - f[at] > 0.0 {
            return floats::to_i32((i as f64) * ln[at] / threshold);
        }
    }
    0
}

// Whether the tables are of the usual shape: neither the ln entries 1..w nor the steps from f entry to f entry fall, the first step being f entry 1.
#[tactic(auto, using(crate::proofs::UsualTest::of_usual))]
pub fn is_usual(ln: &[f64], f: &[f64], w: usize) -> bool
    requires { (0 < w) × (w < length ln.now) × (w < length f.now) }
    ensures { result ≡ usual_to ln.now f.now (w - 1) }
{
    let mut ok = true;
    let mut step = f[1];
    for m in 1..w {
        let next = f[m + 1] - f[m];
        ok &= (ln[m] <= ln[m + 1]) & (step <= next);
        step = next;
    }
    ok
}

impl Params {
    // How many entries the back check reads at most.
    pub fn max_steps(self, len: usize) -> usize
        ensures { result ≡ max_steps self.max_test len }
    {
        if self.max_test < 0 {
            return len;
        }
        (self.max_test as usize).min(len)
    }
}
