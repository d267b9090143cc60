// The score that places of a window are expected to have by chance.

ghost use Rattle.std.specs.Prelude.{◌≡◌, ◌-◌, ◌≤◌, length};
ghost use Rattle.floats.specs.Binary64.{number};
ghost use Rattle.tables.specs.Ln.{ln_of};
ghost use Rattle.tables.specs.F.{terms, stirlings_approx, f_large, f_class, f_of};
ghost use Rattle.tables.specs.Tables.{ln_table};

use crate::exponential::exp_neg;
use crate::{Density, logarithm};

/// ln n for n = 0 .. w, filled.
#[derive(Clone, Copy)]
pub struct LnTable<'a> {
    /// w + 1 entries.
    pub entries: &'a [f64],
    ghost filled: { entries.now ≡ ln_table (length entries.now - 1) },
}

impl<'a> LnTable<'a> {
    // ln n, read up to w and calculated above it.
    #[tactic(auto, using(crate::proofs::Tables::ln_entry))]
    fn at(self, n: u32) -> f64
        ensures { result ≡ ln_of (number n) }
    {
        match self.entries.get(n as usize) {
            Some(entry) => *entry,
            None => logarithm::ln(n as f64),
        }
    }
}

// The terms of n = 2 .. 10000, up to the first that is too small to count.
#[tactic(auto, using(crate::proofs::Terms::of_terms), unfolding(crate::specs::F::terms))]
fn terms(lambda: f64, ln: LnTable) -> f64
    ensures { result ≡ terms lambda }
{
    let mut x = 0.0f64;
    let mut sn = 0.0f64;
    let mut y = lambda;
    for n in 2..=10000u32 {
        sn += ln.at(n);
        y *= lambda / (n as f64);
        let z = y * sn;
        if z <= x * 2.220446049250313e-16 {
            return x;
        }
        x += z;
    }
    x
}

#[tactic(auto, unfolding(crate::specs::F::stirlings_approx))]
fn stirlings_approx(lambda: f64) -> f64
    ensures { result ≡ stirlings_approx lambda }
{
    lambda * (logarithm::ln(lambda) - 1.0)
        + 0.5 * logarithm::ln(2.0 * 3.141592653589793 * 2.718281828459045 * lambda)
}

#[tactic(auto, unfolding(crate::specs::F::f_large))]
fn f_large(lambda: f64) -> f64
    ensures { result ≡ f_large lambda }
{
    stirlings_approx(lambda)
        - 1.0 / (12.0 * lambda) * (1.0 + 0.5 / lambda + 19.0 / (30.0 * lambda * lambda))
}

// The expected score of one k-mer that is expected lambda times.
#[tactic(auto, unfolding(crate::specs::F::f_class))]
fn f_class(lambda: f64, ln: LnTable) -> f64
    ensures { result ≡ f_class lambda }
{
    if lambda < 30.0 {
        terms(lambda, ln) * exp_neg(lambda)
    } else {
        f_large(lambda)
    }
}

/// f at length l, in places: the score that so many places have by chance, over the classes of k-mers. 0.0 for l = 0.
#[tactic(auto, using(crate::proofs::Terms::of_classes))]
pub fn calculate_f_internal(k: usize, l: u32, d: &Density, ln: LnTable) -> f64
    requires k_bound { k ≤ 12 }
    requires classes_bound { d.now.classes ≤ 13 }
    ensures { result ≡ f_of k d.now l }
{
    if l == 0 {
        return 0.0;
    }
    let share = (l as f64) / std::num::nearest_u64_to_f64(letters::n_kmers(k) as u64);
    let mut accum = 0.0f64;
    for i in 0..d.classes {
        accum += f_class(share * d.ratio[i], ln) * d.count[i];
    }
    accum
}
