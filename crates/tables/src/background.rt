// The classes of k-mers over which f sums.

ghost use Rattle.std.specs.Prelude.{◌≡◌, ◌+◌, ◌≤◌};
ghost use Rattle.tables.specs.Density.{thirteen, ratio_at, count_at, uniform, by_gc, density};

use crate::exponential::powi;
use crate::{Density, GcOption};

// No class, which the functions below set.
pub fn no_classes() -> Density
    ensures { result.classes ≡ 0 }
{
    Density {
        ratio: [0.0f64; 13],
        count: [0.0f64; 13],
        classes: 0,
    }
}

// Sets the class of `calculate_f`: all k-mers, each expected 1 in 4^k times.
#[tactic(auto, using(crate::proofs::Densities::made))]
fn calculate_f(k: usize, d: &mut Density)
    requires { k ≤ 12 }
    ensures { d.new ≡ uniform k }
{
    let mut ratio = [0.0f64; 13];
    let mut count = [0.0f64; 13];
    ratio[0] = 1.0;
    count[0] = std::num::nearest_u64_to_f64(letters::n_kmers(k) as u64);
    d.ratio = ratio;
    d.count = count;
    d.classes = 1;
}

// For i letters C or G, how much more often than 1 in 4^k such a k-mer is expected.
#[tactic(auto, using(crate::proofs::Densities::in_thirteen))]
fn ratios(k: usize, gc: f64) -> [f64; 13]
    requires { k ≤ 12 }
    ensures { result ≡ thirteen (ratio_at k gc) (k + 1) }
{
    let mut ratio = [0.0f64; 13];
    for i in 0..=k {
        ratio[i] = powi(gc / 0.5, i) * powi((1.0 - gc) / 0.5, k - i);
    }
    ratio
}

// For i letters C or G, how many such k-mers there are.
#[tactic(auto, using(crate::proofs::Densities::in_thirteen))]
fn counts(k: usize) -> [f64; 13]
    requires { k ≤ 12 }
    ensures { result ≡ thirteen (count_at k) (k + 1) }
{
    let mut count = [0.0f64; 13];
    let mut binomial: u64 = 1;
    for i in 0..=k {
        count[i] = std::num::nearest_u64_to_f64(binomial << k);
        binomial = binomial * ((k - i) as u64) / ((i + 1) as u64);
    }
    count
}

// Sets the classes of `calculate_f_gc`: one for each number of letters C or G.
#[tactic(auto, using(crate::proofs::Densities::made))]
fn calculate_f_gc(k: usize, gc: f64, d: &mut Density)
    requires { k ≤ 12 }
    ensures { d.new ≡ by_gc k gc }
{
    d.ratio = ratios(k, gc);
    d.count = counts(k);
    d.classes = k + 1;
}

// Sets the classes of k-mers for a GC choice in place: with no copy of them the C archive needs no `memcpy` from outside.
#[tactic(auto, unfolding(crate::specs::Density::density))]
pub fn set_classes(k: usize, gc: GcOption, codes: &[u8], d: &mut Density)
    requires { k ≤ 12 }
    ensures { d.new ≡ density k gc codes.now }
{
    match gc {
        GcOption::Uniform => calculate_f(k, d),
        GcOption::Fixed(x) => calculate_f_gc(k, x, d),
        GcOption::Auto => calculate_f_gc(k, letters::compute_gc_content(codes), d),
    }
}

/// The classes of k-mers for a GC choice; the codes count for GC auto alone.
pub fn classes(k: usize, gc: GcOption, codes: &[u8]) -> Density
    requires { k ≤ 12 }
    ensures { result ≡ density k gc codes.now }
{
    let mut d = no_classes();
    set_classes(k, gc, codes, &mut d);
    d
}
