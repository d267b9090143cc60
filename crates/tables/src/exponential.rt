// exp(-v), and whole powers.

ghost use Rattle.std.specs.Prelude.{◌≡◌};
ghost use Rattle.tables.specs.Exp.{times, powi, exp_series, exp_neg};

// x multiplied n times by b.
#[tactic(auto, using(crate::proofs::Countdown::countdowns))]
fn times(n: usize, b: f64, x: f64) -> f64
    ensures { result ≡ times n b x }
{
    let mut y = x;
    for _ in 0..n {
        y *= b;
    }
    y
}

/// base to the power n, by n multiplications from 1.0, as the specification's powi.
#[tactic(auto, unfolding(crate::specs::Exp::powi))]
pub fn powi(base: f64, n: usize) -> f64
    ensures { result ≡ powi base n }
{
    times(n, base, 1.0)
}

#[tactic(auto, using(crate::proofs::Countdown::countdowns), unfolding(crate::specs::Exp::exp_series))]
fn series(v: f64) -> f64
    ensures { result ≡ exp_series v }
{
    let mut h = 1.0;
    for d in (1..=20u32).rev() {
        h = 1.0 - v / (d as f64) * h;
    }
    h
}

/// exp(-v) by the specification's formula, for 0 <= v < 30; for another v what the formula gives.
#[tactic(auto, using(crate::proofs::ExpLoop::exp_loop), unfolding(crate::specs::Exp::exp_neg))]
pub fn exp_neg(v: f64) -> f64
    ensures { result ≡ exp_neg v }
{
    let mut rest = v;
    let mut a: usize = 0;
    while (a < 30) & (rest >= 1.0) {
        rest -= 1.0;
        a += 1;
    }
    times(a, 0.36787944117144233, series(rest))
}
