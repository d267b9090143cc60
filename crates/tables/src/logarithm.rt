// ln of any float, from its bits.

ghost use Rattle.std.specs.Prelude.{◌≡◌, ◌^◌, ◌<◌, false, IsTrue};
ghost use Rattle.std.specs.Float.{binary64};
ghost use Rattle.std.specs.Float.Ieee.{lt, minus, odd, of_int};
ghost use Rattle.floats.specs.Binary64.{zero64};
ghost use Rattle.tables.specs.Ln.{infinity, ln_series, ln_parts, ln_scaled, ln_of};

#[tactic(auto, using(crate::proofs::Countdown::countdowns), unfolding(crate::specs::Ln::ln_series))]
fn series(q: f64) -> f64
    ensures { result ≡ ln_series q }
{
    let mut h = 1.0 / 21.0;
    for j in (0..10u32).rev() {
        h = h * q + 1.0 / ((2 * j + 1) as f64);
    }
    h
}

// The float of a - b.
#[tactic(auto, using(crate::proofs::Exponent::differences))]
fn difference(a: u32, b: u32) -> f64
    ensures { result ≡ of_int binary64 (minus a b) }
{
    if b <= a {
        (a - b) as f64
    } else {
        -((b - a) as f64)
    }
}

// ln of m * 2^(a - b), by m's distance from 1.
#[tactic(auto, unfolding(crate::specs::Ln::ln_parts))]
fn ln_parts(m: f64, a: u32, b: u32) -> f64
    ensures { result ≡ ln_parts m (minus a b) }
{
    let z = (m - 1.0) / (m + 1.0);
    difference(a, b) * 0.6931471805599453 + 2.0 * z * series(z * z)
}

// ln of m * 2^(a - b), for 1 <= m < 2.
#[tactic(auto, using(crate::proofs::Exponent::raised), unfolding(crate::specs::Ln::ln_scaled))]
fn ln_scaled(m: f64, a: u32, b: u32) -> f64
    requires { a < 4096 }
    ensures { result ≡ ln_scaled m (minus a b) }
{
    if m > 1.4142135623730951 {
        ln_parts(m / 2.0, a + 1, b)
    } else {
        ln_parts(m, a, b)
    }
}

// ln of q * 2^k times the smallest float above 0, which is 2^-1074.
#[tactic(auto, using(crate::proofs::Significand::of_digits))]
fn ln_digits(q: u64, k: u32) -> f64
    requires some { 0 < q }
    requires q_bound { q < 2 ^ 53 }
    requires k_bound { k < 2046 }
    ensures { result ≡ ln_of (odd 53 false q k 1074) }
{
    let z = u64::leading_zeros(q) - 11;
    let m = f64::from_bits((q << z) + 0x3fe0_0000_0000_0000);
    ln_scaled(m, k, 1022 + z)
}

// ln of a finite float above 0.
#[tactic(auto, using(crate::proofs::Fields::by_bits))]
fn ln_finite(x: f64) -> f64
    requires positive { IsTrue (lt zero64 x) }
    requires finite { IsTrue (lt x infinity) }
    ensures { result ≡ ln_of x }
{
    let b = x.to_bits();
    let field = ((b >> 52) & 0x7ff) as u32;
    let digits = b & 0xf_ffff_ffff_ffff;
    if field == 0 {
        ln_digits(digits, 0)
    } else {
        ln_digits(digits + 0x10_0000_0000_0000, field - 1)
    }
}

/// ln x by the specification's formula: minus infinity for zeros, infinity for infinity, else not-a-number for what is not above 0.
#[tactic(auto, using(crate::proofs::LnCases::cases))]
pub fn ln(x: f64) -> f64
    ensures { result ≡ ln_of x }
{
    if x > 0.0 {
        if x < f64::INFINITY { ln_finite(x) } else { x }
    } else if x == 0.0 {
        f64::NEG_INFINITY
    } else {
        f64::NAN
    }
}
