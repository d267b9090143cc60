// Two operations on floats: the backward scan's test 'within 1e-9', and max_test's cast to 32 bits.

#![tactic(auto)]

ghost use Rattle.std.specs.Prelude.{◌≡◌};
ghost use Rattle.std.specs.Float.Ieee.{to_signed};
ghost use Rattle.floats.specs.Binary64.{near_zero};

/// Whether |x| < 1e-9, as the backward scan asks. Two comparisons: the answer is no for not-a-number.
pub fn near_zero(x: f64) -> bool
    ensures { result ≡ near_zero x }
{
    (x < 1e-9) & (x > -1e-9)
}

/// Rust's `x as i32`, by which max_test is cut: towards zero, the ends of the range beyond it, 0 for not-a-number.
pub fn to_i32(x: f64) -> i32
    ensures { result ≡ to_signed 31 x }
{
    std::num::saturating_f64_to_i32(x)
}
