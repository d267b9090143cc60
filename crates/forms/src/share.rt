// A share, to six decimals.

ghost use Rattle.std.specs.Prelude.{◌≡◌, ◌++◌, ◌<◌, ◌^◌, OnOk};
ghost use Rattle.forms.specs.Share.{rounded, millionths, digit, share};

use crate::text::add_decimal;
use std::io::Result as IoResult;

// a / d to the nearest whole number; of two that are equally near, the even one.
#[tactic(auto, unfolding(crate::specs::Share::rounded))]
fn rounded(a: u128, d: u128) -> u128
    requires { (0 < d) × (d < 2 ^ 64) × (a < 2 ^ 84) }
    ensures { result ≡ rounded a d }
{
    let q = a / d;
    let r = a % d;
    if 2 * r < d {
        return q;
    }
    if d < 2 * r {
        return q + 1;
    }
    q + q % 2
}

// n of d letters, in millionths.
#[tactic(auto, unfolding(crate::specs::Share::millionths))]
fn millionths(n: u64, d: u64) -> u32
    ensures { result ≡ millionths n d }
{
    if d == 0 {
        return 0;
    }
    rounded(n.min(d) as u128 * 1000000, d as u128) as u32
}

fn digit(n: u32) -> u8
    ensures { result ≡ digit n }
{
    b'0' + (n % 10) as u8
}

// Appends a column of a line.
pub fn add_share(text: &mut Vec<u8>, n: u64, d: u64) -> IoResult<()>
    ensures { OnOk result (text.new.items ≡ text.old.items ++ share n d) }
{
    let m = millionths(n, d);
    text.push(b'\t')?;
    add_decimal(text, (m / 1000000) as u64)?;
    text.push(b'.')?;
    let digits = [
        digit(m / 100000),
        digit(m / 10000),
        digit(m / 1000),
        digit(m / 100),
        digit(m / 10),
        digit(m),
    ];
    text.extend_from_slice(&digits)?;
    Ok(())
}
