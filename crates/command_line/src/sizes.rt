// Sizes in bytes: digits, maybe a point and more digits, and maybe a unit.

ghost use Rattle.std.specs.Prelude.{◌≡◌, ◌≤◌, ◌^◌, length, IfSome};
ghost use Rattle.std.specs.List.{prefix_len};
ghost use Rattle.command_line.specs.Number.{is_digit};
ghost use Rattle.command_line.specs.Size.{unit, part, behind, share, size_by, size};

use crate::numbers::{is_digit, number};

// The bytes of a unit.
#[tactic(auto, unfolding(crate::specs::Size::unit))]
fn unit(text: &[u8]) -> Option<u64>
    ensures unit { result ≡ unit text.now }
    ensures bounds { IfSome result (λ u. (1 ≤ u) × (u ≤ 1099511627776)) }
{
    if text.is_empty() {
        return Some(1);
    }
    if 1 < text.len() {
        return None;
    }
    match text[0] {
        b'k' | b'K' => Some(1024),
        b'm' | b'M' => Some(1048576),
        b'g' | b'G' => Some(1073741824),
        b't' | b'T' => Some(1099511627776),
        _ => None,
    }
}

// How many digits stand first.
pub fn digits(text: &[u8]) -> usize
    ensures digits { result ≡ prefix_len is_digit text.now }
    ensures bound { result ≤ length text.now }
{
    text.iter().take_while(|byte| is_digit(**byte)).count()
}

// The digits behind a point.
pub fn part(text: &[u8]) -> &[u8]
    ensures { result.now ≡ part text.now }
{
    if text.is_empty() {
        return text;
    }
    if text[0] != b'.' {
        return &text[..0];
    }
    let rest = &text[1..];
    &rest[..digits(rest)]
}

// What stands behind these.
pub fn behind(text: &[u8]) -> &[u8]
    ensures { result.now ≡ behind text.now }
{
    if text.is_empty() {
        return text;
    }
    if text[0] != b'.' {
        return text;
    }
    let rest = &text[1..];
    &rest[digits(rest)..]
}

fn power(n: usize) -> u64
    requires { n ≤ 6 }
    ensures power { result ≡ 10 ^ n }
    ensures some { 1 ≤ result }
{
    match n {
        0 => 1,
        1 => 10,
        2 => 100,
        3 => 1000,
        4 => 10000,
        5 => 100000,
        _ => 1000000,
    }
}

// What the digits behind a point say of a unit.
#[tactic(auto, unfolding(crate::specs::Size::share))]
fn share(unit: u64, part: &[u8]) -> Option<u64>
    requires { unit ≤ 1099511627776 }
    ensures share { result ≡ share unit part.now }
    ensures bound { IfSome result (λ m. m ≤ 1099510528264601600) }
{
    if part.is_empty() {
        return Some(0);
    }
    if 6 < part.len() {
        return None;
    }
    match number(999999, part) {
        Some(n) => Some(n * unit / power(part.len())),
        None => None,
    }
}

// Whole units and a part of one.
#[tactic(auto, unfolding(crate::specs::Size::size_by))]
pub fn size_by(whole: &[u8], part: &[u8], unit: u64) -> Option<u64>
    requires { (1 ≤ unit) × (unit ≤ 1099511627776) }
    ensures { result ≡ size_by whole.now part.now unit }
{
    match number(4611686018427387904 / unit, whole) {
        Some(n) => match share(unit, part) {
            Some(m) => Some(n * unit + m),
            None => None,
        },
        None => None,
    }
}

/// A number of bytes: digits, maybe a point and up to six digits, and maybe a unit, K, M, G or T in either case, for 2^10, 2^20, 2^30 or 2^40. A part
/// of a byte is left out. None for any other text, or for more than 2^62 bytes in whole units.
#[tactic(auto, unfolding(crate::specs::Size::size))]
pub fn size(text: &[u8]) -> Option<u64>
    ensures { result ≡ size text.now }
{
    let whole = digits(text);
    let rest = &text[whole..];
    match unit(behind(rest)) {
        Some(unit) => size_by(&text[..whole], part(rest), unit),
        None => None,
    }
}
