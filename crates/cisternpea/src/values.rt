// The values of options.

ghost use Rattle.std.specs.Prelude.{◌≤◌, IfSome};

/// A number in decimal digits from low to high.
pub fn whole(text: &str, low: u64, high: u64) -> Option<u64>
    ensures { IfSome result (λ n. (low ≤ n) × (n ≤ high)) }
{
    match command_line::number(high, text.as_bytes()) {
        Some(n) => { if low <= n { Some(n) } else { None } }
        None => None,
    }
}

/// A number with or without a point and an exponent; "inf" and "nan" are none.
pub fn fraction(text: &str) -> Option<f64> {
    let bytes = text.as_bytes();
    if !bytes.iter().all(|b| matches!(*b, b'0'..=b'9' | b'.' | b'e' | b'E' | b'+' | b'-')) {
        return None;
    }
    let x: f64 = fast_float::parse(bytes).ok()?;
    if x.is_finite() { Some(x) } else { None }
}

/// What stands before the first colon of a value, and what stands behind it if there is one.
pub fn split_file(text: &str) -> (&str, Option<&str>) {
    match text.split_once(':') {
        Some((value, file)) => (value, Some(file)),
        None => (text, None),
    }
}
