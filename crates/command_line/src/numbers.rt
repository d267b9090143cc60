// Whole numbers in decimal digits.

ghost use Rattle.std.specs.Prelude.{◌≡◌, ◌≤◌, ◌+◌, ◌*◌, Some, None, cond, nat_lt, IfSome};
ghost use Rattle.command_line.specs.Number.{is_digit, joined, number};

pub fn is_digit(byte: u8) -> bool
    ensures { result ≡ is_digit byte }
{
    !(byte < 48) & (byte < 58)
}

// One more digit behind n, if that stays at most `most`.
#[tactic(auto, unfolding(crate::specs::Number::joined, crate::specs::Number::is_digit))]
fn joined(most: u64, n: u64, byte: u8) -> Option<u64>
    ensures joined { result ≡ joined most n byte }
    ensures bound { IfSome result (λ m. m ≤ most) }
{
    if !is_digit(byte) {
        return None;
    }
    let digit = (byte - 48) as u64;
    if most < digit {
        return None;
    }
    if (most - digit) / 10 < n {
        return None;
    }
    Some(n * 10 + digit)
}

/// The number that decimal digits stand for: none for no digit, for another byte, or above `most`.
#[tactic(auto, unfolding(crate::specs::Number::number))]
pub fn number(most: u64, text: &[u8]) -> Option<u64>
    ensures number { result ≡ number most text.now }
    ensures bound { IfSome result (λ n. n ≤ most) }
{
    if text.is_empty() {
        return None;
    }
    let mut n = 0;
    for byte in text {
        match joined(most, n, *byte) {
            Some(next) => n = next,
            None => return None,
        }
    }
    Some(n)
}
