// The words of the list. Every word is followed by one byte, a space or at the end of a line a newline.

ghost use Rattle.std.specs.Prelude.{◌≡◌, ◌≤◌, ◌<◌, ◌+◌, true, if◌then◌else◌, length, take, drop, slice_index_or, nat_eq, IfOk, OnOk, OnErr, IfSome};
ghost use Rattle.std.specs.Option.{unwrap_or};
ghost use Rattle.replay.specs.Words.{digit_of, ends_word, Reads, ReadsNumber, ReadsBits, ReadsFloat, Follows};

use std::num::f64_from_bits_with_nan;

/// The list does not have its form.
#[derive(Clone, Copy)]
pub struct Malformed {
    /// The number that the word began with, 0 where none was read. It is printed as it is.
    pub number: u32,
}

/// No number was read.
pub const MALFORMED: Malformed = Malformed { number: 0 };

/// The words that are left.
#[derive(Clone, Copy)]
pub struct Words<'a> {
    rest: &'a [u8],
}

// The value of a hex digit.
#[tactic(auto, unfolding(crate::specs::Words::digit_of))]
fn digit(byte: u8) -> Option<u64>
    ensures value { unwrap_or result 16 ≡ digit_of byte }
    ensures small { IfSome result (λ d. d < 16) }
{
    match byte {
        b'0'..=b'9' => Some((byte - b'0') as u64),
        b'a'..=b'f' => Some((byte - b'a') as u64 + 10),
        _ => None,
    }
}

fn ends_word(byte: u8) -> bool
    ensures { result ≡ ends_word byte }
{
    (byte == b' ') | (byte == b'\n')
}

impl<'a> Words<'a> {
    /// All words of a text.
    pub fn new(text: &'a [u8]) -> Self
        ensures { result.rest.now ≡ text.now }
    {
        Words { rest: text }
    }

    /// Whether no word is left.
    pub fn is_empty(&self) -> bool
        ensures { result ≡ nat_eq (length self.now.rest.now) 0 }
    {
        self.rest.is_empty()
    }

    /// The next n bytes, as a word.
    pub fn bytes(&mut self, n: usize) -> Result<&'a [u8], Malformed>
        ensures length { IfOk result (λ word. length word.now ≡ n) }
        ensures word { IfOk result (λ word. word.now ≡ take n self.old.rest.now) }
        ensures rest { OnOk result (self.new.rest.now ≡ drop (n + 1) self.old.rest.now) }
        ensures ended { OnOk result (ends_word (slice_index_or self.old.rest.now n 0) ≡ true) }
        ensures err { OnErr result (self.new.rest.now ≡ self.old.rest.now) }
    {
        let rest = self.rest;
        if rest.len() <= n || !ends_word(rest[n]) {
            return Err(MALFORMED);
        }
        self.rest = &rest[n + 1..];
        Ok(&rest[..n])
    }

    // The next word; it has a byte at least.
    fn word(&mut self) -> Result<&'a [u8], Malformed>
        ensures ok { IfOk result (λ word. Reads self.old.rest.now self.new.rest.now word.now) }
        ensures err { OnErr result (self.new.rest.now ≡ self.old.rest.now) }
    {
        match self.rest.iter().position(|byte| ends_word(*byte)) {
            None | Some(0) => Err(MALFORMED),
            Some(n) => self.bytes(n),
        }
    }

    /// The next word, a decimal number of at most `most`.
    pub fn number(&mut self, most: u32) -> Result<u32, Malformed>
        ensures most { IfOk result (λ n. n ≤ most) }
        ensures ok { IfOk result (λ n. ReadsNumber self.old.rest.now self.new.rest.now n) }
        ensures err { OnErr result (self.new.rest.now ≡ self.old.rest.now) }
        ensures follows { Follows self.old.rest.now self.new.rest.now }
    {
        let rest = self.rest;
        let mut number: u64 = 0;
        for (i, byte) in rest.iter().enumerate() {
            match digit(*byte) {
                Some(digit) if digit < 10 => number = number * 10 + digit,
                _ => {
                    let number = number as u32;
                    if i == 0 || !ends_word(*byte) {
                        return Err(Malformed { number });
                    }
                    self.bytes(i)?;
                    return Ok(number);
                }
            }
            if (most as u64) < number {
                return Err(MALFORMED);
            }
        }
        Err(MALFORMED)
    }

    /// The next word, 0 or 1.
    pub fn flag(&mut self) -> Result<bool, Malformed>
        ensures ok { IfOk result (λ set.
            ReadsNumber self.old.rest.now self.new.rest.now (if set then 1 else 0)) }
        ensures err { OnErr result (self.new.rest.now ≡ self.old.rest.now) }
        ensures follows { Follows self.old.rest.now self.new.rest.now }
    {
        Ok(self.number(1)? == 1)
    }

    // The bits of a float: at most 16 hex digits from the top.
    fn bits(&mut self) -> Result<u64, Malformed>
        ensures ok { IfOk result (λ bits. ReadsBits self.old.rest.now self.new.rest.now bits) }
        ensures follows { Follows self.old.rest.now self.new.rest.now }
    {
        let word = self.word()?;
        if 16 < word.len() {
            return Err(MALFORMED);
        }
        let mut bits: u64 = 0;
        for byte in word {
            let digit = digit(*byte).ok_or(MALFORMED)?;
            bits = bits * 16 + digit;
        }
        Ok(bits << (4 * (16 - word.len())))
    }

    /// The float of the next bits; those of a not-a-number all give the same one.
    pub fn float(&mut self) -> Result<f64, Malformed>
        ensures ok { IfOk result (λ x. ReadsFloat self.old.rest.now self.new.rest.now x) }
        ensures follows { Follows self.old.rest.now self.new.rest.now }
    {
        Ok(f64_from_bits_with_nan(self.bits()?))
    }
}
