// The refusals of all calls.

use std::fmt;

/// Why a request is refused; `text` says each in words. The calls for C return minus its number.
/// 1 to 11 are the specification's checks, the others came with the requests; 14 and 15 are faults of a file (`fasta::Fault`).
#[derive(Clone, Copy)]
pub enum Refusal {
    KmerOutside = 1,
    HighByte = 2,
    TooFewLetters = 3,
    WindowBelow = 4,
    WindowAbove = 5,
    BadThreshold = 6,
    BadGc = 7,
    MinStartBelow = 8,
    BadXdrop = 9,
    TooManyLetters = 10,
    ShortSlice = 11,
    BadReplacement = 12,
    OtherByte = 13,
    UnusualList = 16,
    BadQuestion = 17,
    NoBudget = 18,
    PlaceOutside = 19,
    HighTable = 20,
    OutsideProfile = 21,
    BadLength = 22,
}

impl Refusal {
    ghost use Rattle.std.specs.Prelude.{◌≡◌};
    ghost use Rattle.checks.specs.Refusal.{number, text};

    /// Its number, 1 to 22.
    pub fn number(self) -> u32
        ensures { result ≡ number self }
    {
        self as u32
    }

    /// What is wrong with the request, in words.
    pub fn text(self) -> &'static str
        ensures { result.now ≡ text self }
    {
        match self {
            Refusal::KmerOutside => "the k-mer length is outside 1 to 12",
            Refusal::HighByte => "a letter is a byte of 128 or more",
            Refusal::TooFewLetters => "there are fewer than k + 1 letters",
            Refusal::WindowBelow => "the window size is below k + 1",
            Refusal::WindowAbove => "the window size is above 65535",
            Refusal::BadThreshold => "the score threshold is not finite or not above 0",
            Refusal::BadGc => "a fixed GC is not a number or outside 0 to 1",
            Refusal::MinStartBelow => "min_start_cnt is below 2",
            Refusal::BadXdrop => "xdrop is 0",
            Refusal::TooManyLetters => "there are more than 2147483647 letters",
            Refusal::ShortSlice => "a lent slice is shorter than listed",
            Refusal::BadReplacement => "the replacement is neither N nor X",
            Refusal::OtherByte => "a letter is not A to Z in either case, - or *",
            Refusal::UnusualList => "a list is not of the usual kind",
            Refusal::BadQuestion => "a question has an unknown kind, letter or range",
            Refusal::NoBudget => "the budget is 0",
            Refusal::PlaceOutside => "the place is not one of the letters",
            Refusal::HighTable => "the threshold or a table entry is too high",
            Refusal::OutsideProfile => "the request is outside the small profile",
            Refusal::BadLength => "the length is not 1 to 8",
        }
    }
}

impl fmt::Display for Refusal {
    ghost use Rattle.std.specs.Prelude.{Some};
    ghost use Rattle.std.specs.Fmt.{padded};
    ghost use Rattle.checks.specs.Refusal.{text};

    ghost output = { λ refusal. Some (text refusal) };

    ghost styled_output = { λ refusal spec. Some (padded spec (text refusal)) };

    fn fmt<W: fmt::Write>(&self, f: &mut fmt::Formatter<W>) -> fmt::Result {
        f.pad(self.text())
    }
}
