// What the numbers of the calls for C stand for, and the number that such a call returns.
// Kinds cross as numbers: include/longdust.h lends them so.

ghost use Rattle.std.specs.Prelude.{◌≡◌, ◌<◌, ◌^◌, pos, neg_ℤ, IfOk};
ghost use Rattle.checks.specs.Refusal.{number, number_of, count_of};
ghost use Rattle.longdust.specs.Call.{mask_count, mask_flag};
ghost use Rattle.longdust_c.specs.Numbers.{gc_choice, xdrop_choice, masking_of, kind_of, count_or, flag, refusal_numbered};

use checks::Refusal;
use join::Joined;
use longdust::Answer;
use masked_copy::Masking;
use tables::GcOption;

/// The GC choice that two numbers stand for.
pub fn gc_choice(gc_kind: u32, gc_value: f64) -> GcOption
    ensures { result ≡ gc_choice gc_kind gc_value }
{
    match gc_kind {
        0 => GcOption::Uniform,
        1 => GcOption::Fixed(gc_value),
        2 => GcOption::Auto,
        _ => GcOption::Fixed(f64::NAN),
    }
}

/// The xdrop that two numbers stand for.
pub fn xdrop_choice(xdrop_set: u32, xdrop_length: u32) -> Option<u32>
    ensures { result ≡ xdrop_choice xdrop_set xdrop_length }
{
    match xdrop_set {
        0 => None,
        _ => Some(xdrop_length),
    }
}

/// How masked letters are shown.
pub fn masking_of(lower_case: u32, replacement: u8) -> Masking
    ensures { result ≡ masking_of lower_case replacement }
{
    match lower_case {
        0 => Masking::Replace(replacement),
        _ => Masking::LowerCase,
    }
}

/// Which letters of two lists are wanted: 0 those of either, 1 of both, any other ours outside theirs.
pub fn kind_of(kind: u32) -> Joined
    ensures { result ≡ kind_of kind }
{
    match kind {
        0 => Joined::Either,
        1 => Joined::Both,
        _ => Joined::Outside,
    }
}

/// Minus the refusal's number.
pub fn minus_number(refusal: Refusal) -> i64
    ensures { result ≡ neg_ℤ (pos (number refusal)) }
{
    -(refusal.number() as i64)
}

/// The count, or minus the refusal's number.
pub fn returned(answer: Result<usize, Refusal>) -> i64
    requires { IfOk answer (λ count. count < 2 ^ 63) }
    ensures { result ≡ count_or (number_of answer) (count_of answer) }
{
    match answer {
        Ok(count) => count as i64,
        Err(refusal) => minus_number(refusal),
    }
}

/// The count of a mask and its flag, or minus the refusal's number and no flag.
pub fn returned_mask(answer: Result<Answer, Refusal>, in_range: &mut u32) -> i64
    requires { IfOk answer (λ mask. mask.count < 2 ^ 63) }
    ensures number { result ≡ count_or (number_of answer) (mask_count answer) }
    ensures flag { in_range.new ≡ flag (mask_flag answer) }
{
    match answer {
        Ok(mask) => {
            *in_range = mask.in_range as u32;
            mask.count as i64
        }
        Err(refusal) => {
            *in_range = 0;
            minus_number(refusal)
        }
    }
}

/// The refusal that has this number.
pub fn refusal_numbered(number: u32) -> Option<Refusal>
    ensures { result ≡ refusal_numbered number }
{
    match number {
        1 => Some(Refusal::KmerOutside),
        2 => Some(Refusal::HighByte),
        3 => Some(Refusal::TooFewLetters),
        4 => Some(Refusal::WindowBelow),
        5 => Some(Refusal::WindowAbove),
        6 => Some(Refusal::BadThreshold),
        7 => Some(Refusal::BadGc),
        8 => Some(Refusal::MinStartBelow),
        9 => Some(Refusal::BadXdrop),
        10 => Some(Refusal::TooManyLetters),
        11 => Some(Refusal::ShortSlice),
        12 => Some(Refusal::BadReplacement),
        13 => Some(Refusal::OtherByte),
        16 => Some(Refusal::UnusualList),
        17 => Some(Refusal::BadQuestion),
        18 => Some(Refusal::NoBudget),
        19 => Some(Refusal::PlaceOutside),
        20 => Some(Refusal::HighTable),
        21 => Some(Refusal::OutsideProfile),
        22 => Some(Refusal::BadLength),
        _ => None,
    }
}
