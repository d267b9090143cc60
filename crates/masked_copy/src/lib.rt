// Masked copies of a sequence: the letters that an interval of a list holds in lower case, or replaced by N or X.

#![tactic(auto)]

ghost use Rattle.std.specs.Prelude.{◌≡◌, [], ◌∷◌, map, ◌≤◌, min, length, OnOk, OnErr, IfOk};
ghost use Rattle.buffers.specs.Fill.{put};
ghost use Rattle.checks.specs.Refusal.{number_of, count_of, count_unless};
ghost use Rattle.masked_copy.specs.Copy.{shown, copy_of, replacement_bad, refusal};

use checks::Refusal;
use intervals::Interval;

/// How a masked letter is shown.
#[derive(Clone, Copy)]
pub enum Masking {
    /// In lower case.
    LowerCase,
    /// As this byte: N or X, else refusal 12.
    Replace(u8),
}

impl Masking {
    // The byte shown for a masked letter.
    #[tactic(auto, unfolding(crate::specs::Copy::lower))]
    fn shown(self, b: u8) -> u8
        ensures { result ≡ shown self b }
    {
        match self {
            Masking::LowerCase => b.to_ascii_lowercase(),
            Masking::Replace(replacement) => replacement,
        }
    }

    // Whether it shows a replacement other than N or X.
    #[tactic(auto, unfolding(crate::specs::Copy::replacement_bad))]
    fn is_bad(self) -> bool
        ensures { result ≡ replacement_bad self }
    {
        matches!(self, Masking::Replace(r) if r != b'N' && r != b'X')
    }
}

// Masks every letter of the part.
#[tactic(auto, using(crate::proofs::Copying::of_part))]
fn mask_part(part: &mut [u8], masking: Masking)
    ensures { part.new ≡ map (shown masking) part.old }
{
    for b in part.iter_mut() {
        *b = masking.shown(*b);
    }
}

// Masks the letters of the interval; those past the last letter are none.
#[tactic(auto, using(crate::proofs::Copying::of_interval))]
fn mask_interval(letters: &mut [u8], interval: Interval, masking: Masking)
    ensures { letters.new ≡ copy_of masking (interval ∷ []) letters.old }
{
    let from = interval.start as usize;
    let to = (interval.end as usize).min(letters.len());
    if from < to {
        mask_part(&mut letters[from..to], masking);
    }
}

// Masks the letters of every interval of the list.
#[tactic(auto, using(crate::proofs::Copying::of_list))]
fn mask_list(letters: &mut [u8], list: &[Interval], masking: Masking)
    ensures { letters.new ≡ copy_of masking list.now letters.old }
{
    for interval in list {
        mask_interval(letters, *interval, masking);
    }
}

/// Copies the letters to the front of `copy`, which has room for all.
// A loop in place of the slice's own method: the C archive then needs no `memmove` from outside.
#[tactic(auto, using(crate::proofs::Copying::of_letters))]
pub fn copy_letters(sequence: &[u8], copy: &mut [u8])
    requires { length sequence.now ≤ length copy.old }
    ensures { copy.new ≡ put sequence.now copy.old }
{
    for i in 0..sequence.len() {
        copy[i] = sequence[i];
    }
}

// The first check that fails.
fn check(sequence: &[u8], masking: Masking, copy: &[u8]) -> Result<(), Refusal>
    ensures { number_of result ≡ refusal masking sequence.now copy.now }
{
    if masking.is_bad() {
        return Err(Refusal::BadReplacement);
    }
    if copy.len() < sequence.len() {
        return Err(Refusal::ShortSlice);
    }
    Ok(())
}

/// Copies the sequence to the front of `copy`, each letter that an interval of the list holds masked. The list's order is free.
/// Returns the number of bytes copied, n, or refusal 12 or 11.
pub fn masked_copy(
    sequence: &[u8],
    list: &[Interval],
    masking: Masking,
    copy: &mut [u8],
) -> Result<usize, Refusal>
    ensures ok { OnOk result (copy.new ≡ put (copy_of masking list.now sequence.now) copy.old) }
    ensures count { IfOk result (λ n. n ≡ length sequence.now) }
    ensures values { count_of result
        ≡ count_unless (refusal masking sequence.now copy.old) (length sequence.now) }
    ensures refusal { number_of result ≡ refusal masking sequence.now copy.old }
    ensures err { OnErr result (copy.new ≡ copy.old) }
{
    check(sequence, masking, copy)?;
    let n = sequence.len();
    copy_letters(sequence, copy);
    mask_list(&mut copy[..n], list, masking);
    Ok(n)
}
