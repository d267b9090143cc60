// Every sequence of m letters over A C G T N masked, and how many lead to 0, 1 .. m masked letters: the check before a release.

#![tactic(auto)]

ghost use Rattle.std.specs.Prelude.{◌≡◌, IsTrue, not, [], ◌+◌, ◌^◌, ◌≤◌, ◌<◌, length, slice_index_or, IfOk, OnOk, OnErr, IfSome};
ghost use Rattle.intervals.specs.Interval.{Canonical, Wrote, covered_in};
ghost use Rattle.short_sequences.specs.Sequences.{sequences_of, has_sequence};
ghost use Rattle.short_sequences.specs.Tallies.{short_options, refusal_of, mask_of, tallies_over, tallies_of, refused_of, refusal};
ghost use Rattle.buffers.specs.Fill.{put};
ghost use Rattle.checks.specs.Refusal.{number_of, count_by, count_unless};
ghost use Rattle.short_sequences.specs.declared.Tallied.{Tallied};
ghost use Rattle.short_sequences.specs.Run.{Filled, Short};
ghost use Rattle.short_sequences.specs.Terms.Outcome.{letter_at, outcome_of, counted, one_if_refused};

use checks::{Refusal, below_sum};
use intervals::Interval;
use longdust::{LongdustOptions, Tables};

/// The most letters of a sequence.
pub const MOST_LETTERS: usize = 8;

// Room for what the runs over so many letters need.
const LN_ROOM: usize = 9;

const F_ROOM: usize = 10;

const LIST_ROOM: usize = 4;

/// What was tallied.
#[derive(Clone, Copy)]
pub struct Tallied {
    /// How many sequences there are: 5^m.
    pub sequences: usize,
    /// How many of them are refused.
    pub refused: u32,
}

// ---- The sequences, by their index.
fn letter(digit: usize) -> u8
    ensures { result ≡ letter_at digit }
{
    match digit {
        0 => b'A',
        1 => b'C',
        2 => b'G',
        3 => b'T',
        _ => b'N',
    }
}

// How many sequences of m letters there are.
#[tactic(auto, using(crate::proofs::Sequences::few))]
fn count_sequences(m: usize) -> usize
    requires { m ≤ 8 }
    ensures { result ≡ 5 ^ m }
{
    5usize.pow(m as u32)
}

// Fills the slice with the sequence of that index among all of its size: the index in base five.
fn write_letters(index: usize, letters: &mut [u8])
    requires letters_len_bound { length letters.old ≤ 8 }
    requires index_bound { index < 5 ^ length letters.old }
    ensures { letters.new ≡ slice_index_or (sequences_of (length letters.old)) index [] }
{
    let mut share = count_sequences(letters.len());
    let mut rest = index;
    for place in letters.iter_mut() {
        share /= 5;
        *place = letter(rest / share);
        rest %= share;
    }
}

/// Writes the sequence of that index, from 0 on, among all of m letters over A C G T N to the front of `letters`:
/// the first letter is the slowest, and the letters come in that order.
/// Returns whether there is one, m being 1 to 8 and `letters` having room for it; if not, nothing is written.
pub fn nth_sequence(m: usize, index: usize, letters: &mut [u8]) -> bool
    ensures answer { result ≡ has_sequence m index (length letters.old) }
    ensures sequence { IsTrue result
        → letters.new ≡ put (slice_index_or (sequences_of m) index []) letters.old }
    ensures same { IsTrue (not result) → letters.new ≡ letters.old }
{
    if (m < 1) | (MOST_LETTERS < m) | (letters.len() < m) {
        return false;
    }
    if count_sequences(m) <= index {
        return false;
    }
    write_letters(index, &mut letters[..m]);
    true
}

// ---- One run.
#[tactic(auto, unfolding(crate::specs::Tallies::short_options, longdust::specs::Options::defaults))]
fn short_options() -> LongdustOptions
    ensures { result ≡ short_options }
{
    LongdustOptions {
        window_size: 8,
        kmer: 1,
        ..LongdustOptions::default()
    }
}

/// Masks at most 8 letters by filled tables for k = 1 and w = 8, in work buffers that have exactly the paper's sizes for 8 letters.
/// The intervals go to the front of the list, which has 4 entries; returns their number, or refusal 2, 3 or 13.
pub fn mask_letters(
    letters: &[u8],
    tables: &Tables,
    list: &mut [Interval],
) -> Result<usize, Refusal>
    requires { Short letters.now tables.now.ln.now tables.now.f.now list.old }
    ensures refusal { number_of result ≡ refusal_of letters.now }
    ensures list { IfOk result (Wrote (mask_of letters.now) list.old list.new) }
    ensures shape { OnOk result (Canonical (length letters.now) 1 (mask_of letters.now)) }
    ensures err { OnErr result (list.new ≡ list.old) }
{
    longdust::process_in::<8, 4, MOST_LETTERS, LIST_ROOM>(letters, short_options(), tables, list)
}

// How many of n letters a mask covers.
fn count_letters(list: &[Interval], n: usize) -> usize
    requires { Canonical n 1 list.now }
    ensures { result ≡ covered_in list.now 0 n }
{
    let mut letters: usize = 0;
    for interval in list {
        letters += (interval.end - interval.start) as usize;
    }
    letters
}

// How many letters the run masks; none if the letters are refused.
fn run_letters(letters: &[u8], tables: &Tables) -> Option<usize>
    requires letters_len_bound { length letters.now ≤ 8 }
    requires filled { Filled tables.now.ln.now tables.now.f.now }
    ensures { result ≡ outcome_of letters.now }
{
    let mut list = [Interval { start: 0, end: 0 }; LIST_ROOM];
    match mask_letters(letters, tables, &mut list) {
        Ok(count) => Some(count_letters(&list[..count], letters.len())),
        Err(_) => None,
    }
}

// ---- All runs of a size.
// Counts an outcome under its letters; a refused one is not, and 1 is returned for it.
fn count_outcome(outcome: Option<usize>, tallies: &mut [u32]) -> u32
    requires inside { IfSome outcome (λ letters. letters < length tallies.old) }
    requires room { IfSome outcome (λ letters. slice_index_or tallies.old letters 0 < 4294967295) }
    ensures value { result ≡ one_if_refused outcome }
    ensures tallies_after { tallies.new ≡ counted outcome tallies.old }
{
    match outcome {
        Some(letters) => {
            tallies[letters] += 1;
            0
        }
        None => 1,
    }
}

// The run on the sequence of that index among all of its size, which is written to the slice.
fn run_index(index: usize, letters: &mut [u8], tables: &Tables) -> Option<usize>
    requires letters_len_bound { length letters.old ≤ 8 }
    requires index_bound { index < 5 ^ length letters.old }
    requires filled { Filled tables.now.ln.now tables.now.f.now }
    ensures { result ≡ outcome_of (slice_index_or (sequences_of (length letters.old)) index []) }
{
    write_letters(index, letters);
    run_letters(letters, tables)
}

// Tallies every sequence of the slice's size, the tallies being zeros before; answers how many are refused.
fn tally_all(sequences: usize, letters: &mut [u8], tables: &Tables, tallies: &mut [u32]) -> u32
    requires letters_len_bound { length letters.old ≤ 8 }
    requires sequences_value { sequences ≡ 5 ^ length letters.old }
    requires filled { Filled tables.now.ln.now tables.now.f.now }
    requires tallies_value { tallies.old ≡ tallies_over (length letters.old) [] }
    ensures value { result ≡ refused_of (length letters.old) }
    ensures tallies_after { tallies.new ≡ tallies_of (length letters.old) }
{
    let mut refused = 0;
    for index in 0..sequences {
        let outcome = run_index(index, letters, tables);
        refused += count_outcome(outcome, tallies);
    }
    refused
}

// The tallies in a slice of m + 1 entries; answers how many sequences are refused.
fn tally(m: usize, sequences: usize, tallies: &mut [u32]) -> u32
    requires m_bound { m ≤ 8 }
    requires sequences_value { sequences ≡ 5 ^ m }
    requires tallies_len { length tallies.old ≡ m + 1 }
    ensures value { result ≡ refused_of m }
    ensures tallies_after { tallies.new ≡ tallies_of m }
{
    let mut ln = [0.0f64; LN_ROOM];
    let mut f = [0.0f64; F_ROOM];
    let mut letters = [0u8; MOST_LETTERS];
    tables::fill_uniform(&mut ln, &mut f, 1, 8);
    tallies.fill(0);
    let tables = Tables { ln: &ln, f: &f };
    tally_all(sequences, &mut letters[..m], &tables, tallies)
}

// The first check that fails.
fn check(m: usize, tallies: &[u32]) -> Result<(), Refusal>
    ensures { number_of result ≡ refusal m tallies.now }
{
    if (m < 1) | (MOST_LETTERS < m) {
        return Err(Refusal::BadLength);
    }
    if below_sum(tallies.len(), m, 1) {
        return Err(Refusal::ShortSlice);
    }
    Ok(())
}

/// Fills the front of `tallies`, m + 1 entries: entry c is how many sequences of m letters over A C G T N lead to c masked letters.
/// m is 1 to 8, else refusal 22; with too few entries 11.
pub fn short_sequences(m: usize, tallies: &mut [u32]) -> Result<Tallied, Refusal>
    ensures all_counted { IfOk result (λ tallied. tallied.sequences ≡ 5 ^ m) }
    ensures refused_counted { IfOk result (λ tallied. tallied.refused ≡ refused_of m) }
    ensures sequences { count_by (λ (t : Tallied). t.sequences) result
        ≡ count_unless (refusal m tallies.old) (5 ^ m) }
    ensures refused { count_by (λ (t : Tallied). t.refused) result
        ≡ count_unless (refusal m tallies.old) (refused_of m) }
    ensures few { IfOk result (λ tallied. tallied.sequences ≤ 390625) }
    ensures tallies { OnOk result (tallies.new ≡ put (tallies_of m) tallies.old) }
    ensures refusal { number_of result ≡ refusal m tallies.old }
    ensures err { OnErr result (tallies.new ≡ tallies.old) }
{
    check(m, tallies)?;
    let entries = m + 1;
    let sequences = count_sequences(m);
    let refused = tally(m, sequences, &mut tallies[..entries]);
    Ok(Tallied { sequences, refused })
}
