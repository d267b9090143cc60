// What a record asks: the options, the slice that is lent short, the tables and the letters.

ghost use Rattle.std.specs.Prelude.{◌≡◌, ◌≤◌, length, IfOk};
ghost use Rattle.replay.specs.Request.{xdrop_of, gc_kind, letter_of};
ghost use Rattle.replay.specs.Words.{Follows};

use crate::words::{self, Malformed, Words};
use longdust::LongdustOptions;
use tables::GcOption;

/// What stands before the tables and the letters of a record.
#[derive(Clone, Copy)]
pub struct Request {
    pub options: LongdustOptions,
    /// The number of the slice that is lent one entry short: 0 for none, 13 where all are empty.
    pub short: u32,
    /// Whether the record lends tables.
    pub lent: bool,
}

// The list has this kind as a number.
fn xdrop(set: u32, length: u32) -> Option<u32>
    ensures { result ≡ xdrop_of set length }
{
    if set == 0 {
        return None;
    }
    Some(length)
}

// The list has this kind as a number.
fn gc(kind: u32, fixed: f64) -> GcOption
    ensures { result ≡ gc_kind kind fixed }
{
    match kind {
        0 => GcOption::Uniform,
        1 => GcOption::Fixed(fixed),
        _ => GcOption::Auto,
    }
}

/// Reads the words before the tables.
#[tactic(auto, using(crate::proofs::Following::following))]
pub fn head(words: &mut Words) -> Result<Request, Malformed>
    ensures follows { Follows words.old.rest.now words.new.rest.now }
    ensures kmer { IfOk result (λ r. r.options.kmer ≤ 4294967295) }
    ensures window_size { IfOk result (λ r. r.options.window_size ≤ 4294967295) }
{
    let kmer = words.number(u32::MAX)? as usize;
    let window_size = words.number(u32::MAX)? as usize;
    let min_start_cnt = words.number(65535)? as u16;
    let xdrop_set = words.number(1)?;
    let xdrop = xdrop(xdrop_set, words.number(u32::MAX)?);
    let approx = words.flag()?;
    let forward_only = words.flag()?;
    let score_threshold = words.float()?;
    let gc_kind = words.number(2)?;
    let gc = gc(gc_kind, words.float()?);
    let short = words.number(13)?;
    let lent = words.flag()?;
    let options = LongdustOptions {
        window_size,
        score_threshold,
        kmer,
        gc,
        xdrop,
        min_start_cnt,
        approx,
        forward_only,
    };
    Ok(Request {
        options,
        short,
        lent,
    })
}

// Reads a table: the number of runs, and for each run how often its entry stands and the entry, as far as there is room.
#[tactic(auto, using(crate::proofs::Following::following))]
fn table(words: &mut Words, table: &mut [f64]) -> Result<(), Malformed>
    ensures { Follows words.old.rest.now words.new.rest.now }
{
    let runs = words.number(66)?;
    let mut filled = 0;
    for _ in 0..runs {
        let times = words.number(66)? as usize;
        let entry = words.float()?;
        let end = table.len().min(filled + times);
        table[filled..end].fill(entry);
        filled = end;
    }
    Ok(())
}

/// Reads both tables.
#[tactic(auto, using(crate::proofs::Following::following))]
pub fn tables(words: &mut Words, ln: &mut [f64], f: &mut [f64]) -> Result<(), Malformed>
    ensures { Follows words.old.rest.now words.new.rest.now }
{
    table(words, ln)?;
    table(words, f)
}

#[tactic(auto, unfolding(crate::specs::Request::letter_of))]
fn letter(byte: u8) -> u8
    ensures { result ≡ letter_of byte }
{
    if byte == b'~' { 200 } else { byte }
}

/// Reads how many letters there are, which it answers, and the letters.
#[tactic(auto, using(crate::proofs::Following::following))]
pub fn sequence(words: &mut Words, letters: &mut [u8]) -> Result<usize, Malformed>
    ensures follows { Follows words.old.rest.now words.new.rest.now }
    ensures length { IfOk result (λ n. n ≤ length letters.new) }
{
    let n = words.number(u32::MAX)? as usize;
    if letters.len() < n {
        return Err(words::MALFORMED);
    }
    for (i, byte) in words.bytes(n)?.iter().enumerate() {
        letters[i] = letter(*byte);
    }
    Ok(n)
}
