// The small profile: the mask of a short sequence as bytes, in work space of the call's own.

#![tactic(auto)]

ghost use Rattle.std.specs.Prelude.{◌≡◌, ◌*◌, ◌≤◌, ◌<◌, nat_lt, length, IfOk, OnOk, OnErr};
ghost use Rattle.buffers.specs.Fill.{put};
ghost use Rattle.checks.specs.Tests.{most_intervals};
ghost use Rattle.small.specs.Profile.{not_uniform, outside, refusal};
ghost use Rattle.small.specs.Bytes.{bytes_of, pair_bytes};
ghost use Rattle.checks.specs.Refusal.{number_of, count_of, count_unless};
ghost use Rattle.small.specs.Call.{filled_mask};
ghost use Rattle.small.specs.Run.{Asked, Ran};
ghost use Rattle.small.specs.Terms.Run.{Serve};

mod quiet;

use checks::{Refusal, check_sequence, min_start_below, threshold_bad};
use intervals::Interval;
use longdust::{LongdustOptions, Tables};
use tables::GcOption;

/// The largest k-mer length of the profile, in letters.
pub const MOST_KMER: usize = 6;

/// The largest window of the profile, in letters.
pub const MOST_WINDOW: usize = 4096;

/// The most letters of the profile.
pub const MOST_LETTERS: usize = 4096;

// The most intervals that so many letters can have.
const LIST_ROOM: usize = 2048;

// ---- The checks.
#[tactic(auto, unfolding(crate::specs::Profile::not_uniform))]
fn not_uniform(gc: GcOption) -> bool
    ensures { result ≡ not_uniform gc }
{
    !matches!(gc, GcOption::Uniform)
}

#[tactic(auto, unfolding(crate::specs::Profile::outside))]
fn outside(options: LongdustOptions, n: usize) -> bool
    ensures { result ≡ outside options n }
{
    let gc = options.gc;
    let gc_outside = not_uniform(gc);
    (MOST_KMER < options.kmer)
        | (MOST_WINDOW < options.window_size)
        | (MOST_LETTERS < n)
        | gc_outside
}

// Whether an output of so many bytes is too short for R intervals.
fn below_bytes(room: usize, n: usize, k: usize) -> bool
    ensures { result ≡ nat_lt room (8 * most_intervals n k) }
{
    checks::below_intervals(room / 8, n, k)
}

// The first check that fails; the output has room for so many bytes.
fn check(sequence: &[u8], options: LongdustOptions, room: usize) -> Result<(), Refusal>
    ensures { number_of result ≡ refusal options sequence.now room }
{
    let n = sequence.len();
    check_sequence(sequence, options.kmer, options.window_size)?;
    if threshold_bad(options.score_threshold) {
        return Err(Refusal::BadThreshold);
    }
    if min_start_below(options.min_start_cnt) {
        return Err(Refusal::MinStartBelow);
    }
    if longdust::xdrop_bad(options.xdrop) {
        return Err(Refusal::BadXdrop);
    }
    if outside(options, n) {
        return Err(Refusal::OutsideProfile);
    }
    if below_bytes(room, n, options.kmer) {
        return Err(Refusal::ShortSlice);
    }
    Ok(())
}

// ---- The bytes.
// Writes start and end, four bytes each, lowest first.
fn write_pair(interval: Interval, out: &mut [u8])
    requires { length out.old ≡ 8 }
    ensures { out.new ≡ pair_bytes interval }
{
    out[..4].copy_from_slice(&interval.start.to_le_bytes());
    out[4..].copy_from_slice(&interval.end.to_le_bytes());
}

/// Writes the intervals of the list to the front of the output: eight bytes each, start and end, lowest first.
#[tactic(auto, using(crate::proofs::Bytes::bytes))]
pub fn write_list(list: &[Interval], out: &mut [u8])
    requires { 8 * length list.now ≤ length out.old }
    ensures { out.new ≡ put (bytes_of list.now) out.old }
{
    for (i, interval) in list.iter().enumerate() {
        write_pair(*interval, &mut out[8 * i..8 * i + 8]);
    }
}

// ---- The run.
// Fills the tables as far as a run over the letters reads them: up to n or w, or up to w where n entries do not decide max_test.
#[tactic(auto, using(crate::proofs::Filling::filled))]
fn fill_read(letters: &[u8], options: LongdustOptions, ln: &mut [f64], f: &mut [f64])
    requires asked { Asked options letters.now }
    requires ln_len { length ln.old ≡ 4097 }
    requires f_len { length f.old ≡ 4098 }
    ensures { Serve options letters.now ln.new f.new }
{
    let n = letters.len();
    let k = options.kmer;
    let w = options.window_size;
    if w <= n {
        tables::fill_uniform(ln, f, k, w);
        return;
    }
    tables::fill_uniform(ln, f, k, n);
    if scans::max_test(ln, f, n as u32, options.score_threshold) != 0 {
        return;
    }
    tables::fill_uniform(ln, f, k, w);
}

/// Masks the letters by tables of its own, filled as far as they are read; the intervals go to the front of the list, which has 2,048 entries.
/// Returns how many there are. The request is one that `write_mask` accepts; it needs 220 KB of stack.
pub fn mask_letters(letters: &[u8], options: LongdustOptions, list: &mut [Interval]) -> usize
    requires asked { Asked options letters.now }
    requires list_len { length list.old ≡ 2048 }
    ensures { Ran options letters.now list.old list.new result }
{
    let mut ln = [0.0f64; 4097];
    let mut f = [0.0f64; 4098];
    fill_read(letters, options, &mut ln, &mut f);
    let tables = Tables { ln: &ln, f: &f };
    longdust::process_in::<MOST_WINDOW, 4096, MOST_LETTERS, LIST_ROOM>(
        letters, options, &tables, list,
    ).unwrap_or(0)
}

/// Writes the mask of the sequence to the front of `out`, each interval as its start and its end, four bytes each, lowest first:
/// 8 (n + 1) / (k + 1) bytes suffice. Returns the number of intervals written.
/// Refusals: 1 to 6, 8, 9, 13; 21 for a request outside the profile, with GC that is not uniform too; 11.
pub fn write_mask(
    sequence: &[u8],
    options: LongdustOptions,
    out: &mut [u8],
) -> Result<usize, Refusal>
    ensures count { IfOk result (λ count. count ≡ length (filled_mask options sequence.now)) }
    ensures values { count_of result
        ≡ count_unless (refusal options sequence.now (length out.old))
        (length (filled_mask options sequence.now)) }
    ensures few { IfOk result (λ count. count ≤ 2048) }
    ensures bytes { OnOk result
        (out.new ≡ put (bytes_of (filled_mask options sequence.now)) out.old) }
    ensures refusal { number_of result ≡ refusal options sequence.now (length out.old) }
    ensures err { OnErr result (out.new ≡ out.old) }
{
    check(sequence, options, out.len())?;
    if quiet::is_quiet(sequence, options) {
        return Ok(0);
    }
    let mut list = [Interval { start: 0, end: 0 }; LIST_ROOM];
    let count = mask_letters(sequence, options, &mut list);
    write_list(&list[..count], out);
    Ok(count)
}
