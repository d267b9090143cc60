// The checks of a request, in the paper's order.

ghost use Rattle.std.specs.Prelude.{◌≡◌};
ghost use Rattle.longdust.specs.Checks.{gc_bad, xdrop_bad, too_short_of, request_checks, refusal};
ghost use Rattle.checks.specs.Checks.{first};
ghost use Rattle.checks.specs.Refusal.{number_of};
ghost use Rattle.longdust.specs.Buffers.{lent_by};

use crate::{Lent, LongdustOptions};
use checks::{
    Refusal, below_intervals, below_sum, check_sequence, min_start_below, threshold_bad,
    too_many_letters,
};
use intervals::MarksOut;
use letters::below_n_kmers;
use mask::Workspace;
use tables::GcOption;

/// Check 7: a fixed GC is not a number, or outside 0 to 1.
#[tactic(auto, unfolding(crate::specs::Checks::gc_bad))]
pub fn gc_bad(gc: GcOption) -> bool
    ensures { result ≡ gc_bad gc }
{
    matches!(gc, GcOption::Fixed(x) if !((0.0 <= x) & (x <= 1.0)))
}

/// Check 9: xdrop is 0.
#[tactic(auto, unfolding(crate::specs::Checks::xdrop_bad))]
pub fn xdrop_bad(xdrop: Option<u32>) -> bool
    ensures { result ≡ xdrop_bad xdrop }
{
    matches!(xdrop, Some(l) if l == 0)
}

// Check 11: a lent buffer is shorter than listed.
#[tactic(auto, unfolding(crate::specs::Checks::too_short_of))]
fn too_short(n: usize, k: usize, w: usize, lent: Lent) -> bool
    ensures { result ≡ too_short_of n k w lent }
{
    below_sum(lent.ln, w, 1)
        | below_sum(lent.f, w, 2)
        | (lent.queue < w)
        | below_n_kmers(lent.window_counts, k)
        | below_n_kmers(lent.scan_counts, k)
        | (lent.candidates < w)
        | (lent.codes < n)
        | (lent.reverse_codes < n)
        | below_intervals(lent.forward_list, n, k)
        | below_intervals(lent.reverse_list, n, k)
        | below_intervals(lent.list, n, k)
        | below_intervals(lent.marks, n, k)
}

/// How many entries the lent buffers have.
pub fn lent(ln: usize, f: usize, codes: usize, work: &Workspace, out: &MarksOut) -> Lent
    ensures { result ≡ lent_by ln f codes work.now out.now }
{
    Lent {
        ln,
        f,
        queue: work.queue.len(),
        window_counts: work.window_counts.len(),
        scan_counts: work.scan_counts.len(),
        candidates: work.candidates.len(),
        codes,
        reverse_codes: work.reverse_codes.len(),
        forward_list: work.forward_list.len(),
        reverse_list: work.reverse_list.len(),
        list: out.list.len(),
        marks: out.marks.len(),
    }
}

/// The first check that fails, where it is known whether a lent buffer is too short.
pub fn check_request(
    options: LongdustOptions,
    sequence: &[u8],
    too_short: bool,
) -> Result<(), Refusal>
    ensures { number_of result ≡ first (request_checks options sequence.now too_short) }
{
    check_sequence(sequence, options.kmer, options.window_size)?;
    if threshold_bad(options.score_threshold) {
        return Err(Refusal::BadThreshold);
    }
    if gc_bad(options.gc) {
        return Err(Refusal::BadGc);
    }
    if min_start_below(options.min_start_cnt) {
        return Err(Refusal::MinStartBelow);
    }
    if xdrop_bad(options.xdrop) {
        return Err(Refusal::BadXdrop);
    }
    if too_many_letters(sequence.len()) {
        return Err(Refusal::TooManyLetters);
    }
    if too_short {
        return Err(Refusal::ShortSlice);
    }
    Ok(())
}

/// The first check of a masking call that fails.
pub fn check(options: LongdustOptions, sequence: &[u8], lent: Lent) -> Result<(), Refusal>
    ensures { number_of result ≡ refusal options sequence.now lent }
{
    let short = too_short(sequence.len(), options.kmer, options.window_size, lent);
    check_request(options, sequence, short)
}
