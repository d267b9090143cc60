// The call for the strongest stretch at a letter.

ghost use Rattle.std.specs.Prelude.{◌≡◌, ◌<◌, ◌^◌, pos, length};
ghost use Rattle.buffers.specs.Free.{Free};
ghost use Rattle.strongest.specs.Strongest.{steps, start as best_start, best_score, gap as best_gap};
ghost use Rattle.strongest.specs.Call.{asked};
ghost use Rattle.strongest.specs.Checks.{refusal};
ghost use Rattle.longdust_c.specs.Numbers.{count_or};

use crate::numbers::minus_number;
use strongest::{Request, Scoring};

/// `strongest::strongest_stretch` on numbers and slices: sets start, score and gap, to 0 where the request is refused.
/// Returns the steps made, or minus the refusal's number.
#[unsafe(no_mangle)]
pub extern "C" fn longdust_strongest_stretch(
    sequence: &[u8],
    kmer: usize,
    window_size: usize,
    place: usize,
    budget: usize,
    threshold: u64,
    ln: &[u64],
    f: &[u64],
    codes: &mut [u8],
    scan_counts: &mut [u16],
    start: &mut u64,
    score: &mut i64,
    gap: &mut u64,
) -> i64
    ensures number { let Q = asked sequence.now kmer window_size place budget
        threshold ln.now f.now in
        result ≡ count_or (refusal Q (length codes.old) (length scan_counts.old)) (steps Q) }
    ensures start { let Q = asked sequence.now kmer window_size place budget
        threshold ln.now f.now in
        refusal Q (length codes.old) (length scan_counts.old) ≡ 0 → start.new ≡ best_start Q }
    ensures score { let Q = asked sequence.now kmer window_size place budget
        threshold ln.now f.now in
        refusal Q (length codes.old) (length scan_counts.old) ≡ 0 → score.new ≡ best_score Q }
    ensures gap { let Q = asked sequence.now kmer window_size place budget
        threshold ln.now f.now in
        refusal Q (length codes.old) (length scan_counts.old) ≡ 0 → gap.new ≡ best_gap Q }
    ensures codes { let Q = asked sequence.now kmer window_size place budget
        threshold ln.now f.now in
        refusal Q (length codes.old) (length scan_counts.old) ≡ 0
        → Free (length sequence.now) codes.old codes.new }
    ensures scan_counts { let Q = asked sequence.now kmer window_size place budget
        threshold ln.now f.now in
        refusal Q (length codes.old) (length scan_counts.old) ≡ 0
        → Free (4 ^ kmer) scan_counts.old scan_counts.new }
    ensures no_start { let Q = asked sequence.now kmer window_size place budget
        threshold ln.now f.now in
        0 < refusal Q (length codes.old) (length scan_counts.old) → start.new ≡ 0 }
    ensures no_score { let Q = asked sequence.now kmer window_size place budget
        threshold ln.now f.now in
        0 < refusal Q (length codes.old) (length scan_counts.old) → score.new ≡ pos 0 }
    ensures no_gap { let Q = asked sequence.now kmer window_size place budget
        threshold ln.now f.now in
        0 < refusal Q (length codes.old) (length scan_counts.old) → gap.new ≡ 0 }
    ensures same_codes { let Q = asked sequence.now kmer window_size place budget
        threshold ln.now f.now in
        0 < refusal Q (length codes.old) (length scan_counts.old) → codes.new ≡ codes.old }
    ensures same_counts { let Q = asked sequence.now kmer window_size place budget
        threshold ln.now f.now in
        0 < refusal Q (length codes.old) (length scan_counts.old)
        → scan_counts.new ≡ scan_counts.old }
{
    let request = Request {
        sequence,
        kmer,
        window_size,
        place,
        budget,
        scoring: Scoring { threshold, ln, f },
    };
    match strongest::strongest_stretch(&request, codes, scan_counts) {
        Ok(found) => {
            *start = found.start as u64;
            *score = found.score;
            *gap = found.gap;
            found.steps as i64
        }
        Err(refusal) => {
            *start = 0;
            *score = 0;
            *gap = 0;
            minus_number(refusal)
        }
    }
}
