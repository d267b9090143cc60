// The strongest stretch at a letter: of the stretches up to a place, the one that scores highest, read backward within a budget of steps.

#![tactic(auto)]

mod places;
mod refusals;
mod scores;

ghost use Rattle.std.specs.Prelude.{◌≡◌, ◌^◌, ◌≤◌, ◌<◌, length, IfOk, OnErr};
ghost use Rattle.checks.specs.Refusal.{number_of, count_by, count_unless};
ghost use Rattle.strongest.specs.Strongest.{steps};
ghost use Rattle.strongest.specs.declared.Strongest.{Strongest};
ghost use Rattle.strongest.specs.Call.{asked_of, Found};
ghost use Rattle.strongest.specs.Checks.{refusal};
ghost use Rattle.strongest.specs.Terms.Reading.{Narrow, ReadsPlaces};

pub use crate::places::Places;
pub use crate::refusals::too_wide;
use crate::refusals::{check, largest};
pub use crate::scores::{Scored, Scoring, difference};
use crate::scores::{Reading, gap_of};
use checks::Refusal;
use letters::{encode_sequence, n_kmers};

/// Which stretches are read, and by what they are scored.
#[derive(Clone, Copy)]
pub struct Request<'a> {
    /// The letters.
    pub sequence: &'a [u8],
    /// k, 1 to 12.
    pub kmer: usize,
    /// The most places that a stretch has.
    pub window_size: usize,
    /// The last place of all stretches.
    pub place: usize,
    /// How many stretches are read at most, 1 or more.
    pub budget: usize,
    pub scoring: Scoring<'a>,
}

/// The best stretch of those read.
#[derive(Clone, Copy)]
pub struct Strongest {
    /// Its first place.
    pub start: usize,
    /// Its score in units of 2^-32.
    pub score: i64,
    /// How many stretches were read.
    pub steps: usize,
    /// By how much one that was not read can score more, in units of 2^-32.
    pub gap: u64,
}

// Reads the last `steps` places before letter `end`: encodes the letters that they need, sets their counts to 0, and judges their stretches.
fn read_places(
    request: &Request,
    end: usize,
    steps: usize,
    codes: &mut [u8],
    scan_counts: &mut [u16],
) -> Reading
    requires kmer_nonzero { 0 < request.now.kmer }
    requires kmer_small { request.now.kmer ≤ 12 }
    requires some_steps { 0 < steps }
    requires steps_inside { steps ≤ end }
    requires steps_small { steps ≤ 65535 }
    requires end_inside { end ≤ length request.now.sequence.now }
    requires codes_room { length request.now.sequence.now ≤ length codes.old }
    requires counts_room { 4 ^ request.now.kmer ≤ length scan_counts.old }
    requires narrow { let s = request.now.scoring in Narrow s.threshold s.ln.now s.f.now steps }
    ensures { let r = request.now in let s = r.scoring in
        ReadsPlaces r.sequence.now r.kmer end steps s.threshold s.ln.now s.f.now result
        codes.old codes.new scan_counts.old scan_counts.new }
{
    let kmer = request.kmer;
    let m = (steps + kmer - 1).min(end);
    encode_sequence(&request.sequence[end - m..end], codes);
    let size = n_kmers(kmer);
    let places = Places {
        letters: &codes[..m],
        kmer,
        steps,
    };
    places.search_back(&request.scoring, &mut scan_counts[..size])
}

/// Of the stretches that end at `place` the best one, and by how much those unread can score more: at most `budget` are read, the shortest first.
/// `codes` and `scan_counts` are work space: n bytes and 4^k counts, whatever they hold. Refusals: 1 to 5, 10, 11, 13, 18, 19, 20.
pub fn strongest_stretch(
    request: &Request,
    codes: &mut [u8],
    scan_counts: &mut [u16],
) -> Result<Strongest, Refusal>
    ensures found { IfOk result
        (Found (asked_of request.now) codes.old codes.new scan_counts.old scan_counts.new) }
    ensures refusal { number_of result
        ≡ refusal (asked_of request.now) (length codes.old) (length scan_counts.old) }
    ensures values { count_by (λ (s : Strongest). s.steps) result
        ≡ count_unless (refusal (asked_of request.now) (length codes.old) (length scan_counts.old))
        (steps (asked_of request.now)) }
    ensures same_codes { OnErr result (codes.new ≡ codes.old) }
    ensures same_counts { OnErr result (scan_counts.new ≡ scan_counts.old) }
{
    check(request, codes.len(), scan_counts.len())?;
    let end = request.place + 1;
    let available = request.window_size.min(end);
    let steps = request.budget.min(available);
    let reading = read_places(request, end, steps, codes, scan_counts);
    let threshold = request.scoring.threshold;
    let most = largest(request.scoring.ln, request.window_size);
    let rise = most.saturating_sub(threshold);
    Ok(Strongest {
        start: end - reading.best.size,
        score: difference(reading.best.gain, reading.best.loss),
        steps,
        gap: gap_of(reading, steps, available - steps, rise, threshold),
    })
}
