// The call that fills the two tables before the requests that read them.

ghost use Rattle.std.specs.Prelude.{◌≡◌, length, OnOk, OnErr};
ghost use Rattle.buffers.specs.Fill.{put};
ghost use Rattle.buffers.specs.Free.{Free};
ghost use Rattle.checks.specs.Refusal.{number_of, flag_by, flag_unless};
ghost use Rattle.scans.specs.Range.{in_range};
ghost use Rattle.tables.specs.Logarithm.{EntriesWithin};
ghost use Rattle.longdust.specs.Mask.{setup};
ghost use Rattle.longdust.specs.Filling.{ln_filled, f_filled, filling_refusal};

use crate::LongdustOptions;
use crate::refusals::gc_bad;
use crate::run::in_range;
use checks::{Refusal, below_sum, kmer_outside, threshold_bad, window_above};

// The first check that fails, for n letters and slices of these lengths.
fn check(
    options: LongdustOptions,
    n: usize,
    ln: usize,
    f: usize,
    codes: usize,
) -> Result<(), Refusal>
    ensures { number_of result ≡ filling_refusal options n ln f codes }
{
    let w = options.window_size;
    if kmer_outside(options.kmer) {
        return Err(Refusal::KmerOutside);
    }
    if below_sum(w, options.kmer, 1) {
        return Err(Refusal::WindowBelow);
    }
    if window_above(w) {
        return Err(Refusal::WindowAbove);
    }
    if threshold_bad(options.score_threshold) {
        return Err(Refusal::BadThreshold);
    }
    if gc_bad(options.gc) {
        return Err(Refusal::BadGc);
    }
    if below_sum(ln, w, 1) | below_sum(f, w, 2) | (codes < n) {
        return Err(Refusal::ShortSlice);
    }
    Ok(())
}

/// Fills `ln` and `f` for the options' k, w, threshold and GC, as `process` does; the other options are not read.
/// The letters count where GC is their own share, else any will do, and none. They are not checked.
/// Returns the flag, or refusal 1, 4, 5, 6, 7 or 11.
pub fn fill_tables(
    sequence: &[u8],
    options: LongdustOptions,
    ln: &mut [f64],
    f: &mut [f64],
    codes: &mut [u8],
) -> Result<bool, Refusal>
    ensures refusal { number_of result
        ≡ filling_refusal options (length sequence.now)
        (length ln.old) (length f.old) (length codes.old) }
    ensures flag { flag_by (λ flag. flag) result
        ≡ flag_unless
        (filling_refusal options (length sequence.now)
        (length ln.old) (length f.old) (length codes.old))
        (in_range (setup options (ln_filled options) (f_filled options sequence.now))) }
    ensures ln { OnOk result (ln.new ≡ put (ln_filled options) ln.old) }
    ensures within { OnOk result (EntriesWithin options.window_size ln.new) }
    ensures f { OnOk result (f.new ≡ put (f_filled options sequence.now) f.old) }
    ensures codes { OnOk result (Free (length sequence.now) codes.old codes.new) }
    ensures same_ln { OnErr result (ln.new ≡ ln.old) }
    ensures same_f { OnErr result (f.new ≡ f.old) }
    ensures same_codes { OnErr result (codes.new ≡ codes.old) }
{
    let w = options.window_size;
    check(options, sequence.len(), ln.len(), f.len(), codes.len())?;
    letters::encode_sequence(sequence, codes);
    let codes = &codes[..sequence.len()];
    tables::fill_tables(ln, f, options.kmer, w, options.gc, codes);
    Ok(in_range(options, &ln[..w + 1], &f[..w + 2]))
}
