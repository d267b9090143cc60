// The call that fills the tables alone.
// Kinds cross as numbers: include/longdust.h lends them so.

ghost use Rattle.std.specs.Prelude.{◌≡◌, ◌<◌, length};
ghost use Rattle.buffers.specs.Fill.{put};
ghost use Rattle.buffers.specs.Free.{Free};
ghost use Rattle.checks.specs.Refusal.{flag_unless};
ghost use Rattle.scans.specs.Range.{in_range as in_range_of};
ghost use Rattle.longdust.specs.Mask.{setup};
ghost use Rattle.longdust.specs.Filling.{ln_filled, f_filled, filling_refusal};
ghost use Rattle.longdust_c.specs.Numbers.{table_options, count_or, flag as flag_number};

use crate::numbers::{gc_choice, minus_number};
use longdust::LongdustOptions;

/// `longdust::fill_tables` on numbers and slices. Returns 0, or minus the refusal's number, and sets the flag.
#[unsafe(no_mangle)]
pub extern "C" fn longdust_fill_tables(
    sequence: &[u8],
    kmer: usize,
    window_size: usize,
    score_threshold: f64,
    gc_kind: u32,
    gc_value: f64,
    ln: &mut [f64],
    f: &mut [f64],
    codes: &mut [u8],
    in_range: &mut u32,
) -> i64
    ensures number { let options = table_options kmer window_size score_threshold
        gc_kind gc_value in
        let number = filling_refusal options (length sequence.now)
        (length ln.old) (length f.old) (length codes.old) in
        result ≡ count_or number 0 }
    ensures flag { let options = table_options kmer window_size score_threshold
        gc_kind gc_value in
        let number = filling_refusal options (length sequence.now)
        (length ln.old) (length f.old) (length codes.old) in
        in_range.new ≡ flag_number (flag_unless number
        (in_range_of (setup options (ln_filled options) (f_filled options sequence.now)))) }
    ensures ln { let options = table_options kmer window_size score_threshold
        gc_kind gc_value in
        let number = filling_refusal options (length sequence.now)
        (length ln.old) (length f.old) (length codes.old) in
        number ≡ 0 → ln.new ≡ put (ln_filled options) ln.old }
    ensures f { let options = table_options kmer window_size score_threshold
        gc_kind gc_value in
        let number = filling_refusal options (length sequence.now)
        (length ln.old) (length f.old) (length codes.old) in
        number ≡ 0 → f.new ≡ put (f_filled options sequence.now) f.old }
    ensures codes { let options = table_options kmer window_size score_threshold
        gc_kind gc_value in
        let number = filling_refusal options (length sequence.now)
        (length ln.old) (length f.old) (length codes.old) in
        number ≡ 0 → Free (length sequence.now) codes.old codes.new }
    ensures same_ln { let options = table_options kmer window_size score_threshold
        gc_kind gc_value in
        let number = filling_refusal options (length sequence.now)
        (length ln.old) (length f.old) (length codes.old) in
        0 < number → ln.new ≡ ln.old }
    ensures same_f { let options = table_options kmer window_size score_threshold
        gc_kind gc_value in
        let number = filling_refusal options (length sequence.now)
        (length ln.old) (length f.old) (length codes.old) in
        0 < number → f.new ≡ f.old }
    ensures same_codes { let options = table_options kmer window_size score_threshold
        gc_kind gc_value in
        let number = filling_refusal options (length sequence.now)
        (length ln.old) (length f.old) (length codes.old) in
        0 < number → codes.new ≡ codes.old }
{
    let options = LongdustOptions {
        window_size,
        score_threshold,
        kmer,
        gc: gc_choice(gc_kind, gc_value),
        xdrop: Some(50),
        min_start_cnt: 3,
        approx: false,
        forward_only: false,
    };
    match longdust::fill_tables(sequence, options, ln, f, codes) {
        Ok(flag) => {
            *in_range = flag as u32;
            0
        }
        Err(refusal) => {
            *in_range = 0;
            minus_number(refusal)
        }
    }
}
