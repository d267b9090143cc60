// The small profile's call: numbers and byte slices alone, in work space of its own.
// Kinds cross as numbers: include/longdust.h lends them so.

ghost use Rattle.std.specs.Prelude.{◌≡◌, ◌<◌, length};
ghost use Rattle.buffers.specs.Fill.{put};
ghost use Rattle.small.specs.Bytes.{bytes_of};
ghost use Rattle.small.specs.Call.{filled_mask};
ghost use Rattle.small.specs.Profile.{refusal};
ghost use Rattle.longdust_c.specs.Numbers.{small_options, count_or};

use crate::numbers::{returned, xdrop_choice};
use longdust::LongdustOptions;
use tables::GcOption;

/// `small::write_mask` on numbers and byte slices. Returns the number of intervals, or minus the refusal's number.
#[unsafe(no_mangle)]
pub extern "C" fn longdust_small(
    sequence: &[u8],
    kmer: usize,
    window_size: usize,
    score_threshold: f64,
    xdrop_set: u32,
    xdrop_length: u32,
    min_start_cnt: u16,
    approx: u32,
    forward_only: u32,
    out: &mut [u8],
) -> i64
    ensures number { let options = small_options kmer window_size score_threshold
        xdrop_set xdrop_length min_start_cnt approx forward_only in
        result ≡ count_or (refusal options sequence.now (length out.old))
        (length (filled_mask options sequence.now)) }
    ensures accepted { let options = small_options kmer window_size score_threshold
        xdrop_set xdrop_length min_start_cnt approx forward_only in
        refusal options sequence.now (length out.old) ≡ 0
        → out.new ≡ put (bytes_of (filled_mask options sequence.now)) out.old }
    ensures refused { let options = small_options kmer window_size score_threshold
        xdrop_set xdrop_length min_start_cnt approx forward_only in
        0 < refusal options sequence.now (length out.old) → out.new ≡ out.old }
{
    let options = LongdustOptions {
        window_size,
        score_threshold,
        kmer,
        gc: GcOption::Uniform,
        xdrop: xdrop_choice(xdrop_set, xdrop_length),
        min_start_cnt,
        approx: approx != 0,
        forward_only: forward_only != 0,
    };
    returned(small::write_mask(sequence, options, out))
}
