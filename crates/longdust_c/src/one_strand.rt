// The call that masks one strand.
// Kinds cross as numbers: include/longdust.h lends them so.

ghost use Rattle.longdust_c.specs.Numbers.{options_of, yes};
ghost use Rattle.longdust_c.specs.Exported.{StrandExported};
ghost use Rattle.longdust.specs.Strand.{strand_buffers};

use crate::numbers::{gc_choice, returned_mask, xdrop_choice};
use intervals::Interval;
use longdust::{LongdustOptions, StrandSpace, Tables};
use scans::ForwardPosition;

/// `longdust::process_strand` on numbers and slices: of the sequence's own strand, or where `reverse` is not 0 of its reverse complement.
/// Returns the strand's interval count, or minus the refusal's number, and sets the flag.
#[unsafe(no_mangle)]
pub extern "C" fn longdust_strand(
    sequence: &[u8],
    kmer: usize,
    window_size: usize,
    score_threshold: f64,
    gc_kind: u32,
    gc_value: f64,
    xdrop_set: u32,
    xdrop_length: u32,
    min_start_cnt: u16,
    approx: u32,
    reverse: u32,
    ln: &[f64],
    f: &[f64],
    queue: &mut [u32],
    window_counts: &mut [u16],
    scan_counts: &mut [u16],
    candidates: &mut [ForwardPosition],
    codes: &mut [u8],
    list: &mut [Interval],
    in_range: &mut u32,
) -> i64
    ensures { StrandExported
        (options_of kmer window_size score_threshold gc_kind gc_value xdrop_set xdrop_length
        min_start_cnt approx 0)
        (yes reverse) sequence.now
        (strand_buffers ln.now f.now queue.old window_counts.old scan_counts.old
        candidates.old codes.old list.old)
        (strand_buffers ln.now f.now queue.new window_counts.new scan_counts.new
        candidates.new codes.new list.new)
        result in_range.new }
{
    let options = LongdustOptions {
        window_size,
        score_threshold,
        kmer,
        gc: gc_choice(gc_kind, gc_value),
        xdrop: xdrop_choice(xdrop_set, xdrop_length),
        min_start_cnt,
        approx: approx != 0,
        forward_only: false,
    };
    let mut space = StrandSpace {
        queue,
        window_counts,
        scan_counts,
        candidates,
        codes,
        list,
    };
    let tables = Tables { ln, f };
    let answer = longdust::process_strand(sequence, options, reverse != 0, &tables, &mut space);
    returned_mask(answer, in_range)
}
