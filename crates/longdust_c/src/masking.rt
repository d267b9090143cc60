// The call on filled tables.
// A twin of `longdust_process`: an export cannot be generic, and what both share would take more than seven parameters.
// Kinds cross as numbers: include/longdust.h lends them so.

ghost use Rattle.longdust_c.specs.Numbers.{options_of};
ghost use Rattle.longdust.specs.Buffers.{buffers};
ghost use Rattle.longdust.specs.Call.{Kept};
ghost use Rattle.longdust_c.specs.Exported.{Exported};

use crate::numbers::{gc_choice, returned_mask, xdrop_choice};
use intervals::{Interval, MarksOut};
use longdust::{LongdustOptions, Tables};
use mask::Workspace;
use scans::ForwardPosition;

/// `longdust::process_tables` on numbers and slices. Returns the interval count, or minus the refusal's number, and sets the flag.
#[unsafe(no_mangle)]
pub extern "C" fn longdust_process_tables(
    sequence: &[u8],
    kmer: usize,
    window_size: usize,
    score_threshold: f64,
    gc_kind: u32,
    gc_value: f64,
    xdrop_set: u32,
    xdrop_length: u32,
    min_start_cnt: u16,
    approx: u32,
    forward_only: u32,
    ln: &[f64],
    f: &[f64],
    queue: &mut [u32],
    window_counts: &mut [u16],
    scan_counts: &mut [u16],
    candidates: &mut [ForwardPosition],
    codes: &mut [u8],
    reverse_codes: &mut [u8],
    forward_list: &mut [Interval],
    reverse_list: &mut [Interval],
    list: &mut [Interval],
    marks: &mut [u8],
    in_range: &mut u32,
) -> i64
    ensures { Exported Kept
        (options_of kmer window_size score_threshold gc_kind gc_value xdrop_set xdrop_length
        min_start_cnt approx forward_only)
        sequence.now
        (buffers ln.now f.now queue.old window_counts.old scan_counts.old
        candidates.old codes.old reverse_codes.old
        forward_list.old reverse_list.old list.old marks.old)
        (buffers ln.now f.now queue.new window_counts.new scan_counts.new
        candidates.new codes.new reverse_codes.new
        forward_list.new reverse_list.new list.new marks.new)
        result in_range.new }
{
    let options = LongdustOptions {
        window_size,
        score_threshold,
        kmer,
        gc: gc_choice(gc_kind, gc_value),
        xdrop: xdrop_choice(xdrop_set, xdrop_length),
        min_start_cnt,
        approx: approx != 0,
        forward_only: forward_only != 0,
    };
    let mut work = Workspace {
        queue,
        window_counts,
        scan_counts,
        candidates,
        reverse_codes,
        forward_list,
        reverse_list,
    };
    let mut out = MarksOut { list, marks };
    let tables = Tables { ln, f };
    let answer = longdust::process_tables(sequence, options, &tables, codes, &mut work, &mut out);
    returned_mask(answer, in_range)
}
