// The call on filled tables with work buffers of its own.

ghost use Rattle.std.specs.Prelude.{◌≡◌, ◌≤◌, length, IfOk, OnOk, OnErr};
ghost use Rattle.checks.specs.Refusal.{number_of, count_of, count_unless};
ghost use Rattle.intervals.specs.Interval.{Canonical, Wrote};
ghost use Rattle.longdust.specs.Buffers.{lent_sizes};
ghost use Rattle.longdust.specs.Checks.{refusal};
ghost use Rattle.longdust.specs.Mask.{mask_by};

use crate::{LongdustOptions, Tables, process_tables};
use checks::Refusal;
use intervals::{Interval, MarksOut};
use mask::Workspace;
use scans::ForwardPosition;

/// Masks `letters` by filled tables, in work buffers of its own: W places, K counts, N letters and R intervals.
/// No request needs more than their bounds below.
/// The intervals go to the front of the list; returns their number, or a refusal as `process_tables`.
pub fn process_in<const W: usize, const K: usize, const N: usize, const R: usize>(
    letters: &[u8],
    options: LongdustOptions,
    tables: &Tables,
    list: &mut [Interval],
) -> Result<usize, Refusal>
    requires w_bound { W ≤ 65535 }
    requires k_bound { K ≤ 16777216 }
    requires n_bound { N ≤ 2147483647 }
    requires r_bound { R ≤ 1073741824 }
    ensures refusal { let t = tables.now in
        number_of result ≡ refusal options letters.now
        (lent_sizes W K N R (length t.ln.now) (length t.f.now) (length list.old)) }
    ensures values { let t = tables.now in
        count_of result ≡ count_unless (refusal options letters.now
        (lent_sizes W K N R (length t.ln.now) (length t.f.now) (length list.old)))
        (length (mask_by options letters.now t.ln.now t.f.now)) }
    ensures list { IfOk result
        (Wrote (mask_by options letters.now tables.now.ln.now tables.now.f.now) list.old list.new) }
    ensures shape { OnOk result (Canonical (length letters.now) options.kmer
        (mask_by options letters.now tables.now.ln.now tables.now.f.now)) }
    ensures err { OnErr result (list.new ≡ list.old) }
{
    let mut queue = [0u32; W];
    let mut window_counts = [0u16; K];
    let mut scan_counts = [0u16; K];
    let mut candidates = [ForwardPosition {
        pos: 0,
        max_score: 0.0,
    }; W];
    let mut codes = [0u8; N];
    let mut reverse_codes = [0u8; N];
    let mut forward_list = [Interval { start: 0, end: 0 }; R];
    let mut reverse_list = [Interval { start: 0, end: 0 }; R];
    let mut marks = [0u8; R];
    let mut work = Workspace {
        queue: &mut queue,
        window_counts: &mut window_counts,
        scan_counts: &mut scan_counts,
        candidates: &mut candidates,
        reverse_codes: &mut reverse_codes,
        forward_list: &mut forward_list,
        reverse_list: &mut reverse_list,
    };
    let mut out = MarksOut {
        list,
        marks: &mut marks,
    };
    let answer = process_tables(letters, options, tables, &mut codes, &mut work, &mut out)?;
    Ok(answer.count)
}
