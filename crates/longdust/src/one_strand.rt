// One strand of a request, masked alone.

ghost use Rattle.std.specs.Prelude.{◌≡◌, ◌≤◌, length, take};
ghost use Rattle.buffers.specs.Fill.{put};
ghost use Rattle.longdust.specs.Strand.{strand_codes, strand_too_short, strand_lends, SameStrandSpace};
ghost use Rattle.longdust.specs.Terms.Alone.{StrandAdmitted, StrandRan};

use crate::run::{in_range, prepare};
use crate::{Answer, LongdustOptions, Tables};
use checks::{below_intervals, below_sum};
use intervals::Interval;
use letters::below_n_kmers;
use scans::{ForwardPosition, Setup};

/// The work space that one strand is lent, whatever it holds, and where its list goes: for n letters, k-mers of k, a window of w.
#[derive(Drop)]
pub struct StrandSpace<'a> {
    /// The window's places as entries: w of them.
    pub queue: &'a mut [u32],
    /// How often each k-mer stands in the window: 4^k counts.
    pub window_counts: &'a mut [u16],
    /// How often each k-mer stands in a scan: 4^k counts.
    pub scan_counts: &'a mut [u16],
    /// The candidates of a scan: w of them.
    pub candidates: &'a mut [ForwardPosition],
    /// The strand's codes: n of them.
    pub codes: &'a mut [u8],
    /// The strand's intervals: room for (n + 1) / (k + 1).
    pub list: &'a mut [Interval],
}

/// Check 11 for one strand: a lent buffer is shorter than listed.
#[tactic(auto, unfolding(crate::specs::Strand::strand_too_short))]
pub fn strand_too_short(n: usize, k: usize, w: usize, tables: &Tables, space: &StrandSpace) -> bool
    ensures { let t = tables.now in
        result ≡ strand_too_short n k w (strand_lends t.ln.now t.f.now space.now) }
{
    below_sum(tables.ln.len(), w, 1)
        | below_sum(tables.f.len(), w, 2)
        | (space.queue.len() < w)
        | below_n_kmers(space.window_counts.len(), k)
        | below_n_kmers(space.scan_counts.len(), k)
        | (space.candidates.len() < w)
        | (space.codes.len() < n)
        | below_intervals(space.list.len(), n, k)
}

/// Writes the strand's codes to the front of `codes`, which has n entries or more.
pub fn encode_strand(sequence: &[u8], reverse: bool, codes: &mut [u8])
    requires { length sequence.now ≤ length codes.old }
    ensures { codes.new ≡ put (strand_codes reverse sequence.now) codes.old }
{
    if reverse {
        letters::encode_reverse_complement(sequence, codes);
    } else {
        letters::encode_sequence(sequence, codes);
    }
}

/// Runs an accepted request on the n codes in the front of its space: writes the strand's list, and answers its count and the flag.
pub fn mask_strand(
    options: LongdustOptions,
    n: usize,
    tables: &Tables,
    space: &mut StrandSpace,
) -> Answer
    requires { let t = tables.now in
        StrandAdmitted options n (strand_lends t.ln.now t.f.now space.old) }
    ensures ran { StrandRan options n (strand_lends tables.now.ln.now tables.now.f.now space.old)
        (strand_lends tables.now.ln.now tables.now.f.now space.new) result }
    ensures same_space { SameStrandSpace space.old space.new }
{
    let w = options.window_size;
    let ln = &tables.ln[..w + 1];
    let f = &tables.f[..w + 2];
    let in_range = in_range(options, ln, f);
    let setup = Setup {
        params: prepare(options, in_range, n, ln, f),
        ln,
        f,
    };
    let queue = &mut space.queue[..];
    let window_counts = &mut space.window_counts[..];
    let scan_counts = &mut space.scan_counts[..];
    let candidates = &mut space.candidates[..];
    let codes = &mut space.codes[..n];
    let list = &mut space.list[..];
    let count = mask::strand_list(
        &setup,
        codes,
        queue,
        window_counts,
        scan_counts,
        candidates,
        list,
    );
    Answer { count, in_range }
}
