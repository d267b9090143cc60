// Both strands: the reverse complement is scanned as the sequence itself is, its list is read backwards, and the two lists are joined. In the Rust this is the second half of `process`.

#![tactic(auto)]

ghost use Rattle.std.specs.Prelude.{◌≡◌, ◌+◌, ◌/◌, ◌^◌, length};
ghost use Rattle.buffers.specs.Free.{Free};
ghost use Rattle.intervals.specs.Merge.{WroteMarked};
ghost use Rattle.intervals.specs.Out.{SameOut};
ghost use Rattle.scans.specs.Terms.Run.{as_setup};
ghost use Rattle.step.specs.Step.{intervals_of};
ghost use Rattle.mask.specs.Lent.{SameBuffers};
ghost use Rattle.mask.specs.Mask.{marked_mask_of};
ghost use Rattle.mask.specs.Terms.Both.{Held, other_intervals, Runs, StrandRoom, ForwardRoom, ReverseRoom, OutRoom, Freed};

use intervals::{Interval, MarksOut};
use scans::{ForwardPosition, Setup};

/// The work space of the runs over both strands, whatever it holds, and the list of each strand: for n letters, k-mers of k,
/// a window of w, and R = (n + 1) / (k + 1).
#[derive(Drop)]
pub struct Workspace<'a> {
    /// The window's places as entries: w of them.
    pub queue: &'a mut [u32],
    /// How often each k-mer stands in the window: 4^k counts.
    pub window_counts: &'a mut [u16],
    /// How often each k-mer stands in a scan: 4^k counts.
    pub scan_counts: &'a mut [u16],
    /// The candidates of a scan: w of them.
    pub candidates: &'a mut [ForwardPosition],
    /// The codes of the reverse complement: n of them.
    pub reverse_codes: &'a mut [u8],
    /// The sequence's own intervals: room for R.
    pub forward_list: &'a mut [Interval],
    /// The reverse complement's intervals: room for R.
    pub reverse_list: &'a mut [Interval],
}

/// Writes the list of a strand of codes, in its own positions, to the front of `list`; returns how many intervals it has.
// The run gets the front of each buffer.
pub fn strand_list(
    setup: &Setup,
    codes: &[u8],
    queue: &mut [u32],
    window_counts: &mut [u16],
    scan_counts: &mut [u16],
    candidates: &mut [ForwardPosition],
    list: &mut [Interval],
) -> usize
    requires runs { Runs setup.now (length codes.now) }
    requires room { StrandRoom setup.now.params (length codes.now)
        (length queue.old) (length window_counts.old) (length scan_counts.old)
        (length candidates.old) (length list.old) }
    ensures list { Held (intervals_of (as_setup setup.now) codes.now) list.new result }
    ensures queue { Free setup.now.params.window_size queue.old queue.new }
    ensures window_counts { Free (4 ^ setup.now.params.kmer) window_counts.old window_counts.new }
    ensures scan_counts { Free (4 ^ setup.now.params.kmer) scan_counts.old scan_counts.new }
    ensures candidates { Free setup.now.params.window_size candidates.old candidates.new }
    ensures rows { Free ((length codes.now + 1) / (setup.now.params.kmer + 1)) list.old list.new }
{
    let w = setup.params.window_size;
    let kmers = letters::n_kmers(setup.params.kmer);
    let rows = (codes.len() + 1) / (setup.params.kmer + 1);
    strand::inner_process(
        setup,
        codes,
        &mut queue[..w],
        &mut window_counts[..kmers],
        &mut scan_counts[..kmers],
        &mut candidates[..w],
        &mut list[..rows],
    )
}

// The list of the sequence, in the front of `forward_list`; returns how many intervals it has.
fn forward_strand(setup: &Setup, codes: &[u8], work: &mut Workspace) -> usize
    requires runs { Runs setup.now (length codes.now) }
    requires room { ForwardRoom setup.now.params (length codes.now) work.old }
    ensures list { Held (intervals_of (as_setup setup.now) codes.now)
        work.new.forward_list.now result }
    ensures freed { Freed setup.now.params (length codes.now) work.old work.new }
    ensures same_buffers { SameBuffers work.old work.new }
{
    let queue = &mut work.queue[..];
    let window_counts = &mut work.window_counts[..];
    let scan_counts = &mut work.scan_counts[..];
    let candidates = &mut work.candidates[..];
    let list = &mut work.forward_list[..];
    strand_list(
        setup,
        codes,
        queue,
        window_counts,
        scan_counts,
        candidates,
        list,
    )
}

/// Writes the list of the reverse complement to the front of `reverse_list`; returns how many intervals it has. A forward-only run has none.
pub fn reverse_strand(
    setup: &Setup,
    forward_only: bool,
    codes: &[u8],
    work: &mut Workspace,
) -> usize
    requires runs { Runs setup.now (length codes.now) }
    requires room { ReverseRoom setup.now.params (length codes.now) work.old }
    ensures list { Held (other_intervals (as_setup setup.now) forward_only codes.now)
        work.new.reverse_list.now result }
    ensures forward { work.new.forward_list.now ≡ work.old.forward_list.now }
    ensures freed { Freed setup.now.params (length codes.now) work.old work.new }
    ensures same_buffers { SameBuffers work.old work.new }
{
    if forward_only {
        return 0;
    }
    let queue = &mut work.queue[..];
    let window_counts = &mut work.window_counts[..];
    let scan_counts = &mut work.scan_counts[..];
    let candidates = &mut work.candidates[..];
    let reverse_codes = &mut work.reverse_codes[..codes.len()];
    let list = &mut work.reverse_list[..];
    letters::reverse_complement_encoded_sequence(codes, reverse_codes);
    strand_list(
        setup,
        reverse_codes,
        queue,
        window_counts,
        scan_counts,
        candidates,
        list,
    )
}

/// Masks a sequence of codes: writes the mask and its marks to `out`, of R entries or more, and returns how many intervals it has.
pub fn both_strands(
    setup: &Setup,
    forward_only: bool,
    codes: &[u8],
    work: &mut Workspace,
    out: &mut MarksOut,
) -> usize
    requires runs { Runs setup.now (length codes.now) }
    requires forward_room { ForwardRoom setup.now.params (length codes.now) work.old }
    requires reverse_room { ReverseRoom setup.now.params (length codes.now) work.old }
    requires room { OutRoom setup.now.params (length codes.now) out.old }
    ensures mask { WroteMarked (marked_mask_of (as_setup setup.now) forward_only codes.now)
        out.old.list.now out.new.list.now out.old.marks.now out.new.marks.now result }
    ensures freed { Freed setup.now.params (length codes.now) work.old work.new }
    ensures same_buffers { SameBuffers work.old work.new }
    ensures same { SameOut out.old out.new }
{
    let forward_count = forward_strand(setup, codes, work);
    let reverse_count = reverse_strand(setup, forward_only, codes, work);
    let forward = &mut work.forward_list[..forward_count];
    let reverse = &mut work.reverse_list[..reverse_count];
    intervals::merge_intervals(forward, reverse, codes.len() as u32, out)
}
