// The call that a record asks for, on slices of the sizes that it names.

ghost use Rattle.std.specs.Prelude.{◌≡◌, ◌≤◌, length};
ghost use Rattle.intervals.specs.Out.{SameOut};
ghost use Rattle.replay.specs.Call.{size, filling, Formulas, Replayed};

use checks::Refusal;
use intervals::{Interval, MarksOut};
use longdust::{Answer, LongdustOptions, Tables};
use mask::Workspace;
use scans::ForwardPosition;

// A request that is lent slices has k at most 6, w at most 64 and n at most 200.

/// Room for its ln table.
pub const LN_ROOM: usize = 65;

/// Room for its f table.
pub const F_ROOM: usize = 66;

/// Room for its letters.
pub const LETTERS_ROOM: usize = 200;

/// Room for its intervals.
pub const LIST_ROOM: usize = 100;

// What a record names in place of the short slice where all are empty.
const ALL_EMPTY: u32 = 13;

/// How many entries slice `number` of the call has: as many as listed, one less if it is the short one, none if all
/// are empty; at most `room`.
#[tactic(auto, unfolding(crate::specs::Call::size))]
pub fn entries(number: u32, short: u32, listed: usize, room: usize) -> usize
    ensures value { result ≡ size number short listed room }
    ensures in_bounds { result ≤ room }
{
    if short == ALL_EMPTY {
        return 0;
    }
    if short != number {
        return listed.min(room);
    }
    listed.saturating_sub(1).min(room)
}

// Whether a record lends no tables and there is room for those of the formulas.
#[tactic(auto, unfolding(crate::specs::Call::filling))]
fn fills(lent: bool, k: usize, w: usize) -> bool
    ensures { result ≡ filling lent k w }
{
    !lent & (k <= 12) & (w <= 64)
}

/// Fills the tables by their formulas, unless the record lends them.
pub fn fill_tables(
    lent: bool,
    sequence: &[u8],
    options: LongdustOptions,
    ln: &mut [f64],
    f: &mut [f64],
)
    requires few { length sequence.now ≤ 200 }
    requires ln_len { length ln.old ≡ 65 }
    requires f_len { length f.old ≡ 66 }
    ensures { Formulas lent options sequence.now ln.old f.old ln.new f.new }
{
    if !fills(lent, options.kmer, options.window_size) {
        return;
    }
    let n = sequence.len();
    let gc = options.gc;
    let mut codes = [0u8; LETTERS_ROOM];
    letters::encode_sequence(sequence, &mut codes);
    tables::fill_tables(ln, f, options.kmer, options.window_size, gc, &codes[..n]);
}

fn some_candidates() -> [ForwardPosition; 64] {
    [ForwardPosition {
        pos: 0xdead_beef,
        max_score: 1e300,
    }; 64]
}

/// A list full of arbitrary intervals.
pub fn some_intervals() -> [Interval; LIST_ROOM]
    ensures { length result ≡ 100 }
{
    [Interval {
        start: 0xdead_beef,
        end: 0xdead_beef,
    }; LIST_ROOM]
}

/// The answer to a request by these tables, on buffers full of arbitrary numbers, so that it cannot rest on zeros.
pub fn answer(
    short: u32,
    sequence: &[u8],
    options: LongdustOptions,
    tables: &Tables,
    out: &mut MarksOut,
) -> Result<Answer, Refusal>
    ensures replayed { Replayed options sequence.now tables.now.ln.now tables.now.f.now
        out.old.list.now out.new.list.now out.old.marks.now out.new.marks.now result }
    ensures same { SameOut out.old out.new }
{
    let n = sequence.len();
    let k = options.kmer.min(6);
    let w = options.window_size.min(64);
    let kmers = letters::n_kmers(k);
    let most = (n + 1) / (k + 1);
    let queue_size = entries(3, short, w, 64);
    let window_counts_size = entries(4, short, kmers, 4096);
    let scan_counts_size = entries(5, short, kmers, 4096);
    let candidates_size = entries(6, short, w, 64);
    let codes_size = entries(7, short, n, LETTERS_ROOM);
    let reverse_codes_size = entries(8, short, n, LETTERS_ROOM);
    let forward_list_size = entries(9, short, most, LIST_ROOM);
    let reverse_list_size = entries(10, short, most, LIST_ROOM);
    let mut queue = [0xdead_beefu32; 64];
    let mut window_counts = [0xbeefu16; 4096];
    let mut scan_counts = [0xbeefu16; 4096];
    let mut candidates = some_candidates();
    let mut codes = [0xeeu8; LETTERS_ROOM];
    let mut reverse_codes = [0xeeu8; LETTERS_ROOM];
    let mut forward_list = some_intervals();
    let mut reverse_list = some_intervals();
    let mut work = Workspace {
        queue: &mut queue[..queue_size],
        window_counts: &mut window_counts[..window_counts_size],
        scan_counts: &mut scan_counts[..scan_counts_size],
        candidates: &mut candidates[..candidates_size],
        reverse_codes: &mut reverse_codes[..reverse_codes_size],
        forward_list: &mut forward_list[..forward_list_size],
        reverse_list: &mut reverse_list[..reverse_list_size],
    };
    let codes = &mut codes[..codes_size];
    longdust::process_tables(sequence, options, tables, codes, &mut work, out)
}
