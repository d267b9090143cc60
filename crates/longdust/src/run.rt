// The run of an accepted request: its numbers, its flag, and its mask.

ghost use Rattle.std.specs.Prelude.{◌≡◌, ◌&&◌, ◌-◌, ◌<◌, length, nat_lt};
ghost use Rattle.scans.specs.Range.{table_in_range, in_range};
ghost use Rattle.scans.specs.Terms.Shape.{usual_to};
ghost use Rattle.intervals.specs.Out.{SameOut};
ghost use Rattle.mask.specs.Lent.{SameBuffers};
ghost use Rattle.longdust.specs.Buffers.{lends, lengths};
ghost use Rattle.longdust.specs.Mask.{setup};
ghost use Rattle.longdust.specs.Terms.Inner.{Bounds, Admitted, Prepared, Ran};

use crate::{Answer, LongdustOptions, Tables};
use intervals::MarksOut;
use mask::Workspace;
use scans::{Params, Setup};

// The ends of demand 3's ranges: of the threshold and the ln entries, and of the f entries.
const LN_END: f64 = 16.0;

const F_END: f64 = 1048576.0;

// Whether entries 1..w of a table lie in 0..high.
fn table_in_range(table: &[f64], w: usize, high: f64) -> bool
    requires { w < length table.now }
    ensures { result ≡ table_in_range high table.now w }
{
    table[1..w + 1].iter().all(|x| (0.0 <= *x) & (*x <= high))
}

/// The flag: whether T and the table entries 1 to w are in the specification's ranges.
#[tactic(auto, unfolding(scans::specs::Range::in_range, crate::specs::Mask::setup))]
pub fn in_range(options: LongdustOptions, ln: &[f64], f: &[f64]) -> bool
    requires ln_long { options.window_size < length ln.now }
    requires f_long { options.window_size < length f.now }
    ensures { result ≡ in_range (setup options ln.now f.now) }
{
    let ln_ok = table_in_range(ln, options.window_size, LN_END);
    let f_ok = table_in_range(f, options.window_size, F_END);
    (options.score_threshold <= LN_END) & (ln_ok & f_ok)
}

// Whether the tables are in range and of the usual shape. The shape is tested only for sequences longer than the window, where the test is little of the work.
fn usual_tables(in_range: bool, n: usize, w: usize, ln: &[f64], f: &[f64]) -> bool
    requires some { 0 < w }
    requires ln_long { w < length ln.now }
    requires f_long { w < length f.now }
    ensures { result ≡ (in_range && (nat_lt w n && usual_to ln.now f.now (w - 1))) }
{
    if !in_range {
        return false;
    }
    if n <= w {
        return false;
    }
    scans::is_usual(ln, f, w)
}

/// The numbers that a run over n letters goes by; `flag` is the request's.
// The tables come as two slices: of a slice it is known that its floats are of 64 bits, of `Tables` it is not.
pub fn prepare(options: LongdustOptions, flag: bool, n: usize, ln: &[f64], f: &[f64]) -> Params
    requires bounds { Bounds options }
    requires ln_long { options.window_size < length ln.now }
    requires f_long { options.window_size < length f.now }
    requires in_range_value { flag ≡ in_range (setup options ln.now f.now) }
    ensures { Prepared options ln.now f.now result }
{
    let w = options.window_size as u32;
    let threshold = options.score_threshold;
    let xdrop = options.xdrop;
    Params {
        kmer: options.kmer,
        window_size: options.window_size,
        min_start_cnt: options.min_start_cnt,
        score_threshold: threshold,
        drop_limit: scans::drop_limit(xdrop, w, threshold),
        approx: options.approx,
        max_test: scans::max_test(ln, f, w, threshold),
        usual: usual_tables(flag, n, options.window_size, ln, f),
    }
}

/// Runs an accepted request on its codes, by filled tables: writes the mask to `out`, and answers its count and the flag.
pub fn mask_encoded(
    options: LongdustOptions,
    codes: &[u8],
    tables: &Tables,
    work: &mut Workspace,
    out: &mut MarksOut,
) -> Answer
    requires { let t = tables.now in
        Admitted options (length codes.now)
        (lengths (lends t.ln.now t.f.now codes.now work.old out.old)) }
    ensures ran { Ran options codes.now
        (lends tables.now.ln.now tables.now.f.now codes.now work.old out.old)
        (lends tables.now.ln.now tables.now.f.now codes.now work.new out.new) result }
    ensures same_buffers { SameBuffers work.old work.new }
    ensures same { SameOut out.old out.new }
{
    let w = options.window_size;
    let ln = &tables.ln[..w + 1];
    let f = &tables.f[..w + 2];
    let in_range = in_range(options, ln, f);
    let setup = Setup {
        params: prepare(options, in_range, codes.len(), ln, f),
        ln,
        f,
    };
    let count = mask::both_strands(&setup, options.forward_only, codes, work, out);
    Answer { count, in_range }
}
