// One strand: the run over its letters and the intervals that it saves. What the Rust's `inner_process` became, whose single letter is in crate `step`:
//
// | the Rust | here |
// |---|---|
// | its loop | skim: `skim` over letters that are not searched from, in `until_scan` over letters without a backward scan, in `inner_process` |
//
// known: `foretell` leaves backward scans out whose answer is told, by a carried scan or by low starts.

#![tactic(auto)]

mod known;
mod skim;

ghost use Rattle.std.specs.Prelude.{◌≡◌, IfSome, length, replicate};
ghost use Rattle.scans.specs.Terms.Run.{as_setup};
ghost use Rattle.scans.specs.Terms.Shape.{Shaped};
ghost use Rattle.step.specs.Terms.Entering.{unread};
ghost use Rattle.strand.specs.Terms.LowStarts.{KnownLow};
ghost use Rattle.strand.specs.Terms.Running.{PartLent, StrandLent, Before, Reached, StrandList};

use crate::known::{LowSince, foretell, renewed};
use crate::skim::skim;
use intervals::Interval;
use scans::Setup;
use step::{Look, State};

// Where a run stands: its state, and the low starts that are known.
#[derive(Clone, Copy)]
struct Progress {
    state: State,
    low: Option<LowSince>,
}

// No letter is read, and the counts are cleared.
fn begin(window_counts: &mut [u16], scan_counts: &mut [u16]) -> State
    ensures { (result ≡ unread) × (window_counts.new ≡ replicate (length window_counts.old) 0)
        × (scan_counts.new ≡ replicate (length scan_counts.old) 0) }
{
    window_counts.fill(0);
    scan_counts.fill(0);
    State::new()
}

// Goes on to the next letter whose backward scan is due and has to be made, with cleared scan counts, or to the end.
fn until_scan(
    setup: &Setup,
    from: Progress,
    codes: &[u8],
    queue: &mut [u32],
    window_counts: &mut [u16],
    scan_counts: &mut [u16],
    list: &mut [Interval],
) -> State
    requires part_lent { PartLent setup.now.params (length codes.now) (length setup.now.f.now) (length scan_counts.old) (length list.old) }
    requires before { Before setup.now.params codes.now setup.now.ln.now setup.now.f.now from.state queue.old window_counts.old scan_counts.old list.old }
    requires shaped { Shaped setup.now.params setup.now.ln.now setup.now.f.now }
    requires known_low { IfSome from.low (KnownLow (as_setup setup.now) codes.now from.state.i) }
    ensures { Reached setup.now.params codes.now setup.now.ln.now setup.now.f.now from.state.i result
        queue.new window_counts.new scan_counts.new list.new }
{
    let mut st = from.state;
    // A `loop`: a turn may read many letters, and the state says where it stands.
    loop {
        st = skim(setup, st, codes, queue, window_counts, scan_counts);
        if st.i >= codes.len() {
            return st;
        }
        let look = st.look(setup, queue, window_counts, scan_counts);
        match look {
            Look::Scan => {
                match foretell(setup, st, from.low, queue, window_counts, scan_counts) {
                    Some(r) => {
                        st = st.answered(setup, r, list);
                    }
                    None => return st,
                }
            }
            Look::Extension => {
                st = st.extended(setup, list);
            }
            Look::Pass => {
                st = st.passed(setup, queue, window_counts, scan_counts);
            }
        }
    }
}

// Takes a strand of codes, the setup and the lent buffers; writes the strand's intervals to the first entries of `list`, in order, and answers how many there are.
pub fn inner_process(
    setup: &Setup,
    codes: &[u8],
    queue: &mut [u32],
    window_counts: &mut [u16],
    scan_counts: &mut [u16],
    candidates: &mut [scans::ForwardPosition],
    list: &mut [Interval],
) -> usize
    requires lent { StrandLent setup.now.params (length codes.now) (length setup.now.ln.now) (length setup.now.f.now) (length queue.old)
        (length window_counts.old) (length scan_counts.old) (length candidates.old)
        (length list.old) }
    requires shaped { Shaped setup.now.params setup.now.ln.now setup.now.f.now }
    ensures { StrandList (as_setup setup.now) codes.now list.new result }
{
    // In a place of its own, where no store through a lent slice can lie, the numbers stay in registers.
    let own = *setup;
    let setup = &own;
    let mut at = Progress {
        state: begin(window_counts, scan_counts),
        low: None,
    };
    // A `loop`, as in `until_scan`, whose turns end with a scan.
    loop {
        let st = until_scan(setup, at, codes, queue, window_counts, scan_counts, list);
        if st.i >= codes.len() {
            return st.hand.close(list);
        }
        let w = st.window;
        let ring = w.ring(queue);
        let r = search::dust_backward(
            setup,
            w.carry,
            w.last_q_index(),
            &ring,
            window_counts,
            scan_counts,
            candidates,
        );
        at.low = renewed(setup, at.low, st.i, r, &ring, window_counts, scan_counts);
        at.state = st.answered(setup, r.scanned, list);
    }
}
