// The letters that are not searched from.

ghost use Rattle.std.specs.Prelude.{◌≡◌, false, ◌^◌, ◌<◌, ◌≤◌, length};
ghost use Rattle.strand.specs.Terms.ReadingOn.{Read, Skimmed};

use scans::Setup;
use step::State;

// Goes on to the next letter that is searched from, which enters the window, or to the end. While `LIVE` a carried scan goes on with it;
// else all scan counts are 0, they stay so, and no scan is carried.
fn skim_as<const LIVE: bool>(
    setup: &Setup,
    from: State,
    codes: &[u8],
    queue: &mut [u32],
    window_counts: &mut [u16],
    scan_counts: &mut [u16],
) -> State
    requires kmer_bound { (setup.now.params.kmer ≤ 12) × (length codes.now < 2147483648) × (setup.now.params.window_size < length setup.now.f.now)
        × (length scan_counts.old ≡ 4 ^ setup.now.params.kmer) }
    requires read { Read setup.now.params codes.now setup.now.ln.now setup.now.f.now from queue.old window_counts.old scan_counts.old }
    requires clear { LIVE ≡ false → from.window.live ≡ false }
    ensures { Skimmed setup.now.params codes.now setup.now.ln.now setup.now.f.now from result queue.old
        scan_counts.old queue.new window_counts.new scan_counts.new }
{
    let mut st = from;
    // A `while`, since the next letter stands in the state.
    while st.i < codes.len() {
        st = st.enter(setup, codes, queue, window_counts, scan_counts);
        if st.is_searched(setup, window_counts) {
            return st;
        }
        if LIVE {
            st = st.passed(setup, queue, window_counts, scan_counts);
            continue;
        }
        st.i += 1;
    }
    st
}

// Goes on to the next letter that is searched from, which enters the window, or to the end.
pub fn skim(
    setup: &Setup,
    from: State,
    codes: &[u8],
    queue: &mut [u32],
    window_counts: &mut [u16],
    scan_counts: &mut [u16],
) -> State
    requires kmer_bound { (setup.now.params.kmer ≤ 12) × (length codes.now < 2147483648) × (setup.now.params.window_size < length setup.now.f.now)
        × (length scan_counts.old ≡ 4 ^ setup.now.params.kmer) }
    requires read { Read setup.now.params codes.now setup.now.ln.now setup.now.f.now from queue.old window_counts.old scan_counts.old }
    ensures { Skimmed setup.now.params codes.now setup.now.ln.now setup.now.f.now from result queue.old
        scan_counts.old queue.new window_counts.new scan_counts.new }
{
    if from.window.live {
        return skim_as::<true>(setup, from, codes, queue, window_counts, scan_counts);
    }
    skim_as::<false>(setup, from, codes, queue, window_counts, scan_counts)
}
