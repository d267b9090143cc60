// The back check, the extension and the two scans over a window of places. What the Rust's functions became:
//
// | the Rust | here |
// |---|---|
// | `process`, its max_test | limits: `max_test` |
// | `extend` | letter: `extend` |
// | `if_backward` | letter: `if_backward`, with `window_value` of counts and `Params::max_steps` of limits |
// | `dust_forward` | forward: `dust_forward`, a `forward_part` for each straight part of the ring |
// | `dust_backward`, its xdrop | limits: `drop_limit` |
// | `dust_backward`, its clearing of the scan counts | queue: `Ring::clear_from`, where a scan touched them |
// | `dust_backward`, its first loop | backward: `backward_on`, from peak to peak, a part of the ring at a time, `backward_low` before the first best place, `backward_part` after it |
//
// What `dust_backward` does with them stands in crate `search`.

#![tactic(auto)]

mod backward;
mod counts;
mod forward;
mod letter;
mod limits;
mod queue;
mod run;

pub use backward::{BackwardState, backward_on};
pub use counts::{count_entry, lower_entry, raise_entry, raised_value, window_value};
pub use forward::{ForwardState, SLACK, dust_forward};
pub use letter::{extend, if_backward};
pub use limits::{drop_limit, is_usual, max_test};
pub use queue::ring_index;
pub use run::{Ring, Setup};

// The numbers that a run goes by. Any make one: that k is at most 12 and the window at most 65,535 is asked by the calls that need it.
#[derive(Clone, Copy)]
pub struct Params {
    pub kmer: usize,
    pub window_size: usize,
    pub min_start_cnt: u16,
    pub score_threshold: f64,
    pub drop_limit: f64,
    pub approx: bool,
    pub max_test: i32,
    // Whether the tables are in range and of the usual shape; only then are scans left out.
    pub usual: bool,
}

// A candidate, with the Rust's names: a place from which a forward scan is tried, with the backward scan's best score when it was noted.
#[repr(C)]
#[derive(Clone, Copy)]
pub struct ForwardPosition {
    pub pos: u32,
    pub max_score: f64,
}
