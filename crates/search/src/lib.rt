// The search from a letter: the backward scan notes candidates, forward scans try them. What the Rust's functions became:
//
// | the Rust | here |
// |---|---|
// | `dust_backward`, its first loop | candidates: `scan_backward`, which goes on with `scans::backward_on` from peak to peak |
// | `dust_backward`, its second loop | candidates: `try_candidates`, unless fails: `none_ends` tells that it finds nothing |
// | `dust_backward` as a whole | dust: `dust_backward`, which first asks quick: `find_quickly`, a fast form for the letters after a find |
//
// carried: the last find's forward scan, gone on with letter by letter; kept: the certificate of its start, by which crate `certificates` leaves searches out.

#![tactic(auto)]

mod candidates;
mod carried;
mod dust;
mod fails;
mod kept;
mod quick;

pub use carried::nothing;
pub use dust::dust_backward;
pub use kept::DISTANCE;

// The sum and the best score of the last find's forward scan, carried on to the newest entry while `on`, with a certificate of its start, if there is one.
// `on` is a flag: as an Option, random letters take a tenth longer and E. coli 7 %.
// The entry where it starts is no field: that is last_q, which the window has.
#[derive(Clone, Copy)]
pub struct Carry {
    pub on: bool,
    pub s: f64,
    pub best: f64,
    pub certificate: Option<Certificate>,
}

// While there is one, the start of the carried scan is what a backward scan finds, wherever that scan is best at the newest entry.
#[derive(Clone, Copy)]
pub struct Certificate {
    // How many letters it may still last.
    pub left: usize,
    // How many of the newest entries are near.
    pub near: usize,
    // At least the sum of their ln entries.
    pub h: f64,
    // At least each score of the other low entries.
    pub u: f64,
    // At most what the start scores above an older one.
    pub gap: f64,
}

// One past the index found, 0 for none, and the scan that is carried on.
// A number, as a scan has it, and as the first letter of a find is worked out from it: an Option would be taken apart at each use.
#[derive(Clone, Copy)]
pub struct Scanned {
    pub found: usize,
    pub carry: Carry,
}

// The same, and how many entries the search has read where it noted no candidate, else 0: a count, too small to be worth more than none.
#[derive(Clone, Copy)]
pub struct Answered {
    pub scanned: Scanned,
    pub read: usize,
}
