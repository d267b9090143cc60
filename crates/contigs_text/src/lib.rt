// What `contigs` prints for a file: a line for each interval of each record, or why it is refused.

#![tactic(auto)]

mod lines;
mod listing;
mod printing;

pub use printing::{LIMITS, print_file, print_limited};

/// The most that is taken.
#[derive(Clone, Copy)]
pub struct Limits {
    /// The most bytes of a file.
    pub bytes: u32,
    /// The most letters of a record.
    pub letters: u32,
}
