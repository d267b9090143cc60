// A file of any size, entry by entry: the records of FASTA as they came, read from a reader, each with what is written for it.

#![tactic(auto)]

mod failed;
mod held;
mod reading;
mod records;
mod sums;
mod writing;

pub use failed::Failed;
pub use held::{HeldEntry, LineRun};
pub use reading::next_entry;
pub use records::{Recorder, put_records};
pub use sums::{Sums, read_sums, sums_in, write_sums};
pub use writing::write_whole;
