// The public calls.

pub mod fill_tables;
pub mod merge_strands;
pub mod process;
pub mod process_in;
pub mod process_strand;
pub mod process_tables;
