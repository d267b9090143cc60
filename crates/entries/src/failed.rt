// Why a file was not done to its end.

use fasta::Fault;
use std::io::Error;

/// Why a file was not done to its end.
#[derive(Drop)]
pub enum Failed {
    /// It is no FASTA from here on.
    Faulty(Fault),
    /// It could not be read.
    Reading(Error),
    /// The text of its records could not be written.
    Writing(Error),
    /// What is said of its records could not be written.
    Saying(Error),
    /// There was no memory for a record.
    NoMemory,
}
