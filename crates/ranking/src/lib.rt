// The strongest stretches of a record as text: a line each, by rank.

#![tactic(auto)]

mod kmers;
mod lines;
mod ranker;
mod text;
mod units;
mod work;

pub use ranker::{Means, Ranker, Record, Wanted, head};
