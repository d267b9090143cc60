// What the words of a command line and the first bytes of a file say: numbers, sizes, what a run holds, the lines of a plan, the kind of a file.

#![tactic(auto)]

mod held;
mod kinds;
mod numbers;
mod plans;
mod scores;
mod sizes;

pub use held::{fixed_bytes, letter_tenths};
pub use kinds::{Kind, kind_of};
pub use numbers::number;
pub use plans::{add_line, add_number};
pub use scores::score;
pub use sizes::size;
