// The masker with buffers of its own, for one record after the other: its refusal, or its mask and marks.

#![tactic(auto)]

mod calls;
mod checking;
mod maker;
mod masker;
mod tables_kept;
mod tables_lent;
mod work;

pub use checking::{check, most_rows};
pub use maker::Maker;
pub use masker::Masker;
pub use tables_lent::TableRoom;
