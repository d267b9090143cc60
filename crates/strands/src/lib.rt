// One strand of a record masked alone, its list as bytes, and the lists of both strands joined.

#![tactic(auto)]

mod bytes;
mod joining;
mod masking;
mod recording;

pub use bytes::{encode_list, read_list};
pub use joining::{Joiner, Joining, put_joined};
pub use masking::StrandMasker;
pub use recording::{StrandRecorder, put_strand};
