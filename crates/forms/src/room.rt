// Room for what is written.

use intervals::Interval;
use masker::TableRoom;
use ranking::Ranker;
use std::alloc::Global;

/// Room for what is written of a record, for the list of its strongest stretches, and for those where a probe may stand.
#[derive(Drop)]
pub struct Room {
    /// A line, the lines of a list, or masked letters.
    pub text: Vec<u8>,
    pub tables: TableRoom,
    pub ranker: Ranker,
    /// A yes or no for each letter.
    pub map: Vec<bool>,
    pub stretches: Vec<Interval>,
}

impl Room {
    pub fn new(alloc: Global) -> Self {
        Room {
            text: Vec::new(alloc),
            tables: TableRoom::new(alloc),
            ranker: Ranker::new(alloc),
            map: Vec::new(alloc),
            stretches: Vec::new(alloc),
        }
    }
}
