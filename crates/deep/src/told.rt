// What the search at the newest place finds, where whole numbers tell it.

ghost use Rattle.std.specs.Prelude.{◌≡◌, true, ◌+◌, ◌<◌, ◌≤◌, length, get_or};
ghost use Rattle.scans.specs.Terms.Run.{entries_of};
ghost use Rattle.deep.specs.Scores.{loss};
ghost use Rattle.deep.specs.Terms.Blocks.{no_block, Narrow, Blocked};
ghost use Rattle.deep.specs.Terms.Cells.{Held};
ghost use Rattle.deep.specs.Terms.Told.{LowTo, ReadPart, BlockLow, NewestLow, AllLow, FindsNone};

use crate::cells::{BIAS, BLOCKS, CELLS, PLACES, gain_of};
use crate::{Block, Deep, Scale};
use scans::Ring;

// 2^-10, by which scores must be apart for floats to compare as they do.
pub const MU: u64 = 4194304;

// What the unevenness of f may come to over a block's places.
const UNEVEN: u64 = 1024;

// How many of the newest places were read, and what they gain.
#[derive(Clone, Copy)]
pub struct Part {
    pub gain: u64,
    pub read: usize,
}

// Whether a start of so many places that gain so much scores 2^-10 below 0 or less.
pub fn is_low(scale: &Scale, gain: u64, places: usize) -> bool
    requires gain_small { gain < 4611686018427387904 }
    requires few { places ≤ 8064 }
    requires f_long { places < length scale.now.f.now }
    requires narrow { Narrow scale.now }
    ensures { result ≡ true → gain + 4194304 ≤ loss scale.now.threshold scale.now.f.now places }
{
    gain + MU <= (places as u64) * scale.threshold + scale.f[places]
}

// Whether all starts in a block score so low, the newer places being those of `part`.
fn block_low(scale: &Scale, block: Block, part: Part) -> bool
    requires gain_small { part.gain < 4611686018427387904 }
    requires few { part.read < 8064 }
    requires f_long { part.read + 1 < length scale.now.f.now }
    requires narrow { Narrow scale.now }
    ensures { BlockLow scale.now block part result }
{
    let here = scale.f[part.read];
    let most = (part.gain + MU + UNEVEN).saturating_add(block.top);
    let limit = BIAS + (part.read as u64) * scale.threshold + here;
    (here.saturating_add(block.phi) <= scale.f[part.read + 1]) & (most <= limit)
}

impl<'a> Deep<'a> {
    // The newest places, down to a block's end or to the oldest; none if a start with these alone is not low.
    fn newest_low(&self, scale: &Scale, ring: &Ring, oldest: usize) -> Option<Part>
        requires nonempty { 0 < ring.now.len }
        requires window_small { ring.now.len ≤ 8064 }
        requires numbers { oldest ≤ 4294967295 }
        requires f_long { ring.now.len < length scale.now.f.now }
        requires narrow { Narrow scale.now }
        requires held { Held scale.now oldest (entries_of ring.now) self.now }
        ensures { NewestLow scale.now oldest (entries_of ring.now) result }
    {
        let end = oldest + ring.len;
        let few = ring.len.min((end - 1) % PLACES + 1);
        let mut gain = 0;
        for read in 1..few + 1 {
            gain += gain_of(scale, self.cells[(end - read) % CELLS]);
            if !is_low(scale, gain, read) {
                return None;
            }
        }
        Some(Part { gain, read: few })
    }

    // The same of block `k`, whose bound is made anew if it does not tell.
    fn tells_low(&mut self, scale: &Scale, k: usize, part: Part) -> bool
        requires in_blocks { k < 128 }
        requires gain_small { part.gain < 4611686018427387904 }
        requires few { part.read < 8064 }
        requires f_long { part.read + 1 < length scale.now.f.now }
        requires narrow { Narrow scale.now }
        requires blocked { Blocked scale.now self.old.cells.now self.old.blocks.now }
        ensures low { BlockLow scale.now (get_or self.new.blocks.now k no_block) part result }
        ensures cells { self.new.cells.now ≡ self.old.cells.now }
        ensures heads { self.new.heads.now ≡ self.old.heads.now }
        ensures blocked { Blocked scale.now self.new.cells.now self.new.blocks.now }
    {
        if block_low(scale, self.blocks[k], part) {
            return true;
        }
        let phi = scale.f[part.read + 1].saturating_sub(scale.f[part.read]);
        self.refine(scale, k, phi);
        block_low(scale, self.blocks[k], part)
    }

    // The older places, block by block.
    fn older_low(&mut self, scale: &Scale, ring: &Ring, oldest: usize, newest: Part) -> bool
        requires nonempty { 0 < ring.now.len }
        requires window_small { ring.now.len ≤ 8064 }
        requires numbers { oldest ≤ 4294967295 }
        requires f_long { ring.now.len < length scale.now.f.now }
        requires narrow { Narrow scale.now }
        requires held { Held scale.now oldest (entries_of ring.now) self.old }
        requires read { ReadPart scale.now oldest (entries_of ring.now) newest }
        requires low { LowTo scale.now (entries_of ring.now) newest.read }
        ensures held { Held scale.now oldest (entries_of ring.now) self.new }
        ensures low { AllLow scale.now (entries_of ring.now) result }
    {
        let end = oldest + ring.len;
        let mut part = newest;
        while part.read < ring.len {
            let k = (end - part.read - 1) / PLACES % BLOCKS;
            if !self.tells_low(scale, k, part) {
                return false;
            }
            part = Part {
                gain: part.gain + self.blocks[k].sum,
                read: part.read + PLACES,
            };
        }
        true
    }

    /// Whether blocks tell that no start can be found at the newest place. A no says nothing.
    pub fn none_found(&mut self, scale: &Scale, ring: &Ring, oldest: usize) -> bool
        requires nonempty { 0 < ring.now.len }
        requires window_small { ring.now.len ≤ 8064 }
        requires numbers { oldest ≤ 4294967295 }
        requires f_long { ring.now.len < length scale.now.f.now }
        requires narrow { Narrow scale.now }
        requires held { Held scale.now oldest (entries_of ring.now) self.old }
        ensures held { Held scale.now oldest (entries_of ring.now) self.new }
        ensures told { result ≡ true → FindsNone scale.now (entries_of ring.now) }
    {
        let Some(newest) = self.newest_low(scale, ring, oldest) else {
            return false;
        };
        self.older_low(scale, ring, oldest, newest)
    }
}
