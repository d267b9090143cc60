// Blocks: their sums and bounds read anew.

ghost use Rattle.std.specs.Prelude.{◌≡◌, ◌+◌, ◌-◌, ◌<◌, ◌≤◌, max};
ghost use Rattle.deep.specs.Terms.Blocks.{Narrow, Blocked, BlockOf};

use crate::cells::{BIAS, PLACES, gain_of};
use crate::{Block, Deep, Scale};

// The cells of a block read from the last back: the sum of their gains, what they lose by T and phi, and the bound so far.
#[derive(Clone, Copy)]
struct Reading {
    sum: u64,
    line: u64,
    top: u64,
}

impl Reading {
    // One place more.
    fn next(mut self, gain: u64, less: u64) -> Self
        requires sum_small { self.sum < 72057594037927936 }
        requires gain_small { gain < 137438953472 }
        requires line_small { self.line + less ≤ 1152921504606846976 }
        ensures sum { result.sum ≡ self.sum + gain }
        ensures line { result.line ≡ self.line + less }
        ensures top { result.top ≡ max self.top (1152921504606846976 + result.sum - result.line) }
    {
        self.sum += gain;
        self.line += less;
        self.top = self.top.max(BIAS + self.sum - self.line);
        self
    }
}

impl<'a> Deep<'a> {
    // Block `k` as its cells are, its bound less `phi` a place.
    fn read_block(&self, scale: &Scale, k: usize, phi: u64) -> Block
        requires in_blocks { k < 128 }
        requires phi_small { phi < 9007199254740992 }
        requires narrow { Narrow scale.now }
        requires blocked { Blocked scale.now self.now.cells.now self.now.blocks.now }
        ensures { BlockOf scale.now self.now.cells.now k phi result }
    {
        let less = scale.threshold + phi;
        let mut reading = Reading {
            sum: 0,
            line: 0,
            top: BIAS,
        };
        for read in 0..PLACES {
            let cell = self.cells[k * PLACES + (PLACES - 1 - read)];
            reading = reading.next(gain_of(scale, cell), less);
        }
        Block {
            sum: reading.sum,
            top: reading.top,
            phi,
        }
    }

    /// Block `k` gets its bound anew, less `phi` a place: at most by how much f grows from one place to the next where the block's places are the newest.
    pub fn refine(&mut self, scale: &Scale, k: usize, phi: u64)
        requires in_blocks { k < 128 }
        requires phi_small { phi < 9007199254740992 }
        requires narrow { Narrow scale.now }
        requires blocked { Blocked scale.now self.old.cells.now self.old.blocks.now }
        ensures cells { self.new.cells.now ≡ self.old.cells.now }
        ensures heads { self.new.heads.now ≡ self.old.heads.now }
        ensures blocked { Blocked scale.now self.new.cells.now self.new.blocks.now }
    {
        self.blocks[k] = self.read_block(scale, k, phi);
    }
}
