// Deep mode: exact scores of all starts of a window, kept while searches read much of it. Each is a sum of whole numbers of 2^-32, so that nothing drifts;
// what two of them tell that are 2^-10 apart holds of the floats of the definition.
//
// Each of the newest places has a cell, at its number modulo 8,192. The cells of 64 places in a row are a block.
//
// | kept | here |
// |---|---|
// | T, the tables and the drop limit in whole numbers | wholes: `scale_of`, `limit_of` |
// | of each cell its count, which a walk along the chain of a k-mer's places raises | cells: `Deep::begin`, `Deep::join` |
// | of each block the sum of what its places gain, and a bound on the sums of its newest | cells: each cell that is written; blocks: `Deep::refine` |
// | told: no start can be found | told: `Deep::none_found`; where some may score 0, short: `Deep::none_ends` |
// | told: the start that is found | found: `Deep::finds` |
//
// A place that leaves changes nothing: the oldest place's number is one more.

#![tactic(auto)]

mod blocks;
mod cells;
mod found;
mod short;
mod told;
mod wholes;

pub use wholes::{limit_of, scale_of};

/// T and the two tables, in whole numbers of 2^-32.
#[derive(Clone, Copy)]
pub struct Scale<'a> {
    pub threshold: u64,
    pub ln: &'a [u64],
    pub f: &'a [u64],
}

/// A place of the window: its queue entry, how often its k-mer stands from it to the newest place (0 if ambiguous),
/// and the cell of the last place before it whose k-mer has the same low bits.
#[derive(Clone, Copy)]
pub struct Cell {
    pub entry: u32,
    pub count: u16,
    pub link: u16,
}

/// Of 64 cells in a row: the sum of what their places gain, and a bound on the sums from one of them to the last, each less T and `phi` a place.
#[derive(Clone, Copy)]
pub struct Block {
    pub sum: u64,
    /// At least each of these sums plus 2^60.
    pub top: u64,
    pub phi: u64,
}

/// The starts that may score 0: from place `from` of the window on, but for its `low` newest places.
#[derive(Clone, Copy)]
pub struct Middle {
    pub from: usize,
    pub low: usize,
}

/// A start of `size` places that may be what a search finds: what its places gain, how many of the newest places have starts that are low,
/// and the drop limit in whole numbers.
#[derive(Clone, Copy)]
pub struct Lead {
    pub size: usize,
    pub gain: u64,
    pub low: usize,
    pub limit: u64,
}

/// The lent memory: 8,192 cells, 1,024 heads of chains, 128 blocks.
#[derive(Drop)]
pub struct Deep<'a> {
    pub cells: &'a mut [Cell],
    pub heads: &'a mut [u16],
    pub blocks: &'a mut [Block],
}
