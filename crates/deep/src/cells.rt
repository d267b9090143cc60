// Cells and blocks.

ghost use Rattle.std.specs.Prelude.{◌≡◌, ◌+◌, ◌-◌, ◌/◌, ◌%◌, ◌<◌, ◌≤◌, [], ℕ, length, get_or, replicate, set, take};
ghost use Rattle.letters.specs.Terms.Entry.{decode};
ghost use Rattle.scans.specs.Counts.{count};
ghost use Rattle.scans.specs.Terms.Counted.{Counted};
ghost use Rattle.scans.specs.Terms.Run.{entries_of, KmersCounted};
ghost use Rattle.scans.specs.Terms.Window.{newest_in};
ghost use Rattle.deep.specs.declared.Scale.{Scale};
ghost use Rattle.deep.specs.Scores.{order};
ghost use Rattle.deep.specs.Terms.Blocks.{Narrow, Blocked, worth};
ghost use Rattle.deep.specs.Terms.Cells.{place, cell, Linked, Ordered, Meets, Held};

use crate::{Block, Cell, Deep, Scale};
use letters::kmer_of;
use scans::{Ring, raise_entry};

// A power of two: windows of up to 8,064 places, and two blocks.
pub const CELLS: usize = 8192;

// Chains are told by so many low bits of a k-mer.
const HEADS: usize = 1024;

// A block has 64 cells.
pub const PLACES: usize = 64;

// As many as a window of 8,064 places needs, and two.
pub const BLOCKS: usize = 128;

// What a block's top stands above the sums that it bounds: 2^60.
pub const BIAS: u64 = 1152921504606846976;

impl<'a> Deep<'a> {
    // Writes a cell: its block's sum goes with it, and its top stays a bound.
    fn set_cell(&mut self, scale: &Scale, s: usize, cell: Cell)
        requires in_cells { s < 8192 }
        requires few { cell.count ≤ 8064 }
        requires narrow { Narrow scale.now }
        requires blocked { Blocked scale.now self.old.cells.now self.old.blocks.now }
        ensures cells { self.new.cells.now ≡ set self.old.cells.now s cell }
        ensures heads { self.new.heads.now ≡ self.old.heads.now }
        ensures blocked { Blocked scale.now self.new.cells.now self.new.blocks.now }
    {
        let before = gain_of(scale, self.cells[s]);
        let now = gain_of(scale, cell);
        let mut block = self.blocks[s / PLACES];
        block.sum = block.sum + now - before;
        block.top = block.top.saturating_add(now.saturating_sub(before));
        self.cells[s] = cell;
        self.blocks[s / PLACES] = block;
    }
}

// What the place of a cell gains.
pub fn gain_of(scale: &Scale, cell: Cell) -> u64
    requires narrow { Narrow scale.now }
    requires few { cell.count ≤ 8064 }
    ensures { result ≡ worth scale.now cell }
{
    scale.ln[cell.count as usize]
}

// How many places of the newest one's k-mer were met, and the cell that comes next in their chain.
#[derive(Clone, Copy)]
struct Met {
    times: u16,
    next: u16,
}

impl<'a> Deep<'a> {
    // Cell `s` of the newest place's chain is met, after `times` places of its k-mer.
    fn meet(&mut self, scale: &Scale, entry: u32, s: usize, times: u16) -> Met
        requires in_cells { s < 8192 }
        requires few { times < 8064 }
        requires narrow { Narrow scale.now }
        requires blocked { Blocked scale.now self.old.cells.now self.old.blocks.now }
        ensures met { Meets entry s times result self.old.cells.now self.new.cells.now }
        ensures heads { self.new.heads.now ≡ self.old.heads.now }
        ensures blocked { Blocked scale.now self.new.cells.now self.new.blocks.now }
    {
        let cell = self.cells[s];
        if cell.entry != entry {
            return Met {
                times,
                next: cell.link,
            };
        }
        let count = times + 1;
        let link = cell.link;
        self.set_cell(scale, s, Cell { entry, count, link });
        Met {
            times: count,
            next: link,
        }
    }

    // The newest place gets its cell, at the front of its chain.
    fn write_newest(&mut self, scale: &Scale, ring: &Ring, oldest: usize, entry: u32)
        requires nonempty { 0 < ring.now.len }
        requires window_small { ring.now.len ≤ 8064 }
        requires numbers { oldest ≤ 4294967295 }
        requires entry { decode entry ≡ place (entries_of ring.now) (ring.now.len - 1) }
        requires narrow { Narrow scale.now }
        requires blocked { Blocked scale.now self.old.cells.now self.old.blocks.now }
        requires linked { Linked oldest (take (ring.now.len - 1) (entries_of ring.now)) self.old.cells.now self.old.heads.now }
        requires older { Ordered oldest (take (ring.now.len - 1) (entries_of ring.now)) 0 (ring.now.len - 1) self.old.cells.now }
        ensures linked { Linked oldest (entries_of ring.now) self.new.cells.now self.new.heads.now }
        ensures older { Ordered oldest (take (ring.now.len - 1) (entries_of ring.now)) 0 (ring.now.len - 1) self.new.cells.now }
        ensures newest { (cell self.new.cells.now (oldest + (ring.now.len - 1))).count ≡ order [] (decode entry) }
        ensures blocked { Blocked scale.now self.new.cells.now self.new.blocks.now }
    {
        let s = (oldest + (ring.len - 1)) % CELLS;
        let Some(kmer) = kmer_of(entry) else {
            let cell = Cell {
                entry,
                count: 0,
                link: 0,
            };
            self.set_cell(scale, s, cell);
            return;
        };
        let head = kmer % HEADS;
        let cell = Cell {
            entry,
            count: 1,
            link: self.heads[head],
        };
        self.set_cell(scale, s, cell);
        self.heads[head] = s as u16;
    }

    // The counts of the older places of the newest one's k-mer rise, which stands `times` times in the window. Its cell is written.
    fn raise(&mut self, scale: &Scale, ring: &Ring, oldest: usize, entry: u32, times: u16)
        requires nonempty { 0 < ring.now.len }
        requires window_small { ring.now.len ≤ 8064 }
        requires numbers { oldest ≤ 4294967295 }
        requires entry { decode entry ≡ place (entries_of ring.now) (ring.now.len - 1) }
        requires plain { entry % 2 ≡ 0 }
        requires times { times ≡ count (entry / 2) (entries_of ring.now) }
        requires narrow { Narrow scale.now }
        requires blocked { Blocked scale.now self.old.cells.now self.old.blocks.now }
        requires linked { Linked oldest (entries_of ring.now) self.old.cells.now self.old.heads.now }
        requires older { Ordered oldest (take (ring.now.len - 1) (entries_of ring.now)) 0 (ring.now.len - 1) self.old.cells.now }
        requires newest { (cell self.old.cells.now (oldest + (ring.now.len - 1))).count ≡ 1 }
        ensures linked { Linked oldest (entries_of ring.now) self.new.cells.now self.new.heads.now }
        ensures ordered { Ordered oldest (entries_of ring.now) 0 ring.now.len self.new.cells.now }
        ensures blocked { Blocked scale.now self.new.cells.now self.new.blocks.now }
    {
        let last = ring.len - 1;
        let newest = self.cells[(oldest + last) % CELLS];
        let mut met = Met {
            times: 1,
            next: newest.link,
        };
        for turn in 1..ring.len {
            if met.times == times {
                return;
            }
            met = self.meet(scale, entry, met.next as usize, met.times);
        }
    }

    // The newest place is written and counted.
    fn count_newest(&mut self, scale: &Scale, ring: &Ring, oldest: usize, times: u16)
        requires nonempty { 0 < ring.now.len }
        requires window_small { ring.now.len ≤ 8064 }
        requires numbers { oldest ≤ 4294967295 }
        requires times { (newest_in ring.now.queue.now ring.now.head ring.now.len % 2 ≡ 0) → times ≡ count (newest_in ring.now.queue.now ring.now.head ring.now.len / 2) (entries_of ring.now) }
        requires narrow { Narrow scale.now }
        requires before { Held scale.now oldest (take (ring.now.len - 1) (entries_of ring.now)) self.old }
        ensures after { Held scale.now oldest (entries_of ring.now) self.new }
    {
        let entry = ring.newest();
        self.write_newest(scale, ring, oldest, entry);
        if entry % 2 == 0 {
            self.raise(scale, ring, oldest, entry, times);
        }
    }

    /// The newest place joins, whose k-mer stands `times` times in the window. A block that it fills gets its bound anew.
    pub fn join(&mut self, scale: &Scale, ring: &Ring, oldest: usize, times: u16)
        requires nonempty { 0 < ring.now.len }
        requires window_small { ring.now.len ≤ 8064 }
        requires numbers { oldest ≤ 4294967295 }
        requires f_long { 1 < length scale.now.f.now }
        requires times { (newest_in ring.now.queue.now ring.now.head ring.now.len % 2 ≡ 0) → times ≡ count (newest_in ring.now.queue.now ring.now.head ring.now.len / 2) (entries_of ring.now) }
        requires narrow { Narrow scale.now }
        requires before { Held scale.now oldest (take (ring.now.len - 1) (entries_of ring.now)) self.old }
        ensures after { Held scale.now oldest (entries_of ring.now) self.new }
    {
        self.count_newest(scale, ring, oldest, times);
        let end = oldest + ring.len;
        if end % PLACES == 0 {
            self.refine(scale, (end - 1) / PLACES % BLOCKS, scale.f[1]);
        }
    }

    /// Nothing is kept, as of a window without places.
    pub fn clear(&mut self)
        requires cells_long { length self.old.cells.now ≡ 8192 }
        requires heads_long { length self.old.heads.now ≡ 1024 }
        requires blocks_long { length self.old.blocks.now ≡ 128 }
        ensures { (scale : Scale) (oldest : ℕ) → get_or scale.ln.now 0 0 ≡ 0 → Held scale oldest [] self.new }
    {
        self.cells.fill(Cell {
            entry: 0,
            count: 0,
            link: 0,
        });
        self.blocks.fill(Block {
            sum: 0,
            top: BIAS,
            phi: 0,
        });
    }

    /// A window's places join one after the other. The scan counts, cleared before, are then those of the window.
    pub fn begin(&mut self, scale: &Scale, ring: &Ring, oldest: usize, counts: &mut [u16])
        requires window_small { ring.now.len ≤ 8064 }
        requires numbers { oldest ≤ 4294967295 }
        requires kmers_counted { KmersCounted ring.now (length counts.old) }
        requires f_long { 1 < length scale.now.f.now }
        requires counts_value { counts.old ≡ replicate (length counts.old) 0 }
        requires narrow { Narrow scale.now }
        requires cells_long { length self.old.cells.now ≡ 8192 }
        requires heads_long { length self.old.heads.now ≡ 1024 }
        requires blocks_long { length self.old.blocks.now ≡ 128 }
        ensures held { Held scale.now oldest (entries_of ring.now) self.new }
        ensures counted { Counted (length counts.old) counts.new (entries_of ring.now) }
    {
        self.clear();
        for len in 1..ring.len + 1 {
            let part = Ring {
                queue: ring.queue,
                head: ring.head,
                len,
            };
            let times = raise_entry(counts, part.newest());
            self.join(scale, &part, oldest, times.unwrap_or(0));
        }
    }
}
