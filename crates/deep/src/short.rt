// Where some starts may score 0: whether none of them can be best at the newest place, which a walk over the newest places may tell.

ghost use Rattle.std.specs.Prelude.{◌≡◌, true, ◌+◌, ◌/◌, ◌%◌, ◌<◌, ◌≤◌, length, get_or, drop, replicate};
ghost use Rattle.letters.specs.Terms.Entry.{decode};
ghost use Rattle.scans.specs.Terms.Counted.{Counted};
ghost use Rattle.scans.specs.Terms.Run.{entries_of, KmersCounted};
ghost use Rattle.deep.specs.Terms.Blocks.{Narrow};
ghost use Rattle.deep.specs.Terms.Cells.{Held};
ghost use Rattle.deep.specs.Terms.Short.{order_left, AllShort, NoneBut};

use crate::cells::CELLS;
use crate::told::MU;
use crate::{Cell, Deep, Middle, Scale};
use letters::kmer_of;
use scans::{Ring, raise_entry};

// What the place of a cell adds to the places of a stretch that are older, the counts being those of the stretch.
pub fn added(scale: &Scale, cell: Cell, counts: &[u16]) -> u64
    requires narrow { Narrow scale.now }
    requires kmer_counted { cell.entry % 2 ≡ 0 → cell.entry / 2 < length counts.now }
    requires few { get_or counts.now (cell.entry / 2) 0 ≤ 8064 }
    requires within { cell.entry % 2 ≡ 0 → (0 < cell.count) × (cell.count ≤ get_or counts.now (cell.entry / 2) 0 + 1) }
    ensures { result ≡ get_or scale.now.ln.now (order_left counts.now cell.count (decode cell.entry)) 0 }
{
    let Some(kmer) = kmer_of(cell.entry) else {
        return 0;
    };
    scale.ln[(counts[kmer] + 1 - cell.count) as usize]
}

// Counts the entries from `from` on, from cleared counts.
pub fn count_from(ring: &Ring, from: usize, counts: &mut [u16])
    requires kmers_counted { KmersCounted ring.now (length counts.old) }
    requires inside { from ≤ ring.now.len }
    requires clear { counts.old ≡ replicate (length counts.old) 0 }
    ensures { Counted (length counts.old) counts.new (drop from (entries_of ring.now)) }
{
    for i in from..ring.len {
        raise_entry(counts, ring.queue[ring.index(i)]);
    }
}

impl<'a> Deep<'a> {
    // From the newest place back, over places that are newer than the middle: what they add to a stretch from its oldest place, whose counts are given.
    // They add no more to one from a newer place, and f grows by no less over them than it does in one from its newest:
    // where the sum falls short of that and T for each, each of these scores was higher before them.
    fn newest_short(
        &self,
        scale: &Scale,
        ring: &Ring,
        oldest: usize,
        middle: Middle,
        counts: &[u16],
    ) -> bool
        requires inside { middle.from + middle.low < ring.now.len }
        requires window_small { ring.now.len ≤ 8064 }
        requires numbers { oldest ≤ 4294967295 }
        requires f_long { ring.now.len < length scale.now.f.now }
        requires kmers_counted { KmersCounted ring.now (length counts.now) }
        requires counted { Counted (length counts.now) counts.now (drop middle.from (entries_of ring.now)) }
        requires narrow { Narrow scale.now }
        requires held { Held scale.now oldest (entries_of ring.now) self.now }
        ensures { result ≡ true → AllShort scale.now (entries_of ring.now) middle }
    {
        let whole = scale.f[middle.low + 1];
        let mut sum = 0;
        for read in 1..middle.low + 1 {
            let cell = self.cells[(oldest + ring.len - read) % CELLS];
            sum += added(scale, cell, counts);
            if sum + scale.f[middle.low + 1 - read] + MU
                <= (read as u64) * scale.threshold + whole
            {
                return true;
            }
        }
        false
    }

    /// Whether the newest places tell that no start of the middle can be found, where all others are low. A no says nothing.
    /// The scan counts are cleared before and after.
    pub fn none_ends(
        &self,
        scale: &Scale,
        ring: &Ring,
        oldest: usize,
        middle: Middle,
        counts: &mut [u16],
    ) -> bool
        requires inside { middle.from + middle.low < ring.now.len }
        requires window_small { ring.now.len ≤ 8064 }
        requires numbers { oldest ≤ 4294967295 }
        requires f_long { ring.now.len < length scale.now.f.now }
        requires kmers_counted { KmersCounted ring.now (length counts.old) }
        requires clear { counts.old ≡ replicate (length counts.old) 0 }
        requires narrow { Narrow scale.now }
        requires held { Held scale.now oldest (entries_of ring.now) self.now }
        ensures told { result ≡ true → NoneBut scale.now (entries_of ring.now) middle }
        ensures cleared { counts.new ≡ counts.old }
    {
        count_from(ring, middle.from, counts);
        let told = self.newest_short(scale, ring, oldest, middle, counts);
        ring.clear_from(middle.from, counts);
        told
    }
}
