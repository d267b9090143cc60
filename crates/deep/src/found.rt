// Whether a start is what the search at the newest place finds.

ghost use Rattle.std.specs.Prelude.{◌≡◌, true, false, ◌+◌, ◌-◌, ◌<◌, ◌≤◌, length, drop, replicate, IfSome};
ghost use Rattle.scans.specs.Terms.Counted.{Counted};
ghost use Rattle.scans.specs.Terms.Run.{entries_of, KmersCounted};
ghost use Rattle.deep.specs.Scores.{loss};
ghost use Rattle.deep.specs.Terms.Blocks.{Narrow};
ghost use Rattle.deep.specs.Terms.Cells.{Held};
ghost use Rattle.deep.specs.Terms.Told.{LowTo};
ghost use Rattle.deep.specs.Terms.Found.{Gains, Middling, OlderBelow, LeadsAt, EndsBest, FindsAt};

use crate::cells::{CELLS, gain_of};
use crate::short::{added, count_from};
use crate::told::{MU, is_low};
use crate::{Deep, Lead, Scale};
use scans::Ring;

// Above what a stretch loses: no start was read.
const UNREAD: u64 = 1152921504606846976;

// What so many places lose.
fn loss_of(scale: &Scale, places: usize) -> u64
    requires few { places ≤ 8064 }
    requires f_long { places < length scale.now.f.now }
    requires narrow { Narrow scale.now }
    ensures is { result ≡ loss scale.now.threshold scale.now.f.now places }
    ensures small { result < 18014398509481984 }
{
    (places as u64) * scale.threshold + scale.f[places]
}

impl<'a> Deep<'a> {
    // What the `low` newest places gain, where no start among them may be found.
    fn starts_low(&self, scale: &Scale, ring: &Ring, oldest: usize, low: usize) -> Option<u64>
        requires inside { low < ring.now.len }
        requires window_small { ring.now.len ≤ 8064 }
        requires numbers { oldest ≤ 4294967295 }
        requires f_long { ring.now.len < length scale.now.f.now }
        requires narrow { Narrow scale.now }
        requires held { Held scale.now oldest (entries_of ring.now) self.now }
        ensures { IfSome result (λ gain. Gains scale.now (entries_of ring.now) low gain × LowTo scale.now (entries_of ring.now) low) }
    {
        let mut gain = 0;
        for read in 1..low + 1 {
            gain += gain_of(scale, self.cells[(oldest + ring.len - read) % CELLS]);
            if !is_low(scale, gain, read) {
                return None;
            }
        }
        Some(gain)
    }

    // What all places newer than the lead's oldest gain, where each start of more than `low` of them is lower than the lead,
    // and none is lower by the drop limit than a start that was read before it.
    fn holds_steady(
        &self,
        scale: &Scale,
        ring: &Ring,
        oldest: usize,
        lead: Lead,
        newest: u64,
    ) -> Option<u64>
        requires inside { (lead.low < lead.size) × (lead.size ≤ ring.now.len) }
        requires small { (lead.gain < 2305843009213693952) × (lead.limit < 2305843009213693952) }
        requires window_small { ring.now.len ≤ 8064 }
        requires numbers { oldest ≤ 4294967295 }
        requires f_long { ring.now.len < length scale.now.f.now }
        requires narrow { Narrow scale.now }
        requires held { Held scale.now oldest (entries_of ring.now) self.now }
        requires newest { Gains scale.now (entries_of ring.now) lead.low newest }
        ensures { IfSome result (λ gain. Gains scale.now (entries_of ring.now) (lead.size - 1) gain × Middling scale.now (entries_of ring.now) lead (lead.size - 1)) }
    {
        let least = loss_of(scale, lead.size);
        let mut gain = newest;
        let mut best_gain = 0;
        let mut best_loss = UNREAD;
        for read in lead.low + 1..lead.size {
            gain += gain_of(scale, self.cells[(oldest + ring.len - read) % CELLS]);
            let loss = loss_of(scale, read);
            if gain + MU + least > lead.gain + loss {
                return None;
            }
            if best_gain + MU + loss > gain + lead.limit + best_loss {
                return None;
            }
            if best_gain + loss < gain + best_loss {
                best_gain = gain;
                best_loss = loss;
            }
        }
        Some(gain)
    }

    // Whether all older starts are lower than the lead.
    fn older_below(&self, scale: &Scale, ring: &Ring, oldest: usize, lead: Lead) -> bool
        requires inside { (0 < lead.size) × (lead.size ≤ ring.now.len) }
        requires window_small { ring.now.len ≤ 8064 }
        requires numbers { oldest ≤ 4294967295 }
        requires f_long { ring.now.len < length scale.now.f.now }
        requires narrow { Narrow scale.now }
        requires held { Held scale.now oldest (entries_of ring.now) self.now }
        requires lead { Gains scale.now (entries_of ring.now) lead.size lead.gain }
        ensures { result ≡ true → OlderBelow scale.now (entries_of ring.now) lead ring.now.len }
    {
        let least = loss_of(scale, lead.size);
        let mut gain = lead.gain;
        for read in lead.size + 1..ring.len + 1 {
            gain += gain_of(scale, self.cells[(oldest + ring.len - read) % CELLS]);
            if gain + MU + least > lead.gain + loss_of(scale, read) {
                return false;
            }
        }
        true
    }

    // Whether the lead leads.
    fn leads(&self, scale: &Scale, ring: &Ring, oldest: usize, lead: Lead) -> bool
        requires inside { (lead.low < lead.size) × (lead.size ≤ ring.now.len) }
        requires window_small { ring.now.len ≤ 8064 }
        requires numbers { oldest ≤ 4294967295 }
        requires f_long { ring.now.len < length scale.now.f.now }
        requires narrow { Narrow scale.now }
        requires held { Held scale.now oldest (entries_of ring.now) self.now }
        requires small { (lead.gain < 2305843009213693952) × (lead.limit < 2305843009213693952) }
        ensures { result ≡ true → LeadsAt scale.now lead.limit (entries_of ring.now) (ring.now.len - lead.size) }
    {
        let Some(newest) = self.starts_low(scale, ring, oldest, lead.low) else {
            return false;
        };
        let Some(newer) = self.holds_steady(scale, ring, oldest, lead, newest) else {
            return false;
        };
        let gain = newer + gain_of(scale, self.cells[(oldest + ring.len - lead.size) % CELLS]);
        if gain != lead.gain {
            return false;
        }
        if gain < MU + loss_of(scale, lead.size) {
            return false;
        }
        self.older_below(scale, ring, oldest, lead)
    }

    // Whether the lead's places score less wherever they end before the newest place; the counts are theirs.
    fn ends_best(
        &self,
        scale: &Scale,
        ring: &Ring,
        oldest: usize,
        size: usize,
        counts: &[u16],
    ) -> bool
        requires inside { (0 < size) × (size ≤ ring.now.len) }
        requires window_small { ring.now.len ≤ 8064 }
        requires numbers { oldest ≤ 4294967295 }
        requires f_long { ring.now.len < length scale.now.f.now }
        requires kmers_counted { KmersCounted ring.now (length counts.now) }
        requires counted { Counted (length counts.now) counts.now (drop (ring.now.len - size) (entries_of ring.now)) }
        requires narrow { Narrow scale.now }
        requires held { Held scale.now oldest (entries_of ring.now) self.now }
        ensures { result ≡ true → EndsBest scale.now (entries_of ring.now) (ring.now.len - size) }
    {
        let least = loss_of(scale, size);
        let mut sum = 0;
        for read in 1..size {
            let cell = self.cells[(oldest + ring.len - read) % CELLS];
            sum += added(scale, cell, counts);
            if MU + least > sum + loss_of(scale, size - read) {
                return false;
            }
        }
        true
    }

    /// Whether the search at the newest place finds the lead, told by whole numbers; the counts are then those of its places. A no says nothing.
    pub fn finds(
        &self,
        scale: &Scale,
        ring: &Ring,
        oldest: usize,
        lead: Lead,
        counts: &mut [u16],
    ) -> bool
        requires inside { (lead.low < lead.size) × (lead.size ≤ ring.now.len) }
        requires small { (lead.gain < 2305843009213693952) × (lead.limit < 2305843009213693952) }
        requires window_small { ring.now.len ≤ 8064 }
        requires numbers { oldest ≤ 4294967295 }
        requires f_long { ring.now.len < length scale.now.f.now }
        requires kmers_counted { KmersCounted ring.now (length counts.old) }
        requires clear { counts.old ≡ replicate (length counts.old) 0 }
        requires narrow { Narrow scale.now }
        requires held { Held scale.now oldest (entries_of ring.now) self.now }
        ensures told { result ≡ true → FindsAt scale.now lead.limit (entries_of ring.now) (ring.now.len - lead.size) }
        ensures counted { result ≡ true → Counted (length counts.old) counts.new (drop (ring.now.len - lead.size) (entries_of ring.now)) }
        ensures cleared { result ≡ false → counts.new ≡ counts.old }
    {
        if !self.leads(scale, ring, oldest, lead) {
            return false;
        }
        let from = ring.len - lead.size;
        count_from(ring, from, counts);
        if self.ends_best(scale, ring, oldest, lead.size, counts) {
            return true;
        }
        ring.clear_from(from, counts);
        false
    }
}
