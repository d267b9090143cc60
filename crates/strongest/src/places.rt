// The places of a strand, read backward from its last letter, and their scan counts.

ghost use Rattle.std.specs.Prelude.{◌≡◌, ◌+◌, ◌-◌, ◌/◌, ◌^◌, ◌≤◌, ◌<◌, length};
ghost use Rattle.letters.specs.Place.{place_at};
ghost use Rattle.letters.specs.Terms.Entry.{decode};
ghost use Rattle.strongest.specs.Terms.Reading.{cleared_at};

use crate::scores::{Reading, Scoring};
use letters::Kmer;
use scans::raise_entry;

// All counts are set to 0 where they are at most so many for each place that is read.
const FEW: usize = 8;

// So many places are made into queue entries at a time.
const BLOCK: usize = 64;

/// The last `steps` places of a strand, read backward from its last letter.
#[derive(Clone, Copy)]
pub struct Places<'a> {
    /// The codes of its letters.
    pub letters: &'a [u8],
    /// k, 1 to 12.
    pub kmer: usize,
    /// How many places, at most 65,535.
    pub steps: usize,
    ghost kmer_nonzero: { 0 < kmer },
    ghost kmer_small: { kmer ≤ 12 },
    ghost steps_inside: { steps ≤ length letters.now },
    ghost steps_small: { steps ≤ 65535 },
}

impl<'a> Places<'a> {
    ghost use Rattle.strongest.specs.Terms.Reading.{back, Narrow, Reads};
    ghost use Rattle.strongest.specs.Terms.Places.{Known, EntriesBack, Adds};

    // Place i, counted back from the last letter, as a queue entry.
    #[tactic(auto, using(crate::proofs::Backward::slices))]
    fn entry_back(&self, i: usize) -> u32
        requires { i < self.now.steps }
        ensures place { decode result ≡ back self.now.kmer self.now.letters.now i }
        ensures below { result / 2 < 4 ^ self.now.kmer }
    {
        let end = self.letters.len() - i;
        let from = end - self.kmer.min(end);
        last_entry(&self.letters[from..end], self.kmer)
    }

    /// Sets the counts of the places to 0: all counts where they are few, else no other.
    #[tactic(auto, using(crate::proofs::Counting::clearing))]
    pub fn clear_counts(&self, counts: &mut [u16])
        requires { length counts.old ≡ 4 ^ self.now.kmer }
        ensures { Known self.now 0 counts.new }
    {
        if counts.len() <= FEW * self.steps {
            counts.fill(0);
            return;
        }
        for i in 0..self.steps {
            clear_entry(counts, self.entry_back(i));
        }
    }

    /// Writes places i, i + 1 .., counted back from the last letter, as queue entries.
    #[tactic(auto, using(crate::proofs::Backward::rolling))]
    pub fn entries_back(&self, i: usize, entries: &mut [u32])
        requires { i + length entries.old ≤ self.now.steps }
        ensures { EntriesBack self.now i entries.new }
    {
        let end = self.letters.len() - i;
        let first = end - entries.len();
        let needed = &self.letters[first - (self.kmer - 1).min(first)..end];
        let n = needed.len();
        let mut state = Kmer::new();
        for y in 0..n {
            state = state.next(needed[y], self.kmer);
            if n - 1 - y < entries.len() {
                entries[n - 1 - y] = state.entry(self.kmer);
            }
        }
    }

    /// Counts place i, those before it being counted. Returns the ln entry of its raised count, 0 if the place is ambiguous.
    #[tactic(auto, using(crate::proofs::Counting::counting))]
    pub fn count_back(&self, i: usize, entry: u32, ln: &[u64], counts: &mut [u16]) -> u64
        requires inside { i < self.now.steps }
        requires long { self.now.steps < length ln.now }
        requires known { Known self.now i counts.old }
        requires place { decode entry ≡ back self.now.kmer self.now.letters.now i }
        requires below { entry / 2 < 4 ^ self.now.kmer }
        ensures { Adds self.now i ln.now counts.new result }
    {
        match raise_entry(counts, entry) {
            Some(c) => ln[c as usize],
            None => 0,
        }
    }

    // Reads the places from `start` on, those before them being read.
    #[tactic(auto, using(crate::proofs::Reading::reads))]
    fn read_entries(
        &self,
        start: usize,
        entries: &[u32],
        before: Reading,
        scoring: &Scoring,
        counts: &mut [u16],
    ) -> Reading
        requires narrow { let s = scoring.now in
            Narrow s.threshold s.ln.now s.f.now self.now.steps }
        requires inside { start + length entries.now ≤ self.now.steps }
        requires entries { EntriesBack self.now start entries.now }
        requires known { Known self.now start counts.old }
        requires reads { let s = scoring.now in
            Reads self.now.kmer s.threshold s.ln.now s.f.now self.now.letters.now start before }
        ensures known { Known self.now (start + length entries.now) counts.new }
        ensures reads { let s = scoring.now in let end = start + length entries.now in
            Reads self.now.kmer s.threshold s.ln.now s.f.now self.now.letters.now end result }
    {
        let mut reading = before;
        for j in 0..entries.len() {
            let value = self.count_back(start + j, entries[j], scoring.ln, counts);
            let size = start + j + 1;
            let loss = (size as u64) * scoring.threshold + scoring.f[size];
            reading = reading.judged(size, value, loss);
        }
        reading
    }

    // Reads the places backward from the last letter, block by block; the counts of their k-mers are 0.
    #[tactic(auto, using(crate::proofs::Reading::reads))]
    fn read_back(&self, scoring: &Scoring, counts: &mut [u16]) -> Reading
        requires narrow { let s = scoring.now in
            Narrow s.threshold s.ln.now s.f.now self.now.steps }
        requires known { Known self.now 0 counts.old }
        ensures { let s = scoring.now in let here = self.now in
            Reads here.kmer s.threshold s.ln.now s.f.now here.letters.now here.steps result }
    {
        let mut reading = Reading::new();
        let mut block = [0; BLOCK];
        let mut start = 0;
        'on: while start < self.steps {
            let m = BLOCK.min(self.steps - start);
            let entries = &mut block[..m];
            self.entries_back(start, entries);
            reading = self.read_entries(start, entries, reading, scoring, counts);
            start += m;
        }
        reading
    }

    /// Reads the places backward from the last letter, whatever the counts hold: those of the places are set to 0 first.
    pub fn search_back(&self, scoring: &Scoring, counts: &mut [u16]) -> Reading
        requires narrow { let s = scoring.now in
            Narrow s.threshold s.ln.now s.f.now self.now.steps }
        requires long { length counts.old ≡ 4 ^ self.now.kmer }
        ensures { let s = scoring.now in let here = self.now in
            Reads here.kmer s.threshold s.ln.now s.f.now here.letters.now here.steps result }
    {
        self.clear_counts(counts);
        self.read_back(scoring, counts)
    }
}

// The place of the last letter, as a queue entry.
#[tactic(auto, using(crate::proofs::Backward::rolling))]
fn last_entry(letters: &[u8], kmer: usize) -> u32
    requires k_bound { kmer ≤ 12 }
    requires some { 0 < length letters.now }
    requires few { length letters.now ≤ kmer }
    ensures place { decode result ≡ place_at kmer letters.now (length letters.now - 1) }
    ensures below { result / 2 < 4 ^ kmer }
{
    let mut state = Kmer::new();
    for letter in letters {
        state = state.next(*letter, kmer);
    }
    state.entry(kmer)
}

// Sets the count of an entry's k-mer to 0.
fn clear_entry(counts: &mut [u16], entry: u32)
    requires { entry / 2 < length counts.old }
    ensures { counts.new ≡ cleared_at counts.old (decode entry) }
{
    if let Some(kmer) = letters::kmer_of(entry) {
        counts[kmer] = 0;
    }
}
