// How often the most frequent k-mer of some letters stands in them.

ghost use Rattle.std.specs.Prelude.{◌≡◌, ◌/◌, ◌%◌, ◌^◌, ◌≤◌, ◌<◌, length, get_or};
ghost use Rattle.letters.specs.Place.{places};
ghost use Rattle.letters.specs.Terms.Entry.{decode};
ghost use Rattle.scans.specs.Counts.{raise};
ghost use Rattle.ranking.specs.Kmers.{largest_count, most_frequent};
ghost use Rattle.ranking.specs.Terms.Counting.{Known, cleared_at, raised};

use letters::{Kmer, encode_sequence, kmer_of};

// Sets the count of an entry's k-mer to 0.
fn clear_entry(counts: &mut [u32], entry: u32)
    requires { entry / 2 < length counts.old }
    ensures { counts.new ≡ cleared_at counts.old (decode entry) }
{
    if let Some(kmer) = kmer_of(entry) {
        counts[kmer] = 0;
    }
}

// Sets the counts of a strand's k-mers to 0.
fn clear_counts(codes: &[u8], k: usize, counts: &mut [u32])
    requires bounds { (k ≤ 12) × (length codes.now ≤ 2147483647) }
    requires long { length counts.old ≡ 4 ^ k }
    ensures { Known k codes.now 0 counts.new }
{
    let mut state = Kmer::new();
    for i in 0..codes.len() {
        state = state.next(codes[i], k);
        clear_entry(counts, state.entry(k));
    }
}

// Counts an entry, and answers the raised count of its k-mer, 0 if it is ambiguous.
fn raise_entry(counts: &mut [u32], entry: u32) -> u32
    requires long { entry / 2 < length counts.old }
    requires room { entry % 2 ≡ 0 → get_or counts.old (entry / 2) 0 < 4294967295 }
    ensures counts_after { counts.new ≡ raise counts.old (decode entry) }
    ensures raised { result ≡ raised counts.old (decode entry) }
{
    match kmer_of(entry) {
        None => 0,
        Some(kmer) => {
            let count = counts[kmer] + 1;
            counts[kmer] = count;
            count
        }
    }
}

// Counts all k-mers of a strand, whose counts are 0; answers the largest count.
fn count_kmers(codes: &[u8], k: usize, counts: &mut [u32]) -> u32
    requires bounds { (k ≤ 12) × (length codes.now ≤ 2147483647) }
    requires known { Known k codes.now 0 counts.old }
    ensures { result ≡ largest_count (4 ^ k) (places k codes.now) }
{
    let mut state = Kmer::new();
    let mut most = 0;
    for i in 0..codes.len() {
        state = state.next(codes[i], k);
        most = most.max(raise_entry(counts, state.entry(k)));
    }
    most
}

// Of the k-mers of the letters the most frequent one: how often it stands in them. The buffers may hold anything.
pub fn most_frequent(letters: &[u8], k: usize, codes: &mut [u8], counts: &mut [u32]) -> u32
    requires bounds { (k ≤ 12) × (length letters.now ≤ 2147483647) }
    requires codes_long { length letters.now ≤ length codes.old }
    requires counts_long { length counts.old ≡ 4 ^ k }
    ensures { result ≡ most_frequent k letters.now }
{
    encode_sequence(letters, codes);
    let strand = &codes[..letters.len()];
    clear_counts(strand, k, counts);
    count_kmers(strand, k, counts)
}

// Work space for at least so many letters, and for all k-mers.
#[derive(Drop)]
pub struct Counting<'a> {
    pub codes: &'a mut [u8],
    pub counts: &'a mut [u32],
}
