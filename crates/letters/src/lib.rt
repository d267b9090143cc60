// Letters as codes, the rolling k-mer, and GC content.

#![tactic(auto)]

ghost use Rattle.std.specs.Prelude.{◌≡◌, ◌/◌, ◌^◌, ◌<◌, ◌≤◌, length, nat_lt, IfSome};
ghost use Rattle.buffers.specs.Fill.{put};
ghost use Rattle.letters.specs.Code.{code, codes, complement, reverse_complement};
ghost use Rattle.letters.specs.Gc.{acgt_count, gc_count, gc_of};
ghost use Rattle.letters.specs.Terms.Rolling.{no_letter, rolled_on, entry_of};
ghost use Rattle.letters.specs.Terms.Entry.{decode, place_of};

/// The code of a letter: each base in either case, U beside T, and 4 for all other bytes.
/// The IUPAC letters R Y S W K M B D H V N and the gap signs - and . are among the others.
// Inlined in both loops: out of line a letter of `encode_sequence` takes 16 instructions and not 1.4.
#[tactic(auto, unfolding(crate::specs::Code::code))]
#[inline(always)]
pub fn encode(b: u8) -> u8
    ensures { result ≡ code b }
{
    match b {
        b'A' | b'a' => 0,
        b'C' | b'c' => 1,
        b'G' | b'g' => 2,
        b'T' | b't' => 3,
        b'U' | b'u' => 3,
        _ => 4,
    }
}

/// Writes the codes of the letters to the front of `encoded`, which has n entries or more: A C G T U are 0 1 2 3 3, any other byte 4.
#[tactic(auto, using(crate::proofs::Codes::of_codes))]
pub fn encode_sequence(sequence: &[u8], encoded: &mut [u8])
    requires { length sequence.now ≤ length encoded.old }
    ensures { encoded.new ≡ put (codes sequence.now) encoded.old }
{
    for (i, b) in sequence.iter().enumerate() {
        encoded[i] = encode(*b);
    }
}

#[tactic(auto, unfolding(crate::specs::Code::complement))]
fn complement(c: u8) -> u8
    ensures { result ≡ complement c }
{
    if c < 4 { 3 - c } else { c }
}

/// Writes the codes of the reverse complement to the front of `reversed`, which has n entries or more.
#[tactic(auto, using(crate::proofs::Codes::of_reverse_complements))]
pub fn reverse_complement_encoded_sequence(encoded: &[u8], reversed: &mut [u8])
    requires { length encoded.now ≤ length reversed.old }
    ensures { reversed.new ≡ put (reverse_complement encoded.now) reversed.old }
{
    let n = encoded.len();
    for i in 0..n {
        reversed[i] = complement(encoded[n - 1 - i]);
    }
}

/// Writes the codes of the letters' reverse complement to the front of `encoded`, which has n entries or more.
// A twin of the two above: a strand that is masked alone has one buffer for codes.
#[tactic(auto, using(crate::proofs::ReverseCodes::of_reverse_codes))]
pub fn encode_reverse_complement(sequence: &[u8], encoded: &mut [u8])
    requires { length sequence.now ≤ length encoded.old }
    ensures { encoded.new ≡ put (reverse_complement (codes sequence.now)) encoded.old }
{
    let n = sequence.len();
    for i in 0..n {
        encoded[i] = complement(encode(sequence[n - 1 - i]));
    }
}

/// How many k-mers of k letters there are: 4^k.
#[tactic(auto, using(crate::proofs::Powers::of_four))]
pub fn n_kmers(k: usize) -> usize
    requires { k ≤ 12 }
    ensures { result ≡ 4 ^ k }
{
    1usize << (2 * k)
}

/// Whether a slice of `len` counts is too short for all k-mers, also where there are more of these than a number can say.
#[tactic(auto, using(crate::proofs::Powers::of_four))]
pub fn below_n_kmers(len: usize, k: usize) -> bool
    ensures { result ≡ nat_lt len (4 ^ k) }
{
    if 31 < k {
        return true;
    }
    len < 1usize << (2 * k)
}

/// The last letters of a strand, read one by one.
#[derive(Clone, Copy)]
pub struct Kmer {
    /// The k-mer that they pack: two bits a letter, the newest lowest.
    pub value: u32,
    /// How many of them in a row have codes below 4, up to the newest.
    pub run: usize,
}

impl Kmer {
    /// Before the first letter.
    pub fn new() -> Self
        ensures { result ≡ no_letter }
    {
        Self { value: 0, run: 0 }
    }

    /// After one letter more, whose code is b.
    #[tactic(auto, using(crate::proofs::Rolling::of_kmers))]
    pub fn next(mut self, b: u8, k: usize) -> Self
        requires { (k ≤ 12) × (self.run < 4294967296) }
        ensures { result ≡ rolled_on k self b }
    {
        if b < 4 {
            let mask = (n_kmers(k) - 1) as u32;
            self.value = ((self.value << 2) | (b as u32)) & mask;
            self.run += 1;
        } else {
            self.run = 0;
        }
        self
    }

    /// The newest place as a queue entry: the k-mer shifted once, and 1 if the place is ambiguous.
    #[tactic(auto, using(crate::proofs::Rolling::of_kmers))]
    pub fn entry(self, k: usize) -> u32
        requires { self.value < 16777216 }
        ensures { result ≡ entry_of k self }
    {
        (self.value << 1) | ((self.run < k) as u32)
    }
}

/// The k-mer of a queue entry; none if its place is ambiguous.
#[tactic(auto, using(crate::proofs::Entries::by_lowest_bit))]
pub fn kmer_of(entry: u32) -> Option<usize>
    ensures place { decode entry ≡ place_of result }
    ensures kmer { IfSome result (λ kmer. kmer ≡ entry / 2) }
{
    if entry & 1 != 0 {
        return None;
    }
    Some((entry >> 1) as usize)
}

// How many codes are below 4.
fn acgt_count(encoded: &[u8]) -> usize
    ensures { result ≡ acgt_count encoded.now }
{
    encoded.iter().filter(|c| **c < 4).count()
}

// How many codes are C or G.
fn gc_count(encoded: &[u8]) -> usize
    ensures { result ≡ gc_count encoded.now }
{
    encoded.iter().filter(|c| **c == 1 || **c == 2).count()
}

/// The share of C and G among the codes below 4, for GC auto: 0.0 if there is none.
#[tactic(auto, unfolding(crate::specs::Gc::gc_of))]
pub fn compute_gc_content(encoded: &[u8]) -> f64
    ensures { result ≡ gc_of encoded.now }
{
    let acgt = acgt_count(encoded);
    if acgt == 0 {
        return 0.0;
    }
    let gc = gc_count(encoded);
    std::num::nearest_usize_to_f64(gc) / std::num::nearest_usize_to_f64(acgt)
}
