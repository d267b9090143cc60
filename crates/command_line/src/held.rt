// What a run holds for its options.

ghost use Rattle.std.specs.Prelude.{◌≡◌};
ghost use Rattle.command_line.specs.Held.{letter_tenths, fixed_bytes};

/// Tenths of a byte that a run holds for each letter of a record, beside what it writes: the letter, its code and that of the other strand, and the
/// lists of both strands, of the mask and of its marks, 25 bytes for the most intervals that the letters can have.
pub fn letter_tenths(kmer: u16) -> u64
    ensures { result ≡ letter_tenths kmer }
{
    30 + 250 / (kmer as u64 + 1) + 1
}

/// Bytes that a run holds whatever the record: the program and its input, the tables twice, a window, and two counts for each k-mer.
pub fn fixed_bytes(kmers: u32, window: u16) -> u64
    ensures { result ≡ fixed_bytes kmers window }
{
    4000000 + 52 * (window as u64 + 2) + 4 * (kmers as u64)
}
