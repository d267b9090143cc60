// The refusal of a record, before any buffer is made for it.

ghost use Rattle.std.specs.Prelude.{◌≡◌, ◌≤◌, ◌<◌, ◌+◌, ◌^◌, length};
ghost use Rattle.checks.specs.Refusal.{number_of};
ghost use Rattle.checks.specs.Tests.{most_intervals};
ghost use Rattle.masker.specs.Run.{listed, record_refusal};

use checks::Refusal;
use longdust::{Lent, LongdustOptions};

/// The most intervals that a list of n letters can have.
pub fn most_rows(n: usize, k: usize) -> usize
    requires { (n < 2 ^ 63) × (k ≤ 12) }
    ensures { result ≡ most_intervals n k }
{
    (n + 1) / (k + 1)
}

// The listed sizes for n letters.
fn listed(options: LongdustOptions, n: usize) -> Lent
    requires bounds { (options.kmer ≤ 12) × (options.window_size ≤ 65535) }
    requires letters { n < 2 ^ 63 }
    ensures { result ≡ listed options n }
{
    let w = options.window_size;
    let kmers = letters::n_kmers(options.kmer);
    let rows = most_rows(n, options.kmer);
    Lent {
        ln: w + 1,
        f: w + 2,
        queue: w,
        window_counts: kmers,
        scan_counts: kmers,
        candidates: w,
        codes: n,
        reverse_codes: n,
        forward_list: rows,
        reverse_list: rows,
        list: rows,
        marks: rows,
    }
}

/// The first check that a record's letters fail, whatever the buffers.
pub fn check(options: LongdustOptions, letters: &[u8]) -> Result<(), Refusal>
    ensures { number_of result ≡ record_refusal options letters.now }
{
    if checks::kmer_outside(options.kmer) | checks::window_above(options.window_size) {
        return checks::check_sequence(letters, options.kmer, options.window_size);
    }
    longdust::check(options, letters, listed(options, letters.len()))
}
