// Sequences that are searched from nowhere: no k-mer stands at min_start_cnt places of a strand, and so there is no mask.

ghost use Rattle.std.specs.Prelude.{◌≡◌, true, false, [], ◌^◌, ◌≤◌, ◌<◌, length};
ghost use Rattle.letters.specs.Place.{places};
ghost use Rattle.small.specs.Call.{filled_mask};
ghost use Rattle.small.specs.Run.{Asked};
ghost use Rattle.small.specs.Terms.Quiet.{Few};

use crate::MOST_LETTERS;
use longdust::LongdustOptions;

// Whether a k-mer stands at `least` places of a strand.
fn repeats(codes: &[u8], k: usize, least: u16) -> bool
    requires k_bound { k ≤ 12 }
    requires kmers_bound { 4 ^ k ≤ 4096 }
    requires few { length codes.now ≤ 4096 }
    requires least_bound { 0 < least }
    ensures { result ≡ false → Few least (places k codes.now) }
{
    let mut counts = [0u16; 4096];
    let mut newest = letters::Kmer::new();
    for code in codes {
        newest = newest.next(*code, k);
        let raised = scans::raise_entry(&mut counts, newest.entry(k));
        if raised.is_some_and(|count| least <= count) {
            return true;
        }
    }
    false
}

/// Whether no letter of a strand that is scanned is searched from; then there is no mask.
#[tactic(auto, using(crate::proofs::Repeating::quiet))]
pub fn is_quiet(sequence: &[u8], options: LongdustOptions) -> bool
    requires { Asked options sequence.now }
    ensures { result ≡ true → filled_mask options sequence.now ≡ [] }
{
    let n = sequence.len();
    let k = options.kmer;
    let least = options.min_start_cnt;
    let mut codes = [0u8; MOST_LETTERS];
    letters::encode_sequence(sequence, &mut codes);
    if repeats(&codes[..n], k, least) {
        return false;
    }
    if options.forward_only {
        return true;
    }
    let mut reverse_codes = [0u8; MOST_LETTERS];
    letters::reverse_complement_encoded_sequence(&codes[..n], &mut reverse_codes);
    !repeats(&reverse_codes[..n], k, least)
}
