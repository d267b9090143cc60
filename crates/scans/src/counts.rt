// Window counts and scan counts: an entry is counted, taken out, or read.
// A function for each: one for all would be told what to add and whether to write, and say less.
// Each asks that there is a count for the entry's k-mer: that is of an entry and of a slice that is lent, so no type says it.

ghost use Rattle.std.specs.Prelude.{◌≡◌, ◌+◌, ◌/◌, ◌%◌, ◌<◌, List, length, get_or, Float};
ghost use Rattle.letters.specs.Terms.Entry.{decode};
ghost use Rattle.scans.specs.declared.Params.{Params};
ghost use Rattle.scans.specs.Counts.{raise, lower};
ghost use Rattle.scans.specs.Scans.{value};
ghost use Rattle.scans.specs.Terms.Numbers.{setup_of};
ghost use Rattle.scans.specs.Terms.Window.{counted_value, raised_count, CountsEntry};

use letters::kmer_of;

// Counts an entry, and answers the raised count of its k-mer, none if it is ambiguous.
pub fn raise_entry(counts: &mut [u16], entry: u32) -> Option<u16>
    requires { (entry / 2 < length counts.old) × (entry % 2 ≡ 0 → get_or counts.old (entry / 2) 0 < 65535) }
    ensures counts_after { counts.new ≡ raise counts.old (decode entry) }
    ensures raised { result ≡ raised_count counts.old (decode entry) }
{
    let kmer = kmer_of(entry)?;
    let c = counts[kmer] + 1;
    counts[kmer] = c;
    Some(c)
}

// Counts an entry, and answers the ln entry of its raised count, 0 if ambiguous.
#[tactic(auto, using(crate::proofs::Values::counting))]
pub fn count_entry(counts: &mut [u16], ln: &[f64], entry: u32) -> f64
    requires { (entry / 2 < length counts.old) × (get_or counts.old (entry / 2) 0 < 65535)
        × (get_or counts.old (entry / 2) 0 + 1 < length ln.now) }
    ensures { CountsEntry ln.now counts.old (decode entry) result counts.new }
{
    match raise_entry(counts, entry) {
        Some(c) => ln[c as usize],
        None => 0.0,
    }
}

// The ln entry of the count that an entry would have once it is counted, 0 if ambiguous.
pub fn raised_value(scan_counts: &[u16], ln: &[f64], entry: u32) -> f64
    requires { (entry / 2 < length scan_counts.now) × (get_or scan_counts.now (entry / 2) 0 + 1 < length ln.now) }
    ensures { (p : Params) (f : List Float) → result ≡ value (setup_of p ln.now f) scan_counts.now (decode entry) }
{
    let Some(kmer) = kmer_of(entry) else {
        return 0.0;
    };
    ln[(scan_counts[kmer] as usize) + 1]
}

// The ln entry of an entry's window count, 0 if ambiguous.
pub fn window_value(window_counts: &[u16], ln: &[f64], entry: u32) -> f64
    requires { (entry / 2 < length window_counts.now) × (get_or window_counts.now (entry / 2) 0 < length ln.now) }
    ensures { result ≡ counted_value ln.now window_counts.now (decode entry) }
{
    let Some(kmer) = kmer_of(entry) else {
        return 0.0;
    };
    ln[window_counts[kmer] as usize]
}

// Takes an entry out of the counts; a count of 0 stays.
// It is tested for and not written again: with `saturating_sub` satellites take 3.2 % longer.
pub fn lower_entry(counts: &mut [u16], entry: u32)
    requires { entry / 2 < length counts.old }
    ensures { counts.new ≡ lower counts.old (decode entry) }
{
    let Some(kmer) = kmer_of(entry) else {
        return;
    };
    let c = counts[kmer];
    if 0 < c {
        counts[kmer] = c - 1;
    }
}
