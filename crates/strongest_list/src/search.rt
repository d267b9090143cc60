// The best of the stretches without a barred letter that end in a tile.

ghost use Rattle.std.specs.Prelude.{◌≡◌, ℕ, ◌+◌, ◌^◌, ◌≤◌, ◌<◌, true, length, get_or};
ghost use Rattle.strongest_list.specs.Call.{asked_of};
ghost use Rattle.strongest_list.specs.Checks.{n_places};
ghost use Rattle.strongest_list.specs.Mirrored.{Rises};
ghost use Rattle.strongest_list.specs.Terms.Codes.{run_to, AllBarred};
ghost use Rattle.strongest_list.specs.Terms.Tiles.{EndsIn, span};
ghost use Rattle.strongest_list.specs.Terms.Best.{score_of_codes, Picks, Searchable};

use crate::Request;
use crate::barring::BARRED;
use crate::linked::LinkedPlace;
use crate::rows::{Row, search_row};

// A stretch: its first place, its number of places, what it gains and what it loses.
#[derive(Clone, Copy)]
pub struct Candidate {
    pub first: usize,
    pub size: usize,
    pub gain: u64,
    pub loss: u64,
}

// How many letters in a row before letter `end` are not barred, `limit` at most.
fn free_back(codes: &[u8], end: usize, limit: usize) -> usize
    requires { end ≤ length codes.now }
    ensures low { result ≤ run_to codes.now end }
    ensures most { result ≤ limit }
    ensures same { result < limit → result ≡ run_to codes.now end }
{
    let most = limit.min(end);
    for r in 0..most {
        if BARRED <= codes[end - 1 - r] {
            return r;
        }
    }
    most
}

// The first letter from `from` on that is not barred; `to` if there is none before it.
fn free_on(codes: &[u8], from: usize, to: usize) -> usize
    requires order { from ≤ to }
    requires inside { to ≤ length codes.now }
    ensures low { from ≤ result }
    ensures high { result ≤ to }
    ensures barred { AllBarred codes.now from result }
    ensures free { result < to → get_or codes.now result 5 < 5 }
{
    for x in from..to {
        if codes[x] < BARRED {
            return x;
        }
    }
    to
}

// The first letter from `from` on that is barred; `to` if there is none before it.
fn barred_on(codes: &[u8], from: usize, to: usize) -> usize
    requires order { from ≤ to }
    requires inside { to ≤ length codes.now }
    ensures low { from ≤ result }
    ensures high { result ≤ to }
    ensures free { (x : ℕ) → from ≤ x → x < result → get_or codes.now x 5 < 5 }
    ensures further { from < to → get_or codes.now from 5 < 5 → from < result }
{
    for x in from..to {
        if BARRED <= codes[x] {
            return x;
        }
    }
    to
}

// Whether the entries 1..w do not fall.
fn rises(table: &[u64], w: usize) -> bool
    requires some { 0 < w }
    requires long { w < length table.now }
    ensures { result ≡ true → Rises table.now w }
{
    for i in 1..w {
        if table[i + 1] < table[i] {
            return false;
        }
    }
    true
}

// Whether neither table falls.
fn is_steady(request: &Request) -> bool
    requires searchable { Searchable request.now }
    ensures ln { result ≡ true → Rises request.now.scoring.ln.now request.now.window_size }
    ensures f { result ≡ true → Rises request.now.scoring.f.now request.now.window_size }
{
    let w = request.window_size;
    if !rises(request.scoring.ln, w) {
        return false;
    }
    rises(request.scoring.f, w)
}

// Ends from .. to - 1. Neither table falls where `steady` is true.
#[derive(Clone, Copy)]
struct Ends {
    from: usize,
    to: usize,
    steady: bool,
}

// How many of the first places of a row have a letter before it, which may be barred.
fn skipped_of(first: usize, kmer: usize) -> usize
    requires some { 0 < kmer }
    ensures start { first ≡ 0 → result ≡ 0 }
    ensures later { 0 < first → result + 1 ≡ kmer }
{
    if first == 0 {
        return 0;
    }
    kmer - 1
}

// The best of those found and those that end at these places, none of which is barred.
fn search_ends(
    request: &Request,
    codes: &[u8],
    newest: &mut [u32],
    places: &mut [LinkedPlace],
    ends: Ends,
    best: Option<Candidate>,
) -> Option<Candidate>
    requires searchable { Searchable request.now }
    requires newest { length newest.old ≡ 4 ^ request.now.kmer }
    requires places { length places.old ≡ n_places (asked_of request.now) }
    requires order { ends.from ≤ ends.to }
    requires inside { ends.to ≤ length codes.now }
    requires few { length codes.now ≤ 2147483647 }
    requires span { ends.to ≤ ends.from + span request.now }
    requires free { (x : ℕ) → ends.from ≤ x → x < ends.to → get_or codes.now x 5 < 5 }
    requires ln { ends.steady ≡ true → Rises request.now.scoring.ln.now request.now.window_size }
    requires f { ends.steady ≡ true → Rises request.now.scoring.f.now request.now.window_size }
    ensures { (lo : ℕ) → lo ≤ ends.from
        → Picks (score_of_codes request.now codes.now) (EndsIn request.now codes.now lo ends.from) best
        → Picks (score_of_codes request.now codes.now) (EndsIn request.now codes.now lo ends.to) result }
{
    let before = free_back(codes, ends.from, request.window_size + request.kmer);
    let first = ends.from - before;
    let row = Row {
        first,
        skipped: skipped_of(first, request.kmer),
        before,
        steady: ends.steady,
    };
    search_row(request, &codes[first..ends.to], newest, places, row, best)
}

// The best of those that end at places lo .. hi - 1.
pub fn best_between(
    request: &Request,
    codes: &[u8],
    newest: &mut [u32],
    places: &mut [LinkedPlace],
    lo: usize,
    hi: usize,
) -> Option<Candidate>
    requires searchable { Searchable request.now }
    requires newest { length newest.old ≡ 4 ^ request.now.kmer }
    requires places { length places.old ≡ n_places (asked_of request.now) }
    requires order { lo ≤ hi }
    requires inside { hi ≤ length codes.now }
    requires few { length codes.now ≤ 2147483647 }
    requires span { hi ≤ lo + span request.now }
    ensures { Picks (score_of_codes request.now codes.now) (EndsIn request.now codes.now lo hi) result }
{
    let steady = is_steady(request);
    let mut best = None;
    let mut end = lo;
    'rows: while end < hi {
        let from = free_on(codes, end, hi);
        let to = barred_on(codes, from, hi);
        let ends = Ends { from, to, steady };
        best = search_ends(request, codes, newest, places, ends, best);
        end = to;
    }
    best
}
