// The places of a row of letters, each linked with the one before it of the same k-mer.

ghost use Rattle.std.specs.Prelude.{◌≡◌, ℕ, List, suc, ◌+◌, ◌-◌, ◌*◌, ◌/◌, ◌%◌, ◌≤◌, ◌<◌, ◌^◌, length};
ghost use Rattle.letters.specs.Terms.Entry.{decode};
ghost use Rattle.strongest.specs.Terms.Reading.{Narrow};
ghost use Rattle.strongest_list.specs.Terms.Blocks.{entry_at, value};
ghost use Rattle.strongest_list.specs.Terms.Linked.{Newest, Older, Linked, Written, Joins, Kept, places_in, order};

use crate::Request;
use crate::blocks::Block;
use letters::kmer_of;

/// Work space: a place of a row of letters.
#[repr(C)]
#[derive(Clone, Copy)]
pub struct LinkedPlace {
    /// Its queue entry: its k-mer and a lowest bit, set where it is ambiguous.
    pub entry: u32,
    /// One more than the number of the last place before it with its k-mer; 0 if there is none.
    pub older: u32,
    /// How often its k-mer stands in it and in the places that joined after it; 0 if it is ambiguous.
    pub order: u16,
}

// What a place of that order gains.
pub fn value(ln: &[u64], order: u16) -> u64
    requires { order < length ln.now }
    ensures { result ≡ value ln.now order }
{
    if order == 0 {
        return 0;
    }
    ln[order as usize]
}

// One more than the number of the last of the first n places with this entry, 0 if there is none.
fn last_of(places: &[LinkedPlace], newest: &[u32], n: usize, entry: u32) -> usize
    requires inside { n ≤ length places.now }
    requires long { entry / 2 < length newest.now }
    requires even { entry % 2 ≡ 0 }
    requires newest { Newest places.now n newest.now }
    ensures { Older places.now n entry result }
{
    let at = newest[(entry / 2) as usize] as usize;
    if (at == 0) | (n < at) {
        return 0;
    }
    if places[at - 1].entry == entry {
        return at;
    }
    0
}

// Counts place n at the places before it of its k-mer, down to place `low`; answers how many they are, and one.
fn raise(
    request: &Request,
    places: &mut [LinkedPlace],
    blocks: &mut [Block],
    n: usize,
    low: usize,
) -> u16
    requires narrow { let s = request.now.scoring in
        Narrow s.threshold s.ln.now s.f.now request.now.window_size }
    requires window { (0 < request.now.window_size) × (request.now.window_size ≤ 65535) }
    requires inside { n < length places.old }
    requires blocks { n < 64 * length blocks.old }
    requires near { n + 1 ≤ low + request.now.window_size }
    requires even { entry_at places.old n % 2 ≡ 0 }
    requires written { let s = request.now.scoring in
        Written request.now.window_size s.ln.now s.threshold low n places.old blocks.old }
    ensures linked { let s = request.now.scoring in
        (newest : List ℕ) → Newest places.old (suc n) newest
        → Linked request.now.window_size s.ln.now s.threshold low (suc n) places.new newest blocks.new }
    ensures kept { Kept places.old places.new }
    ensures least { order (places_in places.old low (n - low)) (decode (entry_at places.old n)) ≤ result }
    ensures most { result ≤ request.now.window_size }
{
    let ln = request.scoring.ln;
    let mut order = 1;
    let mut at = places[n].older as usize;
    'older: while low < at {
        let place = places[at - 1];
        order = place.order + 1;
        places[at - 1].order = order;
        let j = (at - 1) / 64;
        let was = value(ln, place.order);
        let is = value(ln, order);
        blocks[j] = blocks[j].raised(was, is);
        at = place.older as usize;
    }
    order
}

// Place n joins those before it; answers how often its k-mer stands among places low .. n, 0 if it is ambiguous.
pub fn join(
    request: &Request,
    places: &mut [LinkedPlace],
    newest: &mut [u32],
    blocks: &mut [Block],
    n: usize,
    low: usize,
    entry: u32,
) -> u16
    requires narrow { let s = request.now.scoring in
        Narrow s.threshold s.ln.now s.f.now request.now.window_size }
    requires window { (0 < request.now.window_size) × (request.now.window_size ≤ 65535) }
    requires inside { (n < length places.old) × (n < 4294967295) }
    requires blocks { n < 64 * length blocks.old }
    requires near { (n + 1 ≤ low + request.now.window_size) × (low ≤ n + 1) }
    requires long { entry / 2 < length newest.old }
    requires linked { let s = request.now.scoring in
        Linked request.now.window_size s.ln.now s.threshold low n places.old newest.old blocks.old }
    ensures linked { let s = request.now.scoring in
        Linked request.now.window_size s.ln.now s.threshold low (suc n) places.new newest.new blocks.new }
    ensures joins { Joins entry n places.old places.new }
    ensures least { order (places_in places.old low (n - low)) (decode entry) ≤ result }
    ensures most { result ≤ request.now.window_size }
{
    let threshold = request.scoring.threshold;
    let j = n / 64;
    match kmer_of(entry) {
        None => {
            places[n] = LinkedPlace {
                entry,
                older: 0,
                order: 0,
            };
            let ambiguous = blocks[j].added(0, threshold);
            blocks[j] = ambiguous;
            0
        }
        Some(kmer) => {
            let older = last_of(places, newest, n, entry);
            places[n] = LinkedPlace {
                entry,
                older: older as u32,
                order: 1,
            };
            newest[kmer] = (n + 1) as u32;
            let plain = blocks[j].added(request.scoring.ln[1], threshold);
            blocks[j] = plain;
            raise(request, places, blocks, n, low)
        }
    }
}
