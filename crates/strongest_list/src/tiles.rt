// The ends of a contig in tiles. Letters only become barred, so a tile's best bounds it for ever, and is stale once an entry shares or touches a letter of it.

ghost use Rattle.std.specs.Prelude.{◌≡◌, ◌+◌, ◌*◌, ◌/◌, ◌^◌, ◌≤◌, false, length};
ghost use Rattle.strongest_list.specs.Call.{asked_of};
ghost use Rattle.strongest_list.specs.Checks.{n_places};
ghost use Rattle.strongest_list.specs.Terms.Best.{Before, Small, Picks, Searchable};
ghost use Rattle.strongest_list.specs.Terms.Tiles.{span, true_score, Agrees, tile_of, candidate_of, TileKnows, Knows, AllScored, Top, tile_beats, stale_at, best_at, staled, Staled, AllFit};

use crate::Request;
use crate::linked::LinkedPlace;
use crate::search::{Candidate, best_between};

/// The best stretch that ends in a tile, or ended in it before letters were barred; none where `size` is 0.
#[repr(C)]
#[derive(Clone, Copy)]
pub struct Tile {
    /// Its first place.
    pub first: usize,
    /// Its number of places.
    pub size: usize,
    /// The ln entries that it gains; its score is `gain` - `loss`, in units of 2^-32.
    pub gain: u64,
    /// T for each place, and its f entry.
    pub loss: u64,
    /// Letters of it were barred since.
    pub stale: bool,
}

fn tile_of(best: Option<Candidate>) -> Tile
    ensures { result ≡ tile_of best }
{
    match best {
        None => Tile {
            first: 0,
            size: 0,
            gain: 0,
            loss: 0,
            stale: false,
        },
        Some(c) => Tile {
            first: c.first,
            size: c.size,
            gain: c.gain,
            loss: c.loss,
            stale: false,
        },
    }
}

impl Tile {
    fn beats(&self, other: &Tile) -> bool
        requires small { Small (candidate_of self.now) }
        requires other_small { Small (candidate_of other.now) }
        ensures { result ≡ tile_beats self.now other.now }
    {
        let here = self.gain + other.loss;
        let there = other.gain + self.loss;
        (there < here)
            | ((there <= here)
                & ((other.size < self.size)
                    | ((other.size == self.size) & (self.first < other.first))))
    }

    // Stale if letters from .. to - 1 share or touch a letter of it.
    fn staled(mut self, kmer: usize, from: usize, to: usize) -> Self
        requires { self.first + self.size ≤ 2147483647 }
        ensures { result ≡ staled kmer from to self }
    {
        self.stale |= ((self.first + 1).saturating_sub(kmer) <= to)
            & (from <= self.first + self.size);
        self
    }
}

// Searches the ends of tile t.
fn search_tile(
    request: &Request,
    codes: &[u8],
    newest: &mut [u32],
    places: &mut [LinkedPlace],
    t: usize,
) -> Tile
    requires searchable { Searchable request.now }
    requires newest { length newest.old ≡ 4 ^ request.now.kmer }
    requires places { length places.old ≡ n_places (asked_of request.now) }
    requires agrees { Agrees request.now codes.now }
    requires inside { t * span request.now ≤ length codes.now }
    requires few { length codes.now ≤ 2147483647 }
    ensures knows { let lo = t * span request.now in
        TileKnows request.now codes.now lo (lo + span request.now) result }
    ensures fresh { result.stale ≡ false }
{
    let span = request.window_size + 4096;
    let lo = t * span;
    let hi = codes.len().min(lo + span);
    tile_of(best_between(request, codes, newest, places, lo, hi))
}

// The tile whose best no other beats; the number of tiles if none has a best.
fn top(request: &Request, tiles: &[Tile]) -> usize
    requires { AllScored request.now tiles.now }
    ensures { Top request.now tiles.now (length tiles.now) (length tiles.now) result }
{
    let n = tiles.len();
    let mut best = n;
    for t in 0..n {
        if tiles[t].size == 0 {
            continue;
        }
        if best == n {
            best = t;
            continue;
        }
        if tiles[t].beats(&tiles[best]) {
            best = t;
        }
    }
    best
}

// Whether there is a tile t and it is stale.
fn is_stale(tiles: &[Tile], t: usize) -> bool
    ensures { result ≡ stale_at tiles.now t }
{
    if tiles.len() <= t {
        return false;
    }
    tiles[t].stale
}

// The best of tile t, which is not stale, as a candidate; none where there is no tile t.
fn best_of(tiles: &[Tile], t: usize) -> Option<Candidate>
    ensures { result ≡ best_at tiles.now t }
{
    if tiles.len() <= t {
        return None;
    }
    let tile = tiles[t];
    Some(Candidate {
        first: tile.first,
        size: tile.size,
        gain: tile.gain,
        loss: tile.loss,
    })
}

// Searches all tiles.
pub fn start_tiles(
    request: &Request,
    codes: &[u8],
    newest: &mut [u32],
    places: &mut [LinkedPlace],
    tiles: &mut [Tile],
)
    requires searchable { Searchable request.now }
    requires newest { length newest.old ≡ 4 ^ request.now.kmer }
    requires places { length places.old ≡ n_places (asked_of request.now) }
    requires agrees { Agrees request.now codes.now }
    requires few { length codes.now ≤ 2147483647 }
    requires count { length tiles.old ≡ length codes.now / span request.now + 1 }
    ensures { Knows request.now codes.now tiles.new }
{
    for t in 0..tiles.len() {
        tiles[t] = search_tile(request, codes, newest, places, t);
    }
}

// The best of all free stretches. A stale tile is searched again only where no other tile's best beats its old one.
pub fn next_best(
    request: &Request,
    codes: &[u8],
    newest: &mut [u32],
    places: &mut [LinkedPlace],
    tiles: &mut [Tile],
) -> Option<Candidate>
    requires searchable { Searchable request.now }
    requires newest { length newest.old ≡ 4 ^ request.now.kmer }
    requires places { length places.old ≡ n_places (asked_of request.now) }
    requires agrees { Agrees request.now codes.now }
    requires few { length codes.now ≤ 2147483647 }
    requires knows { Knows request.now codes.now tiles.old }
    ensures picks { Picks (true_score request.now) (Before request.now codes.now (length codes.now)) result }
    ensures knows { Knows request.now codes.now tiles.new }
{
    let mut t = top(request, tiles);
    'again: while is_stale(tiles, t) {
        tiles[t] = search_tile(request, codes, newest, places, t);
        t = top(request, tiles);
    }
    best_of(tiles, t)
}

// The tiles whose best shares or touches letters from .. to - 1 become stale.
pub fn mark(tiles: &mut [Tile], kmer: usize, from: usize, to: usize)
    requires { AllFit tiles.old }
    ensures { Staled kmer from to tiles.old tiles.new }
{
    for t in 0..tiles.len() {
        tiles[t] = tiles[t].staled(kmer, from, to);
    }
}
