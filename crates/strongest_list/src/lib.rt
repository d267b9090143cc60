// The strongest stretches of a contig: the list of the highest scoring stretches inside some regions, none sharing a letter with another or touching it.

#![tactic(auto)]

mod barring;
mod blocks;
mod linked;
mod refusals;
mod rows;
mod search;
mod tiles;

ghost use Rattle.std.specs.Prelude.{◌≡◌, ◌^◌, ◌≤◌, ◌<◌, [], length, IfOk, OnErr};
ghost use Rattle.buffers.specs.Fill.{put};
ghost use Rattle.buffers.specs.Free.{Free};
ghost use Rattle.checks.specs.Refusal.{number_of, count_of, count_unless};
ghost use Rattle.strongest_list.specs.Call.{asked_of, entries, letters_of, scores_of};
ghost use Rattle.strongest_list.specs.Checks.{n_places, n_tiles, refusal};
ghost use Rattle.strongest_list.specs.Terms.Codes.{Shows};
ghost use Rattle.strongest_list.specs.Terms.Best.{Searchable};
ghost use Rattle.strongest_list.specs.Terms.Listed.{Answers};

use crate::barring::{bar, show_regions};
pub use crate::linked::LinkedPlace;
use crate::refusals::check;
pub use crate::tiles::Tile;
use crate::tiles::{mark, next_best, start_tiles};
use checks::Refusal;
use intervals::Interval;
use letters::n_kmers;
use strongest::{Scoring, difference};

/// What is asked: the strongest stretches of a sequence inside the regions, by k, w, T and the tables, that score above the floor.
#[derive(Clone, Copy)]
pub struct Request<'a> {
    /// n letters.
    pub sequence: &'a [u8],
    /// k, 1 to 12.
    pub kmer: usize,
    /// w, the most places that a stretch may have: k + 1 to 65,535.
    pub window_size: usize,
    /// T and the tables: ln of w + 1 entries at least, f of w + 2.
    pub scoring: Scoring<'a>,
    /// Any list of intervals within the n letters, none of them empty.
    pub regions: &'a [Interval],
    /// A stretch is listed only if it scores more, in units of 2^-32.
    pub floor: u64,
}

// Lists the strongest stretches, one after another: each time the best of those without a barred letter, whose letters and those beside them are barred then.
fn list_strongest(
    request: &Request,
    codes: &mut [u8],
    newest: &mut [u32],
    places: &mut [LinkedPlace],
    tiles: &mut [Tile],
    letters: &mut [Interval],
    scores: &mut [i64],
) -> usize
    requires searchable { Searchable request.now }
    requires newest { length newest.old ≡ 4 ^ request.now.kmer }
    requires places { length places.old ≡ n_places (asked_of request.now) }
    requires shows { Shows (asked_of request.now) [] codes.old }
    requires few { length request.now.sequence.now ≤ 2147483647 }
    requires tiles { length tiles.old ≡ n_tiles (asked_of request.now) }
    ensures { Answers (asked_of request.now) letters.old letters.new scores.old scores.new result }
{
    let most = letters.len().min(scores.len());
    start_tiles(request, codes, newest, places, tiles);
    for i in 0..most {
        match next_best(request, codes, newest, places, tiles) {
            None => return i,
            Some(best) => {
                let from = (best.first + 1).saturating_sub(request.kmer);
                let to = best.first + best.size;
                letters[i] = Interval {
                    start: from as u32,
                    end: to as u32,
                };
                scores[i] = difference(best.gain, best.loss);
                bar(codes, from, to);
                mark(tiles, request.kmer, from, to);
            }
        }
    }
    most
}

/// The strongest stretches inside the regions, in the order found, as letters and scores; the answer is their number, at most the length of the shorter list.
/// Entries past that number do not change. Scores are in units of 2^-32.
/// `codes`, `newest`, `places` and `tiles` are work space: n bytes, 4^k numbers, 2 w + 4096 + k places and n / (w + 4096) + 1 tiles, whatever they hold.
/// Refused with 1 2 13 3 4 5 10 as the masking calls are, 16 for a region that is empty or ends past n, 11 for a short buffer, 20 for T or a table entry outside its width;
/// nothing is changed then.
pub fn strongest_stretches(
    request: &Request,
    codes: &mut [u8],
    newest: &mut [u32],
    places: &mut [LinkedPlace],
    tiles: &mut [Tile],
    letters: &mut [Interval],
    scores: &mut [i64],
) -> Result<usize, Refusal>
    ensures count { let found = entries (asked_of request.now) letters.old scores.old in
        IfOk result (λ count. count ≡ length found) }
    ensures letters { let found = entries (asked_of request.now) letters.old scores.old in
        IfOk result (λ _. letters.new ≡ put (letters_of (asked_of request.now) found) letters.old) }
    ensures scores { let found = entries (asked_of request.now) letters.old scores.old in
        IfOk result (λ _. scores.new ≡ put (scores_of (asked_of request.now) found) scores.old) }
    ensures codes { IfOk result (λ _. Free (length request.now.sequence.now) codes.old codes.new) }
    ensures newest { IfOk result (λ _. Free (4 ^ request.now.kmer) newest.old newest.new) }
    ensures places { IfOk result (λ _. Free (n_places (asked_of request.now)) places.old places.new) }
    ensures tiles { IfOk result (λ _. Free (n_tiles (asked_of request.now)) tiles.old tiles.new) }
    ensures refusal { number_of result
        ≡ refusal (asked_of request.now) (length codes.old) (length newest.old) (length places.old) (length tiles.old) }
    ensures values { let found = entries (asked_of request.now) letters.old scores.old in
        count_of result
        ≡ count_unless (refusal (asked_of request.now) (length codes.old) (length newest.old) (length places.old) (length tiles.old))
        (length found) }
    ensures err { OnErr result ((codes.new ≡ codes.old) × (newest.new ≡ newest.old) × (places.new ≡ places.old)
        × (tiles.new ≡ tiles.old) × (letters.new ≡ letters.old) × (scores.new ≡ scores.old)) }
{
    check(
        request,
        codes.len(),
        newest.len(),
        places.len(),
        tiles.len(),
    )?;
    let n = request.sequence.len();
    let size = n_kmers(request.kmer);
    let n_tiles = n / (request.window_size + 4096) + 1;
    let n_places = 2 * request.window_size + 4096 + request.kmer;
    let part = &mut codes[..n];
    show_regions(request, part);
    let count = list_strongest(
        request,
        part,
        &mut newest[..size],
        &mut places[..n_places],
        &mut tiles[..n_tiles],
        letters,
        scores,
    );
    Ok(count)
}
