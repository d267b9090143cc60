// The call for the strongest stretches of a contig.

ghost use Rattle.std.specs.Prelude.{◌≡◌, ◌<◌, ◌^◌, length};
ghost use Rattle.buffers.specs.Fill.{put};
ghost use Rattle.buffers.specs.Free.{Free};
ghost use Rattle.strongest_list.specs.Call.{asked, entries, letters_of, scores_of};
ghost use Rattle.strongest_list.specs.Checks.{n_places, n_tiles, refusal};
ghost use Rattle.longdust_c.specs.Numbers.{count_or};

use crate::numbers::returned;
use intervals::Interval;
use strongest::Scoring;
use strongest_list::{LinkedPlace, Request, Tile};

/// `strongest_list::strongest_stretches` on numbers and slices. Returns the number of stretches, or minus the refusal's number.
#[unsafe(no_mangle)]
pub extern "C" fn longdust_strongest_stretches(
    sequence: &[u8],
    kmer: usize,
    window_size: usize,
    threshold: u64,
    ln: &[u64],
    f: &[u64],
    regions: &[Interval],
    floor: u64,
    codes: &mut [u8],
    newest: &mut [u32],
    places: &mut [LinkedPlace],
    tiles: &mut [Tile],
    list: &mut [Interval],
    scores: &mut [i64],
) -> i64
    ensures number { let A = asked sequence.now kmer window_size threshold
        ln.now f.now regions.now floor in
        result ≡ count_or
        (refusal A (length codes.old) (length newest.old) (length places.old) (length tiles.old))
        (length (entries A list.old scores.old)) }
    ensures list { let A = asked sequence.now kmer window_size threshold
        ln.now f.now regions.now floor in
        refusal A (length codes.old) (length newest.old) (length places.old) (length tiles.old) ≡ 0
        → list.new ≡ put (letters_of A (entries A list.old scores.old)) list.old }
    ensures scores { let A = asked sequence.now kmer window_size threshold
        ln.now f.now regions.now floor in
        refusal A (length codes.old) (length newest.old) (length places.old) (length tiles.old) ≡ 0
        → scores.new ≡ put (scores_of A (entries A list.old scores.old)) scores.old }
    ensures codes { let A = asked sequence.now kmer window_size threshold
        ln.now f.now regions.now floor in
        refusal A (length codes.old) (length newest.old) (length places.old) (length tiles.old) ≡ 0
        → Free (length sequence.now) codes.old codes.new }
    ensures newest { let A = asked sequence.now kmer window_size threshold
        ln.now f.now regions.now floor in
        refusal A (length codes.old) (length newest.old) (length places.old) (length tiles.old) ≡ 0
        → Free (4 ^ kmer) newest.old newest.new }
    ensures places { let A = asked sequence.now kmer window_size threshold
        ln.now f.now regions.now floor in
        refusal A (length codes.old) (length newest.old) (length places.old) (length tiles.old) ≡ 0
        → Free (n_places A) places.old places.new }
    ensures tiles { let A = asked sequence.now kmer window_size threshold
        ln.now f.now regions.now floor in
        refusal A (length codes.old) (length newest.old) (length places.old) (length tiles.old) ≡ 0
        → Free (n_tiles A) tiles.old tiles.new }
    ensures same_codes { let A = asked sequence.now kmer window_size threshold
        ln.now f.now regions.now floor in
        0 < refusal A (length codes.old) (length newest.old) (length places.old) (length tiles.old)
        → codes.new ≡ codes.old }
    ensures same_newest { let A = asked sequence.now kmer window_size threshold
        ln.now f.now regions.now floor in
        0 < refusal A (length codes.old) (length newest.old) (length places.old) (length tiles.old)
        → newest.new ≡ newest.old }
    ensures same_places { let A = asked sequence.now kmer window_size threshold
        ln.now f.now regions.now floor in
        0 < refusal A (length codes.old) (length newest.old) (length places.old) (length tiles.old)
        → places.new ≡ places.old }
    ensures same_tiles { let A = asked sequence.now kmer window_size threshold
        ln.now f.now regions.now floor in
        0 < refusal A (length codes.old) (length newest.old) (length places.old) (length tiles.old)
        → tiles.new ≡ tiles.old }
    ensures same_list { let A = asked sequence.now kmer window_size threshold
        ln.now f.now regions.now floor in
        0 < refusal A (length codes.old) (length newest.old) (length places.old) (length tiles.old)
        → list.new ≡ list.old }
    ensures same_scores { let A = asked sequence.now kmer window_size threshold
        ln.now f.now regions.now floor in
        0 < refusal A (length codes.old) (length newest.old) (length places.old) (length tiles.old)
        → scores.new ≡ scores.old }
{
    let request = Request {
        sequence,
        kmer,
        window_size,
        scoring: Scoring { threshold, ln, f },
        regions,
        floor,
    };
    returned(strongest_list::strongest_stretches(
        &request, codes, newest, places, tiles, list, scores,
    ))
}
