// Joining tracks: the letters of our list and of another, in either, in both, or in ours and outside theirs.

#![tactic(auto)]

ghost use Rattle.std.specs.Prelude.{◌≡◌, true, if◌then◌else◌, map, ◌+◌, ◌%◌, ◌≤◌, ◌<◌, length, drop, slice_index_or, OnOk, OnErr, IfOk};
ghost use Rattle.buffers.specs.Fill.{put};
ghost use Rattle.intervals.specs.Out.{SameOut};
ghost use Rattle.checks.specs.Refusal.{number_of, count_of, count_unless};
ghost use Rattle.join.specs.Joining.{wanted, joined, joined_marks, too_short_of, refusal};
ghost use Rattle.join.specs.Terms.Sweep.{side_of, ended_first, piece_at, Ready};

use checks::{Refusal, below_sum, too_many_letters};
use intervals::{Interval, MarksOut, is_usual};

/// Which letters of two lists are wanted.
#[derive(Clone, Copy)]
pub enum Joined {
    /// Those in ours or in theirs.
    Either,
    /// Those in ours and in theirs.
    Both,
    /// Those in ours and outside theirs.
    Outside,
}

/// Our list, with a byte of marks for each interval: of the byte the two lowest bits count.
#[derive(Clone, Copy)]
pub struct MarkedList<'a> {
    pub list: &'a [Interval],
    pub marks: &'a [u8],
}

fn wanted(kind: Joined, ours: bool, theirs: bool) -> bool
    ensures { result ≡ wanted kind ours theirs }
{
    match kind {
        Joined::Either => ours | theirs,
        Joined::Both => ours & theirs,
        Joined::Outside => ours & !theirs,
    }
}

// How a list goes on from a letter.
#[derive(Clone, Copy)]
struct Side {
    // Whether the list covers the letter.
    covers: bool,
    // Up to which letter that stays so.
    until: u32,
}

// The side of a list at letter `at` of n: its first i intervals end there or before it.
#[tactic(auto, using(crate::proofs::PieceSteps::of_side))]
fn side_at(list: &[Interval], i: usize, at: u32, n: u32) -> Side
    ensures { result ≡ side_of n (drop i list.now) at }
{
    match list.get(i) {
        None => Side {
            covers: false,
            until: n,
        },
        Some(next) if at < next.start => Side {
            covers: false,
            until: next.start,
        },
        Some(next) => Side {
            covers: true,
            until: next.end,
        },
    }
}

// How many intervals end at `at` or before it, where the first i do, and at most one more.
#[tactic(auto, using(crate::proofs::PieceSteps::of_ended))]
fn ended(list: &[Interval], i: usize, at: u32) -> usize
    ensures { result ≡ i + ended_first (drop i list.now) at }
{
    match list.get(i) {
        Some(next) if next.end <= at => i + 1,
        _ => i,
    }
}

// Where a sweep over both lists stands.
#[derive(Clone, Copy)]
struct Sweep {
    // The letter at which it stands.
    at: u32,
    // How many of our intervals end there or before it.
    ours: usize,
    // How many of theirs do.
    theirs: usize,
}

// The next piece of letters: all of them are covered in the same way.
#[derive(Clone, Copy)]
struct Piece {
    // Whether our list covers them.
    ours: bool,
    // Whether theirs does.
    theirs: bool,
    // Where the sweep stands after them.
    next: Sweep,
}

#[tactic(auto, unfolding(crate::specs::Terms::Sweep::piece_at))]
fn next_piece(ours: &[Interval], theirs: &[Interval], n: u32, sweep: Sweep) -> Piece
    ensures { result ≡ piece_at n ours.now theirs.now sweep }
{
    let at = sweep.at;
    let i = sweep.ours;
    let j = sweep.theirs;
    let o = side_at(ours, i, at, n);
    let t = side_at(theirs, j, at, n);
    let end = o.until.min(t.until);
    let next = Sweep {
        at: end,
        ours: ended(ours, i, end),
        theirs: ended(theirs, j, end),
    };
    Piece {
        ours: o.covers,
        theirs: t.covers,
        next,
    }
}

// The two marks of our interval i where it covers the piece, else none.
fn marks_at(marks: &[u8], i: usize, covers: bool) -> u8
    requires { covers ≡ true → i < length marks.now }
    ensures { result ≡ (if covers then slice_index_or marks.now i 0 % 4 else 0) }
{
    if covers {
        return marks[i] & 3;
    }
    0
}

// Joins our list and theirs, of the usual kind in n letters, with our marks, and returns how many intervals there are then.
fn join_lists(
    kind: Joined,
    n: u32,
    ours: &MarkedList,
    theirs: &[Interval],
    out: &mut MarksOut,
) -> usize
    requires { Ready n ours.now.list.now ours.now.marks.now theirs.now
        (length out.old.list.now) (length out.old.marks.now) }
    ensures list { out.new.list.now
        ≡ put (joined kind n ours.now.list.now theirs.now) out.old.list.now }
    ensures marks { out.new.marks.now
        ≡ put (joined_marks kind n ours.now.list.now ours.now.marks.now theirs.now)
        out.old.marks.now }
    ensures count { result ≡ length (joined kind n ours.now.list.now theirs.now) }
    ensures same { SameOut out.old out.new }
{
    let mut sweep = Sweep {
        at: 0,
        ours: 0,
        theirs: 0,
    };
    // Empty: no interval yet, as the definition has it.
    let mut start = 0;
    let mut end = 0;
    let mut seen: u8 = 0;
    let mut count = 0;
    while sweep.at < n {
        let at = sweep.at;
        let i = sweep.ours;
        let piece = next_piece(ours.list, theirs, n, sweep);
        sweep = piece.next;
        if wanted(kind, piece.ours, piece.theirs) {
            let m = marks_at(ours.marks, i, piece.ours);
            if at <= end {
                end = sweep.at;
                seen |= m;
            } else {
                count = out.push(count, Interval { start, end }, seen);
                start = at;
                end = sweep.at;
                seen = m;
            }
        }
    }
    out.push(count, Interval { start, end }, seen)
}

// Whether our marks are fewer than our intervals, or a lent slice has fewer entries than both lists together.
fn too_short(ours: usize, marks: usize, theirs: usize, list: usize, list_marks: usize) -> bool
    ensures { result ≡ too_short_of ours marks theirs list list_marks }
{
    (marks < ours) | (below_sum(list, ours, theirs) | below_sum(list_marks, ours, theirs))
}

// The first check that fails.
fn check(
    n: usize,
    ours: &MarkedList,
    theirs: &[Interval],
    list: usize,
    list_marks: usize,
) -> Result<(), Refusal>
    ensures { number_of result
        ≡ refusal n ours.now.list.now ours.now.marks.now theirs.now list list_marks }
{
    if too_many_letters(n) {
        return Err(Refusal::TooManyLetters);
    }
    if !is_usual(ours.list, n) {
        return Err(Refusal::UnusualList);
    }
    if !is_usual(theirs, n) {
        return Err(Refusal::UnusualList);
    }
    if too_short(
        ours.list.len(),
        ours.marks.len(),
        theirs.len(),
        list,
        list_marks,
    ) {
        return Err(Refusal::ShortSlice);
    }
    Ok(())
}

/// Joins our list and theirs, both of the usual kind in n letters: writes the list of the wanted letters, and its marks beside it.
/// `out` has as many entries as both lists together, or more. Returns the number of intervals, or refusal 10, 16 or 11.
pub fn join_tracks(
    kind: Joined,
    n: usize,
    ours: &MarkedList,
    theirs: &[Interval],
    out: &mut MarksOut,
) -> Result<usize, Refusal>
    ensures count { IfOk result (λ count.
        count ≡ length (joined kind n ours.now.list.now theirs.now)) }
    ensures values { count_of result
        ≡ count_unless (refusal n ours.now.list.now ours.now.marks.now theirs.now
        (length out.old.list.now) (length out.old.marks.now))
        (length (joined kind n ours.now.list.now theirs.now)) }
    ensures room { IfOk result (λ count. count ≤ length out.old.list.now) }
    ensures list { OnOk result (out.new.list.now
        ≡ put (joined kind n ours.now.list.now theirs.now) out.old.list.now) }
    ensures marks { OnOk result (out.new.marks.now
        ≡ put (joined_marks kind n ours.now.list.now ours.now.marks.now theirs.now)
        out.old.marks.now) }
    ensures refusal { number_of result
        ≡ refusal n ours.now.list.now ours.now.marks.now theirs.now
        (length out.old.list.now) (length out.old.marks.now) }
    ensures same_list { OnErr result (out.new.list.now ≡ out.old.list.now) }
    ensures same_marks { OnErr result (out.new.marks.now ≡ out.old.marks.now) }
    ensures same { SameOut out.old out.new }
{
    check(n, ours, theirs, out.list.len(), out.marks.len())?;
    Ok(join_lists(kind, n as u32, ours, theirs, out))
}
