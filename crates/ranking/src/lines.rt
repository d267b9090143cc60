// The lines of a list of stretches.

ghost use Rattle.std.specs.Prelude.{◌≡◌, ◌++◌, ◌<◌, ◌≤◌, length, get_or, pos, take, OnOk};
ghost use Rattle.strongest_list.specs.Call.{asked_of};
ghost use Rattle.ranking.specs.Text.{each};
ghost use Rattle.ranking.specs.Terms.Room.{Roomy, SameRoom};
ghost use Rattle.ranking.specs.Ranking.{place, places_of, amount, scores, region_at, begun_in, within, letters_in, ending, line};

use crate::kmers::{Counting, most_frequent};
use crate::text::{add_column, add_four_decimals, ten_thousandths};
use intervals::Interval;
use std::alloc::AllocError;
use strongest_list::Request;

// A list of stretches with their scores, of what was asked.
#[derive(Clone, Copy)]
pub struct Listed<'a> {
    pub name: &'a [u8],
    pub request: &'a Request<'a>,
    pub letters: &'a [Interval],
    pub scores: &'a [i64],
    ghost same: { length letters.now ≡ length scores.now },
}

fn add_place(text: &mut Vec<u8>, name: &[u8], i: Interval) -> Result<(), AllocError>
    ensures { OnOk result (text.new.items ≡ text.old.items ++ place name.now i) }
{
    text.extend_from_slice(name)?;
    add_column(text, i.start as u64)?;
    add_column(text, i.end as u64)
}

fn places_of(kmer: usize, i: Interval) -> u64
    ensures { result ≡ places_of kmer i }
{
    (i.end as u64 + 1)
        .saturating_sub(i.start as u64)
        .saturating_sub(kmer as u64)
}

fn amount(score: i64) -> u64
    ensures { result ≡ amount score }
{
    if score < 0 {
        return 0;
    }
    score as u64
}

// The score with index i.
fn amount_at(scores: &[i64], i: usize) -> u64
    requires { i < length scores.now }
    ensures { result ≡ amount (get_or scores.now i (pos 0)) }
{
    amount(scores[i])
}

fn add_scores(text: &mut Vec<u8>, rank: u64, score: u64, places: u64) -> Result<(), AllocError>
    ensures { OnOk result (text.new.items ≡ text.old.items ++ scores rank score places) }
{
    let m = ten_thousandths(score);
    add_column(text, rank)?;
    add_four_decimals(text, m)?;
    add_four_decimals(text, m / places.max(1))?;
    add_column(text, places)
}

// The first region that ends past letter x.
fn region_at(regions: &[Interval], x: u32) -> Interval
    ensures { result ≡ region_at regions.now x }
{
    for region in regions {
        if x < region.end {
            return *region;
        }
    }
    Interval { start: 0, end: 0 }
}

// How many stretches of a list begin in the region.
fn begun_in(region: Interval, list: &[Interval]) -> usize
    ensures { result ≡ begun_in region list.now }
{
    list.iter()
        .filter(|i| (region.start <= i.start) & (i.start < region.end))
        .count()
}

fn add_within(text: &mut Vec<u8>, region: Interval, rank: u64) -> Result<(), AllocError>
    ensures { OnOk result (text.new.items ≡ text.old.items ++ within region rank) }
{
    add_column(text, region.start as u64)?;
    add_column(text, region.end as u64)?;
    add_column(text, rank)
}

fn letters_in(sequence: &[u8], i: Interval) -> &[u8]
    ensures { result.now ≡ letters_in sequence.now i }
{
    let before = &sequence[..(i.end as usize).min(sequence.len())];
    &before[(i.start as usize).min(before.len())..]
}

// The first 40 letters.
fn first_letters(letters: &[u8]) -> &[u8]
    ensures { result.now ≡ take 40 letters.now }
{
    &letters[..(40usize).min(letters.len())]
}

// The count of the most frequent k-mer, and the first letters.
fn add_ending(
    text: &mut Vec<u8>,
    kmer: usize,
    letters: &[u8],
    counting: &mut Counting,
) -> Result<(), AllocError>
    requires bounds { (kmer ≤ 12) × (length letters.now ≤ 2147483647) }
    requires room { Roomy kmer (length letters.now) counting.old }
    ensures ending { OnOk result (text.new.items ≡ text.old.items ++ ending kmer letters.now) }
    ensures room { SameRoom counting.old counting.new }
{
    let count = most_frequent(letters, kmer, counting.codes, counting.counts);
    add_column(text, count as u64)?;
    text.extend_from_slice(b"\t")?;
    text.extend_from_slice(first_letters(letters))?;
    text.extend_from_slice(b"\n")
}

impl<'a> Listed<'a> {
    // Appends the line of the stretch with this index.
    fn add_line(
        &self,
        i: usize,
        text: &mut Vec<u8>,
        counting: &mut Counting,
    ) -> Result<(), AllocError>
        requires index { i < length self.now.letters.now }
        requires bounds { (self.now.request.now.kmer ≤ 12) × (length self.now.request.now.sequence.now ≤ 2147483647) }
        requires room { Roomy self.now.request.now.kmer (length self.now.request.now.sequence.now) counting.old }
        ensures line { OnOk result (text.new.items
            ≡ text.old.items ++ line self.now.name.now (asked_of self.now.request.now) self.now.letters.now self.now.scores.now i) }
        ensures room { SameRoom counting.old counting.new }
    {
        let here = self.letters[i];
        let score = amount_at(self.scores, i);
        let places = places_of(self.request.kmer, here);
        let region = region_at(self.request.regions, here.start);
        let rank = begun_in(region, &self.letters[..i + 1]);
        let letters = letters_in(self.request.sequence, here);
        add_place(text, self.name, here)?;
        add_scores(text, (i + 1) as u64, score, places)?;
        add_within(text, region, rank as u64)?;
        add_ending(text, self.request.kmer, letters, counting)?;
        Ok(())
    }

    // Appends all lines.
    pub fn add_lines(&self, text: &mut Vec<u8>, counting: &mut Counting) -> Result<(), AllocError>
        requires bounds { (self.now.request.now.kmer ≤ 12) × (length self.now.request.now.sequence.now ≤ 2147483647) }
        requires room { Roomy self.now.request.now.kmer (length self.now.request.now.sequence.now) counting.old }
        ensures { OnOk result (text.new.items ≡ text.old.items
            ++ each (line self.now.name.now (asked_of self.now.request.now) self.now.letters.now self.now.scores.now) (length self.now.letters.now)) }
    {
        for i in 0..self.letters.len() {
            self.add_line(i, text, counting)?;
        }
        Ok(())
    }
}
