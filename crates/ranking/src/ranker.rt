// What is asked of a record, and the lines of its strongest stretches.

ghost use Rattle.std.specs.Prelude.{◌≡◌, ◌++◌, ◌<◌, ◌^◌, length, cond, OnOk, IfOk};
ghost use Rattle.ranking.specs.Ranking.{head, asked_of, most, listing, Answers};

use crate::units::{fill_units, units};
use crate::work::Work;
use checks::Refusal;
use intervals::Interval;
use std::alloc::{AllocError, Global};
use strongest::Scoring;
use strongest_list::Request;

/// A record with its mask.
#[derive(Clone, Copy)]
pub struct Record<'a> {
    pub name: &'a [u8],
    pub letters: &'a [u8],
    pub mask: &'a [Interval],
}

/// By what it was masked.
#[derive(Clone, Copy)]
pub struct Means<'a> {
    /// k, 1 to 12.
    pub kmer: usize,
    /// w, the most places that a stretch may have: k + 1 to 65,535.
    pub window_size: usize,
    /// T.
    pub score_threshold: f64,
    /// The table of ln, of w + 1 entries at least.
    pub ln: &'a [f64],
    /// That of f, of w + 2.
    pub f: &'a [f64],
}

/// What is wanted.
#[derive(Clone, Copy)]
pub struct Wanted {
    /// N: at most so many stretches.
    pub most: usize,
    /// A stretch is listed only if it scores more, in units of 2^-32.
    pub floor: u64,
    /// The whole record is the region, and not its mask.
    pub whole: bool,
}

/// The line that names the columns.
pub fn head() -> &'static [u8]
    ensures { result.now ≡ head }
{
    b"#name\tstart\tend\trank\tscore\tscore_a_place\tplaces\tregion_start\tregion_end\trank_in_region\tmost_frequent_kmer\tletters\n"
}

fn choose<'a>(whole: bool, all: &'a [Interval], mask: &'a [Interval]) -> &'a [Interval]
    ensures { result.now ≡ cond whole all.now mask.now }
{
    if whole { all } else { mask }
}

/// Lists the strongest stretches of one record after the other. Its buffers grow with the records.
#[derive(Drop)]
pub struct Ranker {
    pub ln: Vec<u64>,
    pub f: Vec<u64>,
    pub work: Work,
}

impl Ranker {
    pub fn new(alloc: Global) -> Self {
        Ranker {
            ln: Vec::new(alloc),
            f: Vec::new(alloc),
            work: Work::new(alloc),
        }
    }

    /// Appends a line for each of the strongest stretches, by rank; or answers why the record is refused, and appends nothing then.
    /// Fails where there is no memory.
    pub fn add_ranking(
        &mut self,
        contig: &Record,
        means: &Means,
        wanted: Wanted,
        text: &mut Vec<u8>,
    ) -> Result<Result<(), Refusal>, AllocError>
        ensures { IfOk result
            (Answers contig.now.name.now (asked_of wanted means.now contig.now) (most wanted contig.now.letters.now) text.old.items text.new.items) }
    {
        fill_units(means.ln, &mut self.ln)?;
        fill_units(means.f, &mut self.f)?;
        let n = contig.letters.len();
        let all = [Interval {
            start: 0,
            end: n.min(2147483647) as u32,
        }];
        let request = Request {
            sequence: contig.letters,
            kmer: means.kmer,
            window_size: means.window_size,
            scoring: Scoring {
                threshold: units(means.score_threshold),
                ln: self.ln.as_slice(),
                f: self.f.as_slice(),
            },
            regions: choose(wanted.whole, &all, contig.mask),
            floor: wanted.floor,
        };
        self.work
            .add_ranking(contig.name, &request, wanted.most.min(n), text)
    }

    /// The same, where a record that is refused has no lines.
    pub fn add_listing(
        &mut self,
        contig: &Record,
        means: &Means,
        wanted: Wanted,
        text: &mut Vec<u8>,
    ) -> Result<(), AllocError>
        ensures { OnOk result (text.new.items
            ≡ text.old.items ++ listing contig.now.name.now (asked_of wanted means.now contig.now) (most wanted contig.now.letters.now)) }
    {
        match self.add_ranking(contig, means, wanted, text) {
            Ok(_) => Ok(()),
            Err(e) => Err(e),
        }
    }
}
