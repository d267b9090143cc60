// The buffers that a record's list is found in.

ghost use Rattle.std.specs.Prelude.{◌≡◌, ◌≤◌, ◌<◌, ◌^◌, length, min, OnOk, IfOk};
ghost use Rattle.strongest_list.specs.Call.{asked_of};
ghost use Rattle.ranking.specs.Ranking.{Answers};
ghost use Rattle.ranking.specs.Terms.Room.{Fitted};

use crate::kmers::Counting;
use crate::lines::Listed;
use checks::Refusal;
use intervals::Interval;
use std::alloc::{AllocError, Global};
use strongest_list::{LinkedPlace, Request, Tile, strongest_stretches};

#[derive(Drop)]
pub struct Work {
    pub codes: Vec<u8>,
    pub newest: Vec<u32>,
    pub places: Vec<LinkedPlace>,
    pub tiles: Vec<Tile>,
    pub letters: Vec<Interval>,
    pub scores: Vec<i64>,
}

impl Work {
    pub fn new(alloc: Global) -> Self {
        Work {
            codes: Vec::new(alloc),
            newest: Vec::new(alloc),
            places: Vec::new(alloc),
            tiles: Vec::new(alloc),
            letters: Vec::new(alloc),
            scores: Vec::new(alloc),
        }
    }

    // Room for a record of n letters, and for a list of so many stretches.
    fn fit(&mut self, n: usize, k: usize, w: usize, most: usize) -> Result<(), AllocError>
        requires bounds { (n < 2 ^ 63) × (k ≤ 12) × (w ≤ 65535) }
        ensures { OnOk result (Fitted n k w most self.new) }
    {
        self.codes.resize(n, 0)?;
        self.newest.resize(letters::n_kmers(k), 0)?;
        self.places.resize(
            2 * w + 4096 + k,
            LinkedPlace {
                entry: 0,
                older: 0,
                order: 0,
            },
        )?;
        self.tiles.resize(
            n / (w + 4096) + 1,
            Tile {
                first: 0,
                size: 0,
                gain: 0,
                loss: 0,
                stale: false,
            },
        )?;
        self.letters.resize(most, Interval { start: 0, end: 0 })?;
        self.scores.resize(most, 0)?;
        Ok(())
    }

    // Appends the lines of at most so many stretches.
    pub fn add_ranking(
        &mut self,
        name: &[u8],
        request: &Request,
        most: usize,
        text: &mut Vec<u8>,
    ) -> Result<Result<(), Refusal>, AllocError>
        ensures { IfOk result (Answers name.now (asked_of request.now) most text.old.items text.new.items) }
    {
        let n = request.sequence.len();
        self.fit(
            n,
            request.kmer.min(12),
            request.window_size.min(65535),
            most,
        )?;
        let found = strongest_stretches(
            request,
            self.codes.as_mut_slice(),
            self.newest.as_mut_slice(),
            self.places.as_mut_slice(),
            self.tiles.as_mut_slice(),
            self.letters.as_mut_slice(),
            self.scores.as_mut_slice(),
        );
        match found {
            Ok(count) => {
                let listed = Listed {
                    name,
                    request,
                    letters: &self.letters.as_slice()[..count],
                    scores: &self.scores.as_slice()[..count],
                };
                // Both may hold anything now.
                let mut counting = Counting {
                    codes: self.codes.as_mut_slice(),
                    counts: self.newest.as_mut_slice(),
                };
                listed.add_lines(text, &mut counting)?;
                Ok(Ok(()))
            }
            Err(refusal) => Ok(Err(refusal)),
        }
    }
}
