// BED: a line for each interval that is long enough, with marks and without.

ghost use Rattle.std.specs.Prelude.{◌≡◌, ◌≤◌, ◌-◌, get_or, length};
ghost use Rattle.intervals.specs.Interval.{interval};
ghost use Rattle.forms.specs.Bed.{bed_line, strands, marked_line, if_long};

use crate::each::Lines;
use crate::text::add_place;
use intervals::Interval;
use std::io::Result as IoResult;

// The intervals of a record.
#[derive(Drop)]
pub struct Bed<'a> {
    pub name: &'a [u8],
    pub list: &'a [Interval],
    pub least: u32,
}

impl<'a> Lines for Bed<'a> {
    ghost line = { λ b i. if_long b.least (get_or b.list.now i (interval 0 0)) (bed_line b.name.now (get_or b.list.now i (interval 0 0))) };

    ghost count = { λ b. length b.list.now };

    fn count(&self) -> usize {
        self.list.len()
    }

    fn add(&self, i: usize, text: &mut Vec<u8>) -> IoResult<()> {
        let interval = self.list[i];
        if letters(interval) < self.least {
            return Ok(());
        }
        add_place(text, self.name, interval.start as u64, interval.end as u64)?;
        text.push(b'\n')?;
        Ok(())
    }
}

// How many letters an interval has.
fn letters(interval: Interval) -> u32
    ensures { result ≡ interval.end - interval.start }
{
    interval.end.saturating_sub(interval.start)
}

// The same, with marks.
#[derive(Drop)]
pub struct MarkedBed<'a> {
    pub name: &'a [u8],
    pub list: &'a [Interval],
    pub marks: &'a [u8],
    pub least: u32,
}

// The three columns that tell which strands saw an interval.
#[tactic(auto, unfolding(crate::specs::Bed::strands))]
fn strands(mark: u8) -> &'static [u8]
    ensures { result.now ≡ strands mark }
{
    match mark {
        1 => b"\tforward\t0\t+\n",
        2 => b"\treverse\t0\t-\n",
        3 => b"\tboth\t0\t.\n",
        _ => b"\t.\t0\t.\n",
    }
}

impl<'a> Lines for MarkedBed<'a> {
    ghost line = { λ b i. if_long b.least (get_or b.list.now i (interval 0 0))
        (marked_line b.name.now (get_or b.list.now i (interval 0 0)) (get_or b.marks.now i 0)) };

    ghost count = { λ b. length b.list.now };

    fn count(&self) -> usize {
        self.list.len()
    }

    fn add(&self, i: usize, text: &mut Vec<u8>) -> IoResult<()> {
        let interval = self.list[i];
        if letters(interval) < self.least {
            return Ok(());
        }
        let mark = if i < self.marks.len() {
            self.marks[i]
        } else {
            0
        };
        add_place(text, self.name, interval.start as u64, interval.end as u64)?;
        text.extend_from_slice(strands(mark))?;
        Ok(())
    }
}
