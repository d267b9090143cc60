// Where a probe may stand: the stretches of letters inside regions that are bases, and far enough from every masked letter.

#![tactic(auto)]

ghost use Rattle.std.specs.Prelude.{◌≡◌, ℕ, false, ◌&&◌, ◌++◌, ◌<◌, ◌≤◌, ◌^◌, length, get_or, OnOk};
ghost use Rattle.intervals.specs.Merge.{nonempty};
ghost use Rattle.join.specs.Stretches.{stretches};
ghost use Rattle.free.specs.Free.{is_base, near, free};
ghost use Rattle.free.specs.Terms.Letters.{at, set_where, between};

use intervals::Interval;
use std::io::{Error, Result as IoResult};

/// Which letters are asked for.
#[derive(Clone, Copy)]
pub struct Asked<'a> {
    /// Intervals that the letters lie in, in any order; they may touch and overlap.
    pub regions: &'a [Interval],
    /// The masked letters.
    pub mask: &'a [Interval],
    /// How many letters are kept clear on both sides of a masked one.
    pub pad: u32,
}

// Gives the letters from `from` up to `to` the value.
fn set_range(map: &mut [bool], from: usize, to: usize, value: bool)
    requires { to ≤ length map.old }
    ensures { (x : ℕ) → x < length map.old → at map.new x ≡ set_where (between from to) value map.old x }
{
    for i in from..to {
        map[i] = value;
    }
}

// Gives the letters that lie in an interval of the list, or at most `pad` letters beside one, the value.
fn set_near(map: &mut [bool], list: &[Interval], pad: u32, value: bool)
    ensures { (x : ℕ) → x < length map.old → at map.new x ≡ set_where (near pad list.now) value map.old x }
{
    let pad = pad as usize;
    for interval in list {
        let from = (interval.start as usize).saturating_sub(pad);
        let to = (interval.end as usize + pad).min(map.len());
        set_range(map, from, to, value);
    }
}

// Gives a no to the letters that are no bases.
fn drop_others(map: &mut [bool], letters: &[u8])
    requires { length map.old ≡ length letters.now }
    ensures { (x : ℕ) → x < length map.old → at map.new x ≡ is_base (get_or letters.now x 0) && at map.old x }
{
    for i in 0..letters.len() {
        if 4 <= letters::encode(letters[i]) {
            map[i] = false;
        }
    }
}

// Appends an interval that has letters.
fn push_nonempty(list: &mut Vec<Interval>, start: u32, end: u32) -> IoResult<()>
    ensures { OnOk result (list.new.items ≡ list.old.items ++ nonempty start end) }
{
    if start < end {
        list.push(Interval { start, end })?;
    }
    Ok(())
}

// Fills the list with the longest stretches of letters that have a yes.
fn fill_stretches(map: &[bool], list: &mut Vec<Interval>) -> IoResult<()>
    requires { length map.now < 2 ^ 32 }
    ensures { OnOk result (list.new.items ≡ stretches (at map.now) (length map.now)) }
{
    list.clear();
    let mut start: u32 = 0;
    let mut end: u32 = 0;
    for i in 0..map.len() {
        if !map[i] {
            continue;
        }
        let here = i as u32;
        if end < here {
            push_nonempty(list, start, end)?;
            start = here;
        }
        end = here + 1;
    }
    push_nonempty(list, start, end)?;
    Ok(())
}

/// Fills the list with the longest stretches of letters that may be a probe's. The other buffer is for a byte a letter.
/// Fails where there is no memory, and for more than 2,147,483,647 letters.
pub fn fill_free(
    letters: &[u8],
    asked: &Asked,
    map: &mut Vec<bool>,
    list: &mut Vec<Interval>,
) -> IoResult<()>
    ensures { OnOk result (list.new.items ≡ free asked.now.pad asked.now.regions.now asked.now.mask.now letters.now) }
{
    if 2147483647 < letters.len() {
        return Err(Error::other("too many letters"));
    }
    map.clear();
    map.resize(letters.len(), false)?;
    let map = map.as_mut_slice();
    set_near(map, asked.regions, 0, true);
    set_near(map, asked.mask, asked.pad, false);
    drop_others(map, letters);
    fill_stretches(map, list)?;
    Ok(())
}
