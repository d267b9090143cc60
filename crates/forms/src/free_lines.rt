// Where a probe may stand in a record: a line for each stretch that is long enough.

ghost use Rattle.std.specs.Prelude.{◌≡◌};
ghost use Rattle.fasta.specs.Lines.{name_of};
ghost use Rattle.entries.specs.Outcome.{Sent};
ghost use Rattle.forms.specs.Free.{free_lines};

use crate::bed::Bed;
use crate::each::write_each;
use crate::outputs::Accepted;
use crate::room::Room;
use free::{Asked, fill_free};
use intervals::Interval;
use masker::Maker;
use std::io::{Error, Result as IoResult, Write};

// Writes them.
pub fn write_free<M: Maker, W: Write>(
    part: &Accepted<'_, M>,
    pad: u32,
    room: &mut Room,
    out: &mut W,
) -> IoResult<()>
    ensures { Sent (W.contents out.old) (W.contents out.new) (free_lines pad part.now.least
        (name_of part.now.entry.now.header.items) part.now.entry.now.letters.items part.now.list.now) result }
{
    let letters = part.entry.letters.as_slice();
    if 2147483647 < letters.len() {
        return Err(Error::other("too many letters"));
    }
    let all = [Interval {
        start: 0,
        end: letters.len() as u32,
    }];
    let asked = Asked {
        regions: &all,
        mask: part.list,
        pad,
    };
    fill_free(letters, &asked, &mut room.map, &mut room.stretches)?;
    let lines = Bed {
        name: part.entry.name(),
        list: room.stretches.as_slice(),
        least: part.least,
    };
    write_each(&lines, &mut room.text, out)
}
