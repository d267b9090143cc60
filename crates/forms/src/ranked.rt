// The strongest stretches of a record: a line each, by rank.

ghost use Rattle.std.specs.Prelude.{◌≡◌, OnOk};
ghost use Rattle.fasta.specs.Lines.{name_of};
ghost use Rattle.entries.specs.Held.{entry_of};
ghost use Rattle.entries.specs.Outcome.{Sent};
ghost use Rattle.forms.specs.Strongest.{strongest_lines};

use crate::outputs::Accepted;
use crate::room::Room;
use checks::{kmer_outside, window_above};
use entries::write_whole;
use masker::{Maker, TableRoom};
use ranking::{Means, Ranker, Record, Wanted};
use std::alloc::AllocError;
use std::io::{Result as IoResult, Write};

// Makes the lines of an entry, by the options and the tables of its masker.
fn make_lines<M: Maker>(
    part: &Accepted<'_, M>,
    wanted: Wanted,
    tables: &mut TableRoom,
    ranker: &mut Ranker,
    text: &mut Vec<u8>,
) -> Result<(), AllocError>
    ensures { OnOk result (text.new.items ≡ strongest_lines (M.options part.now.masker.now) wanted
        (name_of part.now.entry.now.header.items) part.now.entry.now.letters.items part.now.list.now) }
{
    text.clear();
    let options = part.masker.options();
    if kmer_outside(options.kmer) | window_above(options.window_size) {
        return Ok(());
    }
    let letters = part.entry.letters.as_slice();
    part.masker.fill_tables(letters, tables)?;
    let contig = Record {
        name: part.entry.name(),
        letters,
        mask: part.list,
    };
    let means = Means {
        kmer: options.kmer,
        window_size: options.window_size,
        score_threshold: options.score_threshold,
        ln: tables.ln.as_slice(),
        f: tables.f.as_slice(),
    };
    ranker.add_listing(&contig, &means, wanted, text)?;
    Ok(())
}

// Writes them.
pub fn write_strongest<M: Maker, W: Write>(
    part: &Accepted<'_, M>,
    wanted: Wanted,
    room: &mut Room,
    out: &mut W,
) -> IoResult<()>
    ensures { Sent (W.contents out.old) (W.contents out.new) (strongest_lines (M.options part.now.masker.now) wanted
        (name_of part.now.entry.now.header.items) part.now.entry.now.letters.items part.now.list.now) result }
{
    make_lines(
        part,
        wanted,
        &mut room.tables,
        &mut room.ranker,
        &mut room.text,
    )?;
    write_whole(out, room.text.as_slice())
}
