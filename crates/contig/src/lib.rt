// A contig of at most 32,768 letters, masked with the default options, and what `track` prints for it.

#![tactic(auto)]

ghost use Rattle.std.specs.Prelude.{◌≡◌, ℕ, ◌<◌, List, length, IfOk, OnOk, OnErr};
ghost use Rattle.report.specs.Adds.{Adds};
ghost use Rattle.report.specs.Held.{Held};
ghost use Rattle.checks.specs.Refusal.{number_of};
ghost use Rattle.intervals.specs.Interval.{Canonical, Wrote};
ghost use Rattle.contig.specs.Run.{most_letters, list_room, contig_refusal, contig_mask};
ghost use Rattle.contig.specs.Printed.{printed, text_of};
ghost use Rattle.contig.specs.Room.{AnswerFits};

use checks::Refusal;
use intervals::Interval;
use longdust::{LongdustOptions, Tables};
use report::Text;

/// The most letters that are taken.
pub const MOST_LETTERS: usize = 32768;

/// Room for one letter more, so that too many show.
pub const LETTERS_ROOM: usize = 32769;

/// Room for the intervals of as many letters as are taken.
pub const LIST_ROOM: usize = 4096;

/// Room for the longest text, in bytes.
pub const TEXT_ROOM: usize = 49167;

/// A list to lend to `mask_letters`.
pub fn no_intervals() -> [Interval; LIST_ROOM]
    ensures { list_room ≡ length result }
{
    [Interval { start: 0, end: 0 }; LIST_ROOM]
}

/// Fills the tables and masks the letters by them, in work buffers that have exactly the paper's sizes.
/// The intervals go to the front of the list, which has `LIST_ROOM` entries; returns their number, or refusal 2, 3, 11 (too many letters) or 13.
pub fn mask_letters(letters: &[u8], list: &mut [Interval]) -> Result<usize, Refusal>
    requires { length list.old ≡ list_room }
    ensures refusal { number_of result ≡ contig_refusal letters.now }
    ensures list { IfOk result (Wrote (contig_mask letters.now) list.old list.new) }
    ensures shape { OnOk result (Canonical (length letters.now) 7 (contig_mask letters.now)) }
    ensures err { OnErr result (list.new ≡ list.old) }
{
    let mut ln = [0.0f64; 5001];
    let mut f = [0.0f64; 5002];
    tables::fill_uniform(&mut ln, &mut f, 7, 5000);
    let tables = Tables { ln: &ln, f: &f };
    let options = LongdustOptions::default();
    longdust::process_in::<5000, 16384, MOST_LETTERS, LIST_ROOM>(letters, options, &tables, list)
}

/// Writes what `track` prints for the letters; `refused size` for too many.
pub fn write_answer(letters: &[u8], text: &mut Text)
    requires { AnswerFits text.old }
    ensures { Adds (printed letters.now) text.old text.new }
{
    if MOST_LETTERS < letters.len() {
        text.write_size_refusal();
        return;
    }
    let mut list = no_intervals();
    match mask_letters(letters, &mut list) {
        Ok(count) => text.write_report(&list[..count]),
        Err(refusal) => text.write_refusal(refusal.number()),
    }
}

/// Writes what `track` prints for bytes that were read block by block: `held` has their letters, in a buffer that would show too many.
pub fn write_held(held: &Text, text: &mut Text)
    requires room { most_letters < length held.now.bytes.now }
    requires fits { AnswerFits text.old }
    ensures { (bytes : List ℕ) → Held bytes held.now.bytes.now held.now.len
        → Adds (text_of bytes) text.old text.new }
{
    write_answer(held.written(), text);
}

/// Writes what `track` prints for all bytes that it reads.
pub fn write_text(bytes: &[u8], text: &mut Text)
    requires { AnswerFits text.old }
    ensures { Adds (text_of bytes.now) text.old text.new }
{
    let mut letters = [0u8; LETTERS_ROOM];
    let mut held = Text::new(&mut letters);
    held.keep_letters(bytes);
    write_held(&held, text);
}
