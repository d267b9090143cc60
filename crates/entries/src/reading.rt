// The entries of a file, one after the other, from a reader.

ghost use Rattle.std.specs.Prelude.{◌≡◌, ◌≢◌, ◌≤◌, ◌<◌, ◌-◌, ◌++◌, ℕ, List, All, length, take, true, Ok, IfOk, IfSome, OnOk, OnSome};
ghost use Rattle.std.specs.Io.{StartsWith, StopsAt, IsEmptyOrEndsWith, appended_bytes};
ghost use Rattle.std.specs.Io.BufRead.{take_through, DropsThrough};
ghost use Rattle.std.specs.Io.KnownBytes.{Keeps, Consumes, IsAtEnd};
ghost use Rattle.entries.specs.Lines.{dropped, chomped};
ghost use Rattle.entries.specs.Held.{entry_of};
ghost use Rattle.entries.specs.Terms.Reading.{first_of, LineRead, LinesRead, HeaderRead, EntryRead};

use crate::held::note_line;
use crate::{Failed, HeldEntry, LineRun};
use fasta::Fault;
use memchr::memchr;
use std::io::{BufRead, Error, ErrorKind, Result as IoResult};

// The next byte, which stays where it is; none at the end.
fn peek<R: BufRead>(reader: &mut R) -> IoResult<Option<u8>>
    ensures kept { Keeps (R.remaining reader.old) (R.remaining reader.new) }
    ensures byte { IfOk result (λ b. IfSome (R.remaining reader.old) (λ xs. b ≡ first_of xs)) }
{
    for _ in 0..u64::MAX {
        match reader.fill_buf() {
            Ok(shown) => return Ok(shown.first().copied()),
            Err(e) => {
                if e.kind() != ErrorKind::Interrupted {
                    return Err(e);
                }
            }
        }
    }
    Err(Error::other("too many reads"))
}

// How many bytes stand up to the end of the first line, the end included; all of them, if none ends.
fn line_length(shown: &[u8]) -> usize
    ensures bound { result ≤ length shown.now }
    ensures some { 0 < length shown.now → 0 < result }
    ensures before { All (λ x. x ≢ 10) (take (result - 1) shown.now) }
{
    match memchr(b'\n', shown) {
        Some(at) => at + 1,
        None => shown.len(),
    }
}

// The bytes that the reader shows, up to a line's end, join `line`; whether the line has ended, or the file.
fn append_line<R: BufRead>(reader: &mut R, line: &mut Vec<u8>) -> IoResult<bool>
    ensures appends { StartsWith line.new.items line.old.items }
    ensures stops { StopsAt (appended_bytes line.old.items line.new.items) 10 }
    ensures bytes { Consumes (R.remaining reader.old) (R.remaining reader.new) (appended_bytes line.old.items line.new.items) }
    ensures end { result ≡ Ok true → length (appended_bytes line.old.items line.new.items) ≡ 0
        → OnSome (R.remaining reader.old) (IsAtEnd (R.remaining reader.new)) }
    ensures no_end_unless_done { result ≢ Ok true → All (λ x. x ≢ 10) (appended_bytes line.old.items line.new.items) }
    ensures done_at_end { result ≡ Ok true → IsEmptyOrEndsWith (appended_bytes line.old.items line.new.items) 10 }
{
    let shown = match reader.fill_buf() {
        Ok(shown) => shown,
        Err(e) => {
            return if e.kind() == ErrorKind::Interrupted {
                Ok(false)
            } else {
                Err(e)
            };
        }
    };
    let n = line_length(shown);
    line.extend_from_slice(&shown[..n])?;
    let done = n == 0 || shown[n - 1] == b'\n';
    reader.consume(n);
    Ok(done)
}

// The bytes up to a line's end, or the file's, join `line`: `read_until`, which asks each byte by itself.
fn read_through<R: BufRead>(reader: &mut R, line: &mut Vec<u8>) -> IoResult<()>
    ensures appends { StartsWith line.new.items line.old.items }
    ensures bytes { OnOk result (IfSome (R.remaining reader.old) (λ xs. line.new.items ≡ line.old.items ++ take_through 10 xs)) }
    ensures rest { OnOk result (DropsThrough (R.remaining reader.old) (R.remaining reader.new) 10) }
{
    for _ in 0..u64::MAX {
        if append_line(reader, line)? {
            return Ok(());
        }
    }
    Err(Error::other("too many reads"))
}

// Drops the last byte after the first `from`, if it is `byte`.
fn drop_end(line: &mut Vec<u8>, from: usize, byte: u8)
    ensures { (front xs : List ℕ) → line.old.items ≡ front ++ xs → length front ≡ from
        → line.new.items ≡ front ++ dropped byte xs }
{
    let n = line.len();
    if n <= from {
        return;
    }
    if line.as_slice()[n - 1] == byte {
        line.truncate(n - 1);
    }
}

// Drops the last byte after the first `from`, if it is 13 and `cr` is true.
fn drop_return(line: &mut Vec<u8>, from: usize, cr: bool)
    ensures { (front xs : List ℕ) → line.old.items ≡ front ++ xs → length front ≡ from
        → line.new.items ≡ front ++ chomped cr xs }
{
    if cr {
        drop_end(line, from, b'\r');
    }
}

// The next line, without its end, joins `line`; false at the end of the file.
fn read_line<R: BufRead>(reader: &mut R, cr: bool, line: &mut Vec<u8>) -> IoResult<bool>
    ensures { IfOk result (λ some. IfSome (R.remaining reader.old) (λ xs.
        LineRead cr xs (R.remaining reader.new) line.old.items line.new.items some)) }
{
    let from = line.len();
    read_through(reader, line)?;
    if line.len() == from {
        return Ok(false);
    }
    drop_end(line, from, b'\n');
    drop_return(line, from, cr);
    Ok(true)
}

// The lines up to the next that opens a record: their letters, and how long each is.
fn read_lines<R: BufRead>(
    reader: &mut R,
    cr: bool,
    letters: &mut Vec<u8>,
    runs: &mut Vec<LineRun>,
) -> IoResult<()>
    ensures { OnOk result (IfSome (R.remaining reader.old) (λ xs.
        LinesRead cr xs (R.remaining reader.new) letters.new.items runs.new.items)) }
{
    letters.clear();
    runs.clear();
    let mut run = LineRun {
        lines: 0,
        letters: 0,
    };
    for _ in 0..u64::MAX {
        match peek(reader)? {
            None => {
                runs.push(run)?;
                return Ok(());
            }
            Some(byte) => {
                if byte == b'>' {
                    runs.push(run)?;
                    return Ok(());
                }
                let from = letters.len();
                read_line(reader, cr, letters)?;
                run = note_line(runs, run, letters.len().saturating_sub(from))?;
            }
        }
    }
    Err(Error::other("too many reads"))
}

// The line that opens the next record, in `line`; false at the end of the file.
fn find_header<R: BufRead>(reader: &mut R, cr: bool, line: &mut Vec<u8>) -> Result<bool, Failed>
    ensures { IfSome (R.remaining reader.old) (λ xs. HeaderRead cr xs (R.remaining reader.new) line.new.items result) }
{
    for _ in 0..u64::MAX {
        line.clear();
        match read_line(reader, cr, line) {
            Ok(true) => {
                if line.len() == 0 {
                    continue;
                }
                if line.as_slice()[0] == b'>' {
                    return Ok(true);
                }
                return Err(Failed::Faulty(Fault::LettersFirst));
            }
            Ok(false) => return Ok(false),
            Err(e) => return Err(Failed::Reading(e)),
        }
    }
    Err(Failed::Reading(Error::other("too many reads")))
}

/// Reads the next entry; false at the end of the file. Where `cr` is true, a byte 13 at a line's end is not of the line.
pub fn next_entry<R: BufRead>(
    reader: &mut R,
    cr: bool,
    entry: &mut HeldEntry,
) -> Result<bool, Failed>
    ensures { IfSome (R.remaining reader.old) (λ xs.
        EntryRead cr xs (R.remaining reader.new) (entry_of entry.new) result) }
{
    if !find_header(reader, cr, &mut entry.header)? {
        return Ok(false);
    }
    if entry.name().is_empty() {
        return Err(Failed::Faulty(Fault::EmptyName));
    }
    match read_lines(reader, cr, &mut entry.letters, &mut entry.runs) {
        Ok(()) => Ok(true),
        Err(e) => Err(Failed::Reading(e)),
    }
}
