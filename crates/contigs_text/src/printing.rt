// A file's text.

ghost use Rattle.std.specs.Prelude.{◌≡◌, ◌≤◌, ◌+◌, length, take, IfSome, IfOk, OnOk};
ghost use Rattle.entries.specs.Outcome.{Sent};
ghost use Rattle.contigs_text.specs.Text.{limited_text, file_text};

use crate::Limits;
use crate::lines::add_fault;
use crate::listing::Listing;
use entries::{Failed, Sums, put_records, write_whole};
use longdust::LongdustOptions;
use masker::Masker;
use std::alloc::Global;
use std::io::{Error, ErrorKind, Read, Result as IoResult, Write};

/// The limits of `contigs`.
pub const LIMITS: Limits = Limits {
    bytes: 65536,
    letters: 32768,
};

// Reads at most one byte more than are taken, so that too many show.
fn read_front<R: Read>(reader: &mut R, most: u32, file: &mut Vec<u8>) -> IoResult<()>
    ensures { OnOk result (IfSome (R.remaining reader.old) (λ xs. file.new.items ≡ take (most + 1) xs)) }
{
    file.clear();
    reader.take(most as u64 + 1).read_to_end(file)?;
    Ok(())
}

// Makes the text of the records of a file, or of its fault.
fn make_records(
    alloc: Global,
    file: &[u8],
    limits: Limits,
    options: LongdustOptions,
    text: &mut Vec<u8>,
) -> IoResult<()>
    requires { length file.now ≤ limits.bytes }
    ensures { OnOk result (text.new.items ≡ limited_text limits options file.now) }
{
    let mut listing = Listing {
        limits,
        masker: Masker::new(alloc, options)?,
        list: Vec::new(alloc),
        marks: Vec::new(alloc),
        text: Vec::new(alloc),
    };
    let mut reader = file;
    text.clear();
    match put_records(
        alloc,
        &mut reader,
        false,
        &mut listing,
        std::slice::from_mut(text),
        &mut std::io::sink(),
        &mut Sums::new(),
    ) {
        Ok(_) => Ok(()),
        Err(Failed::Faulty(fault)) => {
            text.clear();
            add_fault(text, fault)
        }
        Err(_) => Err(Error::from(ErrorKind::OutOfMemory)),
    }
}

// Makes the text of a file.
fn make_text(
    alloc: Global,
    file: &[u8],
    limits: Limits,
    options: LongdustOptions,
    text: &mut Vec<u8>,
) -> IoResult<()>
    ensures { OnOk result (text.new.items ≡ limited_text limits options file.now) }
{
    if (limits.bytes as usize) < file.len() {
        text.clear();
        text.extend_from_slice(b"refused size\n")?;
        return Ok(());
    }
    make_records(alloc, file, limits, options, text)
}

// Prints a text: how many bytes it has.
fn print_text<W: Write>(text: &[u8], out: &mut W) -> Result<usize, Failed>
    ensures written { Sent (W.contents out.old) (W.contents out.new) text.now result }
    ensures count { IfOk result (λ n. n ≡ length text.now) }
{
    match write_whole(out, text) {
        Ok(()) => Ok(text.len()),
        Err(e) => Err(Failed::Writing(e)),
    }
}

/// Reads a file and prints its text, with these limits and these options: how many bytes the text has. Where a write fails, a front of it was
/// printed, else nothing; of the bytes read it goes by as many as are taken, and one more.
pub fn print_limited<R: Read, W: Write>(
    alloc: Global,
    reader: &mut R,
    limits: Limits,
    options: LongdustOptions,
    out: &mut W,
) -> Result<usize, Failed>
    ensures written { IfSome (R.remaining reader.old) (λ file.
        Sent (W.contents out.old) (W.contents out.new) (limited_text limits options file) result) }
    ensures count { IfSome (R.remaining reader.old) (λ file. IfOk result (λ n. n ≡ length (limited_text limits options file))) }
{
    let mut file = Vec::new(alloc);
    if let Err(e) = read_front(reader, limits.bytes, &mut file) {
        return Err(Failed::Reading(e));
    }
    let mut text = Vec::new(alloc);
    if let Err(_) = make_text(alloc, file.as_slice(), limits, options, &mut text) {
        return Err(Failed::NoMemory);
    }
    print_text(text.as_slice(), out)
}

/// Reads a file and prints its text, with the limits of `contigs` and the default options: how many bytes the text has.
pub fn print_file<R: Read, W: Write>(
    alloc: Global,
    reader: &mut R,
    out: &mut W,
) -> Result<usize, Failed>
    ensures written { IfSome (R.remaining reader.old) (λ file. Sent (W.contents out.old) (W.contents out.new) (file_text file) result) }
    ensures count { IfSome (R.remaining reader.old) (λ file. IfOk result (λ n. n ≡ length (file_text file))) }
{
    print_limited(alloc, reader, LIMITS, LongdustOptions::default(), out)
}
