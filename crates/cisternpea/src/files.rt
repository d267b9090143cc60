// The files of a run, one after the other.

use crate::budget::held_by;
use crate::closing::say_sums;
use crate::notes::Notes;
use crate::request::{Request, Strands};
use crate::said_of_files::{advice, say_failed};
use crate::saying;
use crate::sink::{Sink, Target, open_file, settle};
use crate::watched::{Place, Watched};
use command_line::{Kind, kind_of};
use entries::{Failed, Sums, put_records, read_sums, write_sums};
use forms::{Form, FormRecorder, Room};
use masker::Masker;
use std::fs::File;
use std::io::{BufRead, BufReader, BufWriter, Write};
use strands::Joining;

// The outputs: their forms, and a writer for each; what was counted.
#[derive(Drop)]
struct Outs {
    forms: Vec<Form>,
    writers: Vec<BufWriter<Sink>>,
    sums: Sums,
}

pub const DONE: u8 = 0;

pub const REFUSED: u8 = 1;

pub const USAGE: u8 = 2;

pub const FAILED: u8 = 3;

// A part of a file that stopped at a fault of the file.
pub const FAULTY: u8 = 4;

const ROOM: usize = 65536;

// The status of a run that did not come to its end.
fn failed_status(request: &Request, failed: &Failed) -> u8 {
    match failed {
        Failed::Faulty(_) if request.part.is_some() => FAULTY,
        _ => FAILED,
    }
}

// What the first bytes tell; none where they cannot be read.
fn first_kind<R: BufRead>(reader: &mut R) -> Kind {
    match reader.fill_buf() {
        Ok(bytes) => kind_of(bytes),
        Err(_) => Kind::Other,
    }
}

// How many bytes stand up to the end of the first line.
fn line_length(bytes: &[u8]) -> usize {
    match bytes.iter().position(|byte| *byte == b'\n') {
        Some(at) => at.saturating_add(1),
        None => bytes.len(),
    }
}

// Takes the rest of a record that does not fit: its bytes in all.
fn take_record<R: BufRead>(reader: &mut Watched<R>) -> u64 {
    reader.most = u64::MAX;
    for _ in 0..u64::MAX {
        let inside = reader.place.inside;
        let n = match reader.fill_buf() {
            Ok(shown) => {
                if !inside & shown.starts_with(b">") {
                    0
                } else {
                    line_length(shown)
                }
            }
            Err(_) => 0,
        };
        if n == 0 {
            break;
        }
        reader.consume(n);
    }
    reader.place.record
}

// Says that a record does not fit, and the memory that would do.
fn say_full<R: BufRead>(rt: &HostRuntime, name: &str, request: &Request, reader: &mut Watched<R>) {
    let line = reader.place.header;
    let memory = request.memory.unwrap_or(0);
    let needed = held_by(request).needed(take_record(reader));
    let _ = eprintln!(rt;
        "cisternpea: {name}: line {line}: the record does not fit --memory {memory}; it must be {needed} or more"
    );
}

// The lists of both strands, as bytes.
fn read_lists(
    rt: &HostRuntime,
    forward: &str,
    reverse: &str,
) -> Result<(Vec<u8>, Vec<u8>), Failed> {
    match std::fs::read(rt, forward) {
        Ok(forward) => match std::fs::read(rt, reverse) {
            Ok(reverse) => Ok((forward, reverse)),
            Err(e) => Err(Failed::Reading(e)),
        },
        Err(e) => Err(Failed::Reading(e)),
    }
}

// What writes the records of all files: its tables are filled once. None where there is no memory for them, or a part of the work is asked for.
fn recorder_of<'a>(
    rt: &HostRuntime,
    forms: &'a [Form],
    request: &Request,
) -> Option<FormRecorder<'a, Masker>> {
    match request.strands {
        Strands::Both => match FormRecorder::new(rt.alloc(), forms, request.settings) {
            Ok(recorder) => Some(recorder),
            Err(_) => None,
        },
        _ => None,
    }
}

// Writes what is asked for of the records that the reader gives.
fn put_reader<R: BufRead>(
    rt: &HostRuntime,
    reader: &mut Watched<R>,
    request: &Request,
    recorder: &mut Option<FormRecorder<'_, Masker>>,
    outs: &mut Outs,
) -> Result<(), Failed> {
    let alloc = rt.alloc();
    let settings = request.settings;
    let forms = outs.forms.as_slice();
    let writers = outs.writers.as_mut_slice();
    let sums = &mut outs.sums;
    let mut notes = Notes { inner: rt.stderr() };
    match request.strands {
        Strands::Both => match recorder {
            Some(recorder) => put_records(alloc, reader, true, recorder, writers, &mut notes, sums),
            None => Err(Failed::NoMemory),
        },
        Strands::One(reverse) => {
            let options = settings.options;
            strands::put_strand(alloc, reader, options, reverse, writers, &mut notes, sums)
        }
        Strands::Joined(forward, reverse) => {
            let (forward, reverse) = read_lists(rt, forward, reverse)?;
            let joining = Joining {
                forms,
                settings,
                forward: forward.as_slice(),
                reverse: reverse.as_slice(),
            };
            strands::put_joined(alloc, reader, &joining, writers, &mut notes, sums)
        }
    }
}

// Masks the records that the reader gives: the status.
fn mask_reader<R: BufRead>(
    rt: &HostRuntime,
    name: &str,
    reader: &mut Watched<R>,
    request: &Request,
    recorder: &mut Option<FormRecorder<'_, Masker>>,
    outs: &mut Outs,
) -> u8 {
    let refused = outs.sums.refused;
    match put_reader(rt, reader, request, recorder, outs) {
        Ok(()) => {
            if !reader.place.some & is_begin(request) {
                saying::say(rt, name, "there is no record in it");
            }
            if outs.sums.refused == refused {
                DONE
            } else {
                REFUSED
            }
        }
        Err(failed) => {
            let status = failed_status(request, &failed);
            if reader.is_full() {
                say_full(rt, name, request, reader);
            } else if says(request, status) {
                say_failed(rt, name, request, reader.place, failed);
            }
            status
        }
    }
}

// Whether a fault of the file is said here: of one that is read for a strand alone, it is where both are joined.
fn says(request: &Request, status: u8) -> bool {
    match request.strands {
        Strands::One(_) => status != FAULTY,
        _ => true,
    }
}

// Whether standard input is a file from its begin on.
fn is_begin(request: &Request) -> bool {
    match request.part {
        Some(part) => part.offset == 0,
        None => true,
    }
}

// The most bytes of a record.
fn most_bytes(request: &Request) -> u64 {
    match request.memory {
        Some(memory) if request.part.is_none() => held_by(request).most(memory),
        _ => u64::MAX,
    }
}

// The same for what may be no FASTA.
fn mask_input<R: BufRead + Drop>(
    rt: &HostRuntime,
    name: &str,
    mut reader: R,
    request: &Request,
    recorder: &mut Option<FormRecorder<'_, Masker>>,
    outs: &mut Outs,
) -> u8 {
    if is_begin(request) {
        if let Some(advice) = advice(first_kind(&mut reader)) {
            if says(request, FAULTY) {
                saying::say(rt, name, advice);
            }
            return if request.part.is_some() {
                FAULTY
            } else {
                FAILED
            };
        }
    }
    let mut reader = Watched {
        inner: reader,
        place: Place::new(),
        most: most_bytes(request),
    };
    mask_reader(rt, name, &mut reader, request, recorder, outs)
}

// Masks the records of the file with this name; `-` is standard input.
fn mask_file(
    rt: &HostRuntime,
    name: &str,
    request: &Request,
    recorder: &mut Option<FormRecorder<'_, Masker>>,
    outs: &mut Outs,
) -> std::io::Result<u8> {
    if name == "-" {
        let shown = match request.part {
            Some(part) if part.source != "-" => part.source,
            _ => "standard input",
        };
        let reader = BufReader::with_capacity(rt.alloc(), ROOM, rt.stdin())?;
        return Ok(mask_input(rt, shown, reader, request, recorder, outs));
    }
    match File::open(rt, name) {
        Ok(file) => {
            let reader = BufReader::with_capacity(rt.alloc(), ROOM, file)?;
            Ok(mask_input(rt, name, reader, request, recorder, outs))
        }
        Err(e) => {
            saying::say_error(rt, name, e);
            Ok(FAILED)
        }
    }
}

// Masks the files in turn, up to the first that fails: the highest status.
fn mask_files(
    rt: &HostRuntime,
    names: &[&str],
    request: &Request,
    outs: &mut Outs,
) -> std::io::Result<u8> {
    let mut forms = Vec::new(rt.alloc());
    for form in &outs.forms {
        forms.push(*form)?;
    }
    let mut recorder = recorder_of(rt, forms.as_slice(), request);
    let mut status = DONE;
    for name in names {
        status = status.max(mask_file(rt, name, request, &mut recorder, outs)?);
        if FAILED <= status {
            break;
        }
    }
    Ok(status)
}

// Writes what the writers hold back.
fn flush_all<W: Write>(writers: &mut [W]) -> std::io::Result<()> {
    for i in 0..writers.len() {
        writers[i].flush()?;
    }
    Ok(())
}

// What stands below the records; for a part its numbers.
fn write_end(rt: &HostRuntime, request: &Request, outs: &mut Outs) -> std::io::Result<()> {
    if request.part.is_none() {
        let mut room = Room::new(rt.alloc());
        forms::put_feet(
            outs.forms.as_slice(),
            outs.sums,
            &mut room,
            outs.writers.as_mut_slice(),
        )?;
    }
    if let Strands::One(_) = request.strands {
        return flush_all(outs.writers.as_mut_slice());
    }
    if let Some(path) = request.numbers {
        write_sums(rt.alloc(), outs.sums, &mut File::create(rt, path)?)?;
    }
    flush_all(outs.writers.as_mut_slice())
}

// Heads, files, and what stands below: the status.
fn write_text(
    rt: &HostRuntime,
    names: &[&str],
    request: &Request,
    outs: &mut Outs,
) -> std::io::Result<u8> {
    if request.part.is_none() {
        if let Err(e) = forms::put_heads(outs.forms.as_slice(), outs.writers.as_mut_slice()) {
            saying::say_error(rt, "cannot write", e);
            return Ok(FAILED);
        }
    }
    let status = mask_files(rt, names, request, outs)?;
    let ended = if status == FAILED {
        flush_all(outs.writers.as_mut_slice())
    } else {
        write_end(rt, request, outs)
    };
    match ended {
        Ok(()) => Ok(status),
        Err(e) => {
            saying::say_error(rt, "cannot write", e);
            Ok(FAILED)
        }
    }
}

// The writer of an output; none where a line says why there is none.
fn open_writer<'a>(
    rt: &HostRuntime,
    path: Option<&'a str>,
    in_place: bool,
    targets: &mut Vec<Target<'a>>,
) -> std::io::Result<Option<BufWriter<Sink>>> {
    let sink = match path {
        None => Sink::Standard(rt.stdout()),
        Some(path) => match open_file(rt, path, in_place, targets) {
            Ok(sink) => sink,
            Err(e) => {
                saying::say_error(rt, path, e);
                return Ok(None);
            }
        },
    };
    Ok(Some(BufWriter::with_capacity(rt.alloc(), ROOM, sink)?))
}

// Opens the outputs; none where a line says why there is none.
fn open_outs<'a>(
    rt: &HostRuntime,
    request: &Request<'a>,
    targets: &mut Vec<Target<'a>>,
) -> std::io::Result<Option<Outs>> {
    let mut outs = Outs {
        forms: Vec::new(rt.alloc()),
        writers: Vec::new(rt.alloc()),
        sums: Sums::new(),
    };
    if let Strands::One(_) = request.strands {
        let sink = Sink::Standard(rt.stdout());
        outs.writers
            .push(BufWriter::with_capacity(rt.alloc(), ROOM, sink)?)?;
        return Ok(Some(outs));
    }
    let in_place = request.part.is_some() | request.foot;
    for output in &request.outputs {
        let path = output.file.or(request.output);
        match open_writer(rt, path, in_place, targets)? {
            Some(writer) => outs.writers.push(writer)?,
            None => return Ok(None),
        }
        outs.forms.push(output.form)?;
    }
    Ok(Some(outs))
}

// The text of the files, to outputs some of which are written beside their places: the status, and what was counted.
fn mask_to<'a>(
    rt: &HostRuntime,
    names: &[&str],
    request: &Request<'a>,
    targets: &mut Vec<Target<'a>>,
) -> std::io::Result<(u8, Sums)> {
    match open_outs(rt, request, targets)? {
        Some(mut outs) => {
            let status = write_text(rt, names, request, &mut outs)?;
            Ok((status, outs.sums))
        }
        None => Ok((FAILED, Sums::new())),
    }
}

/// Writes the text of the files: the status.
pub fn mask(rt: &HostRuntime, names: &[&str], request: &Request) -> std::io::Result<u8> {
    let mut targets = Vec::new(rt.alloc());
    let (status, sums) = mask_to(rt, names, request, &mut targets)?;
    if let Err(e) = settle(rt, targets.as_slice(), status < USAGE) {
        saying::say_error(rt, "cannot write", e);
        return Ok(FAILED);
    }
    if (status < USAGE) & request.part.is_none() {
        say_sums(rt, request, sums)?;
    }
    Ok(status)
}

// What stands below the records, by the numbers on standard input.
fn put_foot(rt: &HostRuntime, request: &Request, outs: &mut Outs) -> std::io::Result<()> {
    outs.sums = read_sums(rt.alloc(), &mut rt.stdin())?;
    write_end(rt, request, outs)?;
    say_sums(rt, request, outs.sums)
}

/// Writes what stands below the records of all parts: the status.
pub fn write_foot(rt: &HostRuntime, request: &Request) -> std::io::Result<u8> {
    let mut targets = Vec::new(rt.alloc());
    match open_outs(rt, request, &mut targets)? {
        Some(mut outs) => match put_foot(rt, request, &mut outs) {
            Ok(()) => Ok(DONE),
            Err(e) => {
                saying::say_error(rt, "cannot write", e);
                Ok(FAILED)
            }
        },
        None => Ok(FAILED),
    }
}
