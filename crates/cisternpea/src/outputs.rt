// What is written where.

use crate::saying::say;
use crate::values::{split_file, whole};
use clap::ArgMatches;
use forms::{Form, Wanted};
use std::alloc::{AllocError, Global};

/// A form, and its file; none for standard output, or for the file of -o.
#[derive(Clone, Copy)]
pub struct Output<'a> {
    pub form: Form,
    pub file: Option<&'a str>,
}

// The word of a form, without its value.
pub fn word(form: Form) -> &'static str {
    match form {
        Form::Bed => "--bed",
        Form::Marks => "--marks",
        Form::Soft => "--soft",
        Form::HardN => "--hard",
        Form::HardX => "--hard",
        Form::Summary => "--summary",
        Form::Bedgraph(_) => "--bedgraph",
        Form::Strongest(_) => "--strongest",
        Form::Free(_) => "--free",
    }
}

// `-` is standard output.
fn named(file: Option<&str>) -> Option<&str> {
    match file {
        Some("-") => None,
        _ => file,
    }
}

// The outputs of a form whose value is its file.
fn add_plain<'a>(
    matches: &ArgMatches<'a>,
    name: &str,
    form: Form,
    outputs: &mut Vec<Output<'a>>,
) -> Result<(), AllocError> {
    for file in matches.get_raw(name).unwrap_or(&[]) {
        outputs.push(Output {
            form,
            file: named(Some(*file)),
        })?;
    }
    Ok(())
}

// Says what the value of an option must be.
fn wrong(rt: &HostRuntime, word: &str, value: &str, need: &str) {
    let _ = eprintln!(rt; "cisternpea: {word} {value}: it must be {need}");
}

// N or X in place of each masked letter.
fn hard_form(text: &str) -> Option<Form> {
    match text {
        "N" => Some(Form::HardN),
        "X" => Some(Form::HardX),
        _ => None,
    }
}

fn add_hard<'a>(
    rt: &HostRuntime,
    matches: &ArgMatches<'a>,
    outputs: &mut Vec<Output<'a>>,
) -> Result<bool, AllocError> {
    for text in matches.get_raw("hard").unwrap_or(&[]) {
        let (value, file) = split_file(text);
        match hard_form(value) {
            Some(form) => {
                outputs.push(Output {
                    form,
                    file: named(file),
                })?;
            }
            None => {
                wrong(rt, "--hard", value, "N or X");
                return Ok(false);
            }
        }
    }
    Ok(true)
}

fn add_bedgraph<'a>(
    rt: &HostRuntime,
    matches: &ArgMatches<'a>,
    outputs: &mut Vec<Output<'a>>,
) -> Result<bool, AllocError> {
    for text in matches.get_raw("bedgraph").unwrap_or(&[]) {
        let (value, file) = split_file(text);
        match whole(value, 1, 2147483647) {
            Some(size) => {
                outputs.push(Output {
                    form: Form::Bedgraph(size.min(2147483647) as u32),
                    file: named(file),
                })?;
            }
            None => {
                wrong(
                    rt,
                    "--bedgraph",
                    value,
                    "a whole number from 1 to 2147483647",
                );
                return Ok(false);
            }
        }
    }
    Ok(true)
}

// The score that a stretch must exceed; 0 if none is given.
fn floor(rt: &HostRuntime, matches: &ArgMatches) -> Option<u64> {
    let text = match matches.get_str("floor") {
        Some(text) => text,
        None => return Some(0),
    };
    let floor = command_line::score(text.as_bytes());
    if floor.is_none() {
        wrong(
            rt,
            "--floor",
            text,
            "a number from 0 to 1073741824, with up to six digits behind a point",
        );
    }
    floor
}

// Whether no option of the lists is given without one.
fn lists_asked(rt: &HostRuntime, matches: &ArgMatches) -> bool {
    if matches.get_raw("strongest").is_some() {
        return true;
    }
    let alone = if matches.get_str("floor").is_some() {
        "--floor"
    } else if matches.get_flag("whole") {
        "--whole"
    } else {
        return true;
    };
    let _ = eprintln!(rt; "cisternpea: {alone}: it goes with --strongest");
    false
}

fn add_strongest<'a>(
    rt: &HostRuntime,
    matches: &ArgMatches<'a>,
    outputs: &mut Vec<Output<'a>>,
) -> Result<bool, AllocError> {
    let floor = match floor(rt, matches) {
        Some(floor) => floor,
        None => return Ok(false),
    };
    for text in matches.get_raw("strongest").unwrap_or(&[]) {
        let (value, file) = split_file(text);
        match whole(value, 1, 1000000) {
            Some(most) => {
                outputs.push(Output {
                    form: Form::Strongest(Wanted {
                        most: most as usize,
                        floor,
                        whole: matches.get_flag("whole"),
                    }),
                    file: named(file),
                })?;
            }
            None => {
                wrong(rt, "--strongest", value, "a whole number from 1 to 1000000");
                return Ok(false);
            }
        }
    }
    Ok(lists_asked(rt, matches))
}

// The letters kept clear beside a masked one; 0 if no number is given.
fn pad(rt: &HostRuntime, matches: &ArgMatches) -> Option<u32> {
    let text = match matches.get_str("pad") {
        Some(text) => text,
        None => return Some(0),
    };
    match whole(text, 0, 2147483647) {
        Some(pad) => Some(pad.min(2147483647) as u32),
        None => {
            wrong(rt, "--pad", text, "a whole number from 0 to 2147483647");
            None
        }
    }
}

fn add_free<'a>(
    rt: &HostRuntime,
    matches: &ArgMatches<'a>,
    outputs: &mut Vec<Output<'a>>,
) -> Result<bool, AllocError> {
    let pad = match pad(rt, matches) {
        Some(pad) => pad,
        None => return Ok(false),
    };
    if matches.get_raw("free").is_none() & matches.get_str("pad").is_some() {
        let _ = eprintln!(rt; "cisternpea: --pad: it goes with --free");
        return Ok(false);
    }
    add_plain(matches, "free", Form::Free(pad), outputs)?;
    Ok(true)
}

// Whether at most one of them has no file; else a line says which two have none.
fn one_without_file(rt: &HostRuntime, outputs: &[Output<'_>]) -> bool {
    let mut first = "";
    for output in outputs {
        if output.file.is_some() {
            continue;
        }
        let word = word(output.form);
        if !first.is_empty() {
            let _ = eprintln!(rt;
                "cisternpea: {word}: {first} was given already, and one thing is written to standard output; --help says how to name files"
            );
            return false;
        }
        first = word;
    }
    true
}

// Whether no file is named twice; else a line says which.
fn each_file_once(rt: &HostRuntime, outputs: &[Output<'_>], main: Option<&str>) -> bool {
    for i in 0..outputs.len() {
        let file = match outputs[i].file {
            Some(file) => file,
            None => continue,
        };
        let is_main = main == Some(file);
        if is_main | outputs[..i].iter().any(|other| other.file == Some(file)) {
            let word = word(outputs[i].form);
            let _ = eprintln!(rt;
                "cisternpea: {word}: {file} was given already, and one thing is written to a file"
            );
            return false;
        }
    }
    true
}

/// The outputs, that without a file first; none where a line on standard error says what is wrong.
pub fn read_outputs<'a>(
    rt: &HostRuntime,
    alloc: Global,
    matches: &ArgMatches<'a>,
) -> Result<Option<Vec<Output<'a>>>, AllocError> {
    let mut given = Vec::new(alloc);
    add_plain(matches, "bed", Form::Bed, &mut given)?;
    add_plain(matches, "marks", Form::Marks, &mut given)?;
    add_plain(matches, "soft", Form::Soft, &mut given)?;
    if !add_hard(rt, matches, &mut given)? {
        return Ok(None);
    }
    add_plain(matches, "summary", Form::Summary, &mut given)?;
    if !add_bedgraph(rt, matches, &mut given)? {
        return Ok(None);
    }
    if !add_strongest(rt, matches, &mut given)? {
        return Ok(None);
    }
    if !add_free(rt, matches, &mut given)? {
        return Ok(None);
    }
    let main = matches.get_str("output");
    if !one_without_file(rt, given.as_slice()) | !each_file_once(rt, given.as_slice(), main) {
        return Ok(None);
    }
    Ok(Some(main_first(alloc, given.as_slice(), main.is_some())?))
}

// The one without a file first. With -o, or where none is given, that is BED unless another has no file.
fn main_first<'a>(
    alloc: Global,
    given: &[Output<'a>],
    has_output: bool,
) -> Result<Vec<Output<'a>>, AllocError> {
    let mut outputs = Vec::new(alloc);
    for output in given {
        if output.file.is_none() {
            outputs.push(*output)?;
        }
    }
    if outputs.is_empty() & (given.is_empty() | has_output) {
        outputs.push(Output {
            form: Form::Bed,
            file: None,
        })?;
    }
    for output in given {
        if output.file.is_some() {
            outputs.push(*output)?;
        }
    }
    Ok(outputs)
}
