// The plan for a driver: what a run asks for, and the command line of those that do a part of it.

use crate::budget::held_by;
use crate::outputs::{Output, word};
use crate::request::Request;
use clap::ArgMatches;
use command_line::{add_line, add_number};
use forms::{Form, put_head};
use std::alloc::{AllocError, Global};

// What a part's run holds.
fn add_held(text: &mut Vec<u8>, request: &Request) -> Result<(), AllocError> {
    let held = held_by(request);
    add_number(text, b'f', held.fixed)?;
    add_number(text, b'e', held.tenths)
}

// What stands above all records in a form.
fn add_head(alloc: Global, text: &mut Vec<u8>, form: Form) -> Result<(), AllocError> {
    let mut head = Vec::new(alloc);
    if put_head(form, &mut head).is_err() {
        return Err(AllocError);
    }
    if head.is_empty() {
        return Ok(());
    }
    add_line(text, b'h', head.as_slice())
}

// The outputs' files, each with its head.
fn add_outputs(alloc: Global, text: &mut Vec<u8>, request: &Request) -> Result<(), AllocError> {
    if let Some(path) = request.output {
        add_line(text, b'o', path.as_bytes())?;
    }
    for output in &request.outputs {
        if let Some(path) = output.file {
            add_line(text, b'x', path.as_bytes())?;
        }
        add_head(alloc, text, output.form)?;
    }
    Ok(())
}

// The value of a form's word.
fn form_value(alloc: Global, form: Form, file: &str) -> Result<String, AllocError> {
    match form {
        Form::HardN => format!(in alloc; "N:{file}"),
        Form::HardX => format!(in alloc; "X:{file}"),
        Form::Bedgraph(size) => format!(in alloc; "{size}:{file}"),
        Form::Strongest(wanted) => {
            let most = wanted.most;
            format!(in alloc; "{most}:{file}")
        }
        _ => format!(in alloc; "{file}"),
    }
}

// A form's word, for the file with this number.
fn add_form(
    alloc: Global,
    text: &mut Vec<u8>,
    what: u8,
    output: Output<'_>,
    number: u64,
) -> Result<(), AllocError> {
    let file = if output.file.is_some() {
        format!(in alloc; "/dev/fd/{number}")?
    } else {
        format!(in alloc; "-")?
    };
    let value = form_value(alloc, output.form, file.as_str())?;
    let name = word(output.form);
    let words = format!(in alloc; "{name}={value}")?;
    add_line(text, what, words.as_bytes())
}

// The words of all forms: the number of the next file.
fn add_forms(
    alloc: Global,
    text: &mut Vec<u8>,
    what: u8,
    request: &Request,
) -> Result<u64, AllocError> {
    let mut number = 3u64;
    for output in &request.outputs {
        add_form(alloc, text, what, *output, number)?;
        if output.file.is_some() {
            number = number.saturating_add(1);
        }
    }
    Ok(number)
}

// An option of the masker as it was given last, or by its default.
fn add_option(
    alloc: Global,
    text: &mut Vec<u8>,
    what: u8,
    matches: &ArgMatches<'_>,
    name: &str,
) -> Result<(), AllocError> {
    if let Some(value) = matches.get_raw(name).unwrap_or(&[]).last() {
        let words = format!(in alloc; "--{name}={value}")?;
        add_line(text, what, words.as_bytes())?;
    }
    Ok(())
}

// The same without a value.
fn add_flag(
    alloc: Global,
    text: &mut Vec<u8>,
    matches: &ArgMatches<'_>,
    name: &str,
) -> Result<(), AllocError> {
    if matches.get_flag(name) {
        let words = format!(in alloc; "--{name}")?;
        add_line(text, b'w', words.as_bytes())?;
    }
    Ok(())
}

// The file for the numbers, behind those of the outputs.
fn add_numbers(alloc: Global, text: &mut Vec<u8>, number: u64) -> Result<(), AllocError> {
    add_line(text, b'n', b"")?;
    let words = format!(in alloc; "--numbers=/dev/fd/{number}")?;
    add_line(text, b'w', words.as_bytes())
}

// The command line of the last run.
fn add_last(
    alloc: Global,
    text: &mut Vec<u8>,
    matches: &ArgMatches<'_>,
    request: &Request,
) -> Result<(), AllocError> {
    add_forms(alloc, text, b'F', request)?;
    add_option(alloc, text, b'F', matches, "gc")?;
    add_line(text, b'F', b"--foot")?;
    if request.quiet {
        add_line(text, b'F', b"--quiet")?;
    }
    if request.closing {
        add_line(text, b'F', b"--closing")?;
    }
    Ok(())
}

// The command line of those that do a part.
fn add_words(
    alloc: Global,
    text: &mut Vec<u8>,
    matches: &ArgMatches<'_>,
    request: &Request,
) -> Result<(), AllocError> {
    let number = add_forms(alloc, text, b'w', request)?;
    add_numbers(alloc, text, number)?;
    for name in [
        "kmer",
        "window-size",
        "score-threshold",
        "gc",
        "xdrop",
        "min-start-cnt",
        "min-length",
        "floor",
        "pad",
    ] {
        add_option(alloc, text, b'w', matches, name)?;
    }
    add_flag(alloc, text, matches, "approx")?;
    add_flag(alloc, text, matches, "forward-only")?;
    add_flag(alloc, text, matches, "skip-short")?;
    add_flag(alloc, text, matches, "whole")
}

/// The plan, as bytes.
pub fn plan(
    alloc: Global,
    matches: &ArgMatches<'_>,
    request: &Request,
) -> Result<Vec<u8>, AllocError> {
    let mut text = Vec::new(alloc);
    if let Some(n) = request.threads {
        add_number(&mut text, b't', n)?;
    }
    if let Some(n) = request.memory {
        add_number(&mut text, b'm', n)?;
    }
    add_held(&mut text, request)?;
    for name in matches.get_raw("FILE").unwrap_or(&["-"]) {
        add_line(&mut text, b'i', name.as_bytes())?;
    }
    add_outputs(alloc, &mut text, request)?;
    if request.quiet {
        add_line(&mut text, b'q', b"")?;
    }
    if !request.settings.options.forward_only {
        add_line(&mut text, b's', b"")?;
    }
    add_words(alloc, &mut text, matches, request)?;
    add_last(alloc, &mut text, matches, request)?;
    Ok(text)
}
