// The program: the command line, a plan of it or the files, and a status. What is written for a file is said by `forms::FormRecorder`.

#![tactic(auto)]

mod budget;
mod closing;
mod command;
mod files;
mod notes;
mod outputs;
mod planning;
mod request;
mod said_of_files;
mod saying;
mod sink;
mod values;
mod watched;

use clap::ArgMatches;
use request::{Request, read_request};
use std::io::{ErrorKind, IsTerminal};
use std::process::ExitCode;

// Whether there is a file to read, or standard input is no terminal; else a line says so.
fn has_input(rt: &HostRuntime, matches: &ArgMatches, request: &Request) -> bool {
    if matches.get_raw("FILE").is_some() | request.part.is_some() {
        return true;
    }
    if rt.stdin().is_terminal() {
        let _ = eprintln!(rt; "cisternpea: name a FASTA file; --help says more");
        return false;
    }
    true
}

// Whether no output's name ends in .gz, since packing is the driver's; else a line says so.
fn packs_none(rt: &HostRuntime, request: &Request) -> bool {
    for output in &request.outputs {
        if let Some(path) = output.file.or(request.output) {
            if path.ends_with(".gz") {
                let _ = eprintln!(rt;
                    "cisternpea: {path}: this program writes no gzip; cisternpea, the driver, does"
                );
                return false;
            }
        }
    }
    true
}

// Says which options lie outside the ranges that the bounds of the masker hold for.
fn warn(rt: &HostRuntime, request: &Request) {
    let threshold = request.settings.options.score_threshold;
    if 16.0 < threshold {
        let _ = eprintln!(rt;
            "cisternpea: --score-threshold {threshold}: above 16 it is not promised that no better stretch is masked"
        );
    }
}

// Writes the plan to the file: the status.
fn write_plan(
    rt: &HostRuntime,
    path: &str,
    matches: &ArgMatches,
    request: &Request,
) -> anyhow::Result<u8> {
    let text = planning::plan(rt.alloc(), matches, request)?;
    match std::fs::write(rt, path, text.as_slice()) {
        Ok(()) => Ok(files::DONE),
        Err(e) => {
            saying::say_error(rt, path, e);
            Ok(files::FAILED)
        }
    }
}

// The first word that asks for help or for the version, wherever it stands before a `--`.
fn asked(words: &[String]) -> Option<&'static str> {
    for word in words {
        match word.as_str() {
            "--" => return None,
            "--help" => return Some("--help"),
            "--version" => return Some("--version"),
            _ => {}
        }
    }
    None
}

// The status of a run with these words; with a file for its plan, the plan alone is made.
fn run_words(rt: &HostRuntime, words: &[String], plan: Option<&str>) -> anyhow::Result<u8> {
    let alloc = rt.alloc();
    if let Some(word) = asked(words) {
        return match command::command(alloc)?.try_get_matches_from(&["cisternpea", word]) {
            Ok(_) => Ok(files::DONE),
            Err(error) => Ok(saying::say_parse(rt, error)),
        };
    }
    let matches = match command::command(alloc)?.try_get_matches_from(words) {
        Ok(matches) => matches,
        Err(error) => return Ok(saying::say_parse(rt, error)),
    };
    let request = match read_request(rt, alloc, &matches)? {
        Some(request) => request,
        None => return Ok(files::USAGE),
    };
    if request.foot {
        return Ok(files::write_foot(rt, &request)?);
    }
    if !has_input(rt, &matches, &request) {
        return Ok(files::USAGE);
    }
    if request.part.is_none() {
        warn(rt, &request);
    }
    match plan {
        Some(path) => write_plan(rt, path, &matches, &request),
        None if !packs_none(rt, &request) => Ok(files::USAGE),
        None => {
            let names = matches.get_raw("FILE").unwrap_or(&["-"]);
            Ok(files::mask(rt, names, &request)?)
        }
    }
}

// The status of the whole run. As a first word, `--plan FILE` asks for the plan of the words behind it.
fn run(rt: &HostRuntime) -> anyhow::Result<u8> {
    let words: Vec<String> = match std::env::args(rt) {
        Ok(words) => words.collect(rt.alloc())?,
        Err(e) => {
            let full = e.kind() == ErrorKind::OutOfMemory;
            saying::say_error(rt, "a word of the command line", e);
            return Ok(if full { files::FAILED } else { files::USAGE });
        }
    };
    let words = words.as_slice();
    if 2 < words.len() {
        if words[1].as_str() == "--plan" {
            return run_words(rt, &words[2..], Some(words[2].as_str()));
        }
    }
    run_words(rt, words, None)
}

fn main(rt: HostRuntime) -> anyhow::Result<ExitCode> {
    match run(&rt) {
        Ok(status) => Ok(ExitCode::from(status)),
        Err(e) => {
            let _ = eprintln!(rt; "cisternpea: {e}");
            Ok(ExitCode::from(files::FAILED))
        }
    }
}
