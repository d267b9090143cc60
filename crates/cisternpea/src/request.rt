// What a command line asks for.

use crate::outputs::{Output, read_outputs};
use crate::values::{fraction, split_file, whole};
use clap::ArgMatches;
use forms::{Form, Settings};
use longdust::LongdustOptions;
use std::alloc::{AllocError, Global};
use std::io::IsTerminal;
use tables::GcOption;

/// A part of a file, from standard input.
#[derive(Clone, Copy)]
pub struct Part<'a> {
    /// The file, as the user named it.
    pub source: &'a str,
    /// Bytes of the file before this part.
    pub offset: u64,
}

/// What is done with the strands of a record.
#[derive(Clone, Copy)]
pub enum Strands<'a> {
    /// Both are masked.
    Both,
    /// One is, the reverse complement or the other; its list is written, as bytes.
    One(bool),
    /// They were masked: the files of their lists, that of the reverse complement last.
    Joined(&'a str, &'a str),
}

/// What a command line asks for.
#[derive(Drop)]
pub struct Request<'a> {
    /// The outputs, that without a file first.
    pub outputs: Vec<Output<'a>>,
    /// The file of the output without one; none is standard output.
    pub output: Option<&'a str>,
    /// What is asked of the masker, and of what is written.
    pub settings: Settings,
    /// Threads asked for.
    pub threads: Option<u64>,
    /// Bytes that the run may hold.
    pub memory: Option<u64>,
    /// No progress, no closing line.
    pub quiet: bool,
    /// The part of a file that this run is for.
    pub part: Option<Part<'a>>,
    /// What is done with the strands.
    pub strands: Strands<'a>,
    /// The file for the numbers of that part.
    pub numbers: Option<&'a str>,
    /// Standard input has the numbers of all parts: what stands below the records is to be written.
    pub foot: bool,
    /// What was counted is said.
    pub closing: bool,
}

// Says what the value of an option must be.
fn wrong(rt: &HostRuntime, name: &str, value: &str, need: &str) {
    let _ = eprintln!(rt; "cisternpea: --{name} {value}: it must be {need}");
}

// An option's whole number from low to high: the last one that is given, where each is right.
fn number(rt: &HostRuntime, matches: &ArgMatches, name: &str, low: u64, high: u64) -> Option<u64> {
    let mut last = None;
    for text in matches.get_raw(name)? {
        last = whole(text, low, high);
        if last.is_none() {
            let _ = eprintln!(rt;
                "cisternpea: --{name} {text}: it must be a whole number from {low} to {high}"
            );
            return None;
        }
    }
    last
}

fn threshold_of(rt: &HostRuntime, text: &str) -> Option<f64> {
    match fraction(text) {
        Some(x) if 0.0 < x => Some(x),
        _ => {
            wrong(rt, "score-threshold", text, "a number above 0");
            None
        }
    }
}

// The last one, where each is right; so below.
fn threshold(rt: &HostRuntime, matches: &ArgMatches) -> Option<f64> {
    let mut last = None;
    for text in matches.get_raw("score-threshold")? {
        last = Some(threshold_of(rt, text)?);
    }
    last
}

fn gc_of(rt: &HostRuntime, text: &str) -> Option<GcOption> {
    if text == "uniform" {
        return Some(GcOption::Uniform);
    }
    if text == "auto" {
        return Some(GcOption::Auto);
    }
    match fraction(text) {
        Some(x) if (0.0 <= x) & (x <= 1.0) => Some(GcOption::Fixed(x)),
        _ => {
            wrong(rt, "gc", text, "uniform, auto or a number from 0 to 1");
            None
        }
    }
}

fn gc(rt: &HostRuntime, matches: &ArgMatches) -> Option<GcOption> {
    let mut last = None;
    for text in matches.get_raw("gc")? {
        last = Some(gc_of(rt, text)?);
    }
    last
}

fn xdrop_of(rt: &HostRuntime, text: &str) -> Option<Option<u32>> {
    if text == "none" {
        return Some(None);
    }
    match whole(text, 1, 4294967295) {
        Some(n) => Some(Some(n.min(4294967295) as u32)),
        None => {
            wrong(
                rt,
                "xdrop",
                text,
                "none or a whole number from 1 to 4294967295",
            );
            None
        }
    }
}

fn xdrop(rt: &HostRuntime, matches: &ArgMatches) -> Option<Option<u32>> {
    let mut last = None;
    for text in matches.get_raw("xdrop")? {
        last = Some(xdrop_of(rt, text)?);
    }
    last
}

fn masker_options(rt: &HostRuntime, matches: &ArgMatches) -> Option<LongdustOptions> {
    let kmer = number(rt, matches, "kmer", 1, 12)?;
    let window = number(rt, matches, "window-size", 2, 65535)?;
    let start = number(rt, matches, "min-start-cnt", 2, 65535)?;
    if window <= kmer {
        let _ = eprintln!(rt;
            "cisternpea: --window-size {window}: it must be above --kmer, which is {kmer}"
        );
        return None;
    }
    Some(LongdustOptions {
        window_size: window as usize,
        score_threshold: threshold(rt, matches)?,
        kmer: kmer as usize,
        gc: gc(rt, matches)?,
        xdrop: xdrop(rt, matches)?,
        min_start_cnt: start.min(65535) as u16,
        approx: matches.get_flag("approx"),
        forward_only: matches.get_flag("forward-only"),
    })
}

fn settings(rt: &HostRuntime, matches: &ArgMatches) -> Option<Settings> {
    let options = masker_options(rt, matches)?;
    let min_length = number(rt, matches, "min-length", 0, 4294967295)?;
    Some(Settings {
        options,
        skip_short: matches.get_flag("skip-short"),
        min_length: min_length.min(4294967295) as u32,
    })
}

// An option that may be left out: its number, as `read` reads it.
fn threads(rt: &HostRuntime, matches: &ArgMatches) -> Option<Option<u64>> {
    if matches.get_raw("threads").is_none() {
        return Some(None);
    }
    Some(Some(number(rt, matches, "threads", 1, 1024)?))
}

fn memory_of(rt: &HostRuntime, text: &str) -> Option<u64> {
    match command_line::size(text.as_bytes()) {
        Some(n) if 1 <= n => Some(n),
        _ => {
            wrong(
                rt,
                "memory",
                text,
                "a number of bytes above 0, or one with K, M, G or T, as 500M or 1.5G",
            );
            None
        }
    }
}

fn memory(rt: &HostRuntime, matches: &ArgMatches) -> Option<Option<u64>> {
    let mut last = None;
    for text in matches.get_raw("memory").unwrap_or(&[]) {
        last = Some(memory_of(rt, text)?);
    }
    Some(last)
}

fn asked_part<'a>(rt: &HostRuntime, matches: &ArgMatches<'a>) -> Option<Option<Part<'a>>> {
    let source = match matches.get_str("source") {
        Some(source) => source,
        None => return Some(None),
    };
    let offset = number(rt, matches, "offset", 0, 9223372036854775807)?;
    Some(Some(Part { source, offset }))
}

fn asked_strands<'a>(rt: &HostRuntime, matches: &ArgMatches<'a>) -> Option<Strands<'a>> {
    if let Some(text) = matches.get_str("join") {
        let (forward, reverse) = split_file(text);
        if reverse.is_none() {
            wrong(rt, "join", text, "two files");
        }
        return Some(Strands::Joined(forward, reverse?));
    }
    match matches.get_str("strand") {
        None => Some(Strands::Both),
        Some("forward") => Some(Strands::One(false)),
        Some("reverse") => Some(Strands::One(true)),
        Some(text) => {
            wrong(rt, "strand", text, "forward or reverse");
            None
        }
    }
}

// Whether what was counted is said: on a terminal.
fn says_closing(rt: &HostRuntime, matches: &ArgMatches) -> bool {
    if matches.get_flag("quiet") | matches.get_str("source").is_some() {
        return false;
    }
    rt.stderr().is_terminal()
}

// Whether T is small enough for each output; else a line says so. The strongest stretches are listed by T below 16, rounded to units of 2^-32.
fn threshold_fits(rt: &HostRuntime, outputs: &[Output<'_>], threshold: f64) -> bool {
    for output in outputs {
        if matches!(output.form, Form::Strongest(_))
            & (15.999999999883584678173065185546875 <= threshold)
        {
            let _ = eprintln!(rt;
                "cisternpea: --score-threshold {threshold}: it must be below 16 with --strongest"
            );
            return false;
        }
    }
    true
}

// All but the outputs.
fn with_outputs<'a>(
    rt: &HostRuntime,
    matches: &ArgMatches<'a>,
    outputs: Vec<Output<'a>>,
) -> Option<Request<'a>> {
    let settings = settings(rt, matches)?;
    if !threshold_fits(rt, outputs.as_slice(), settings.options.score_threshold) {
        return None;
    }
    Some(Request {
        outputs,
        output: matches.get_str("output"),
        settings,
        threads: threads(rt, matches)?,
        memory: memory(rt, matches)?,
        quiet: matches.get_flag("quiet"),
        part: asked_part(rt, matches)?,
        strands: asked_strands(rt, matches)?,
        numbers: matches.get_str("numbers"),
        foot: matches.get_flag("foot"),
        closing: matches.get_flag("closing") | says_closing(rt, matches),
    })
}

/// None where a line on standard error says what is wrong.
pub fn read_request<'a>(
    rt: &HostRuntime,
    alloc: Global,
    matches: &ArgMatches<'a>,
) -> Result<Option<Request<'a>>, AllocError> {
    match read_outputs(rt, alloc, matches)? {
        Some(outputs) => Ok(with_outputs(rt, matches, outputs)),
        None => Ok(None),
    }
}
