// The command line.

use clap::{Arg, ArgAction, Command};
use std::alloc::{AllocError, Global};

/// The version of the program.
pub const VERSION: &str = "0.2.0";

const ABOUT: &str = "Masks low-complexity letters of FASTA files.";

const USAGE: &str = "cisternpea [OPTION..] [FILE..] > mask.bed";

const FORMS: &str = "What is written, records in the order of the files; BED if none is given";

const MASKER: &str = "The masker, by its own names and defaults";

const RUN: &str = "How it runs";

const NOTES: &str =
    "Several forms may be given, each with a file of its own; at most one is written to standard output, or to the file of -o.
A file whose name ends in .gz is written as bgzip.
A record has at most 2,147,483,647 letters; its name runs to the first blank. Lines may end in CRLF; the CR is dropped.
Letters are A to Z in either case, - and *; U counts as T.
A record that is refused is named on standard error and left out; in FASTA it is passed through as it came. The others are done.
Exit status: 0; 1 a record was refused; 2 a wrong option; 3 reading, writing or memory failed.";

// An option with a value.
fn value<'a>(alloc: Global, name: &'a str, shown: &'a str, help: &'a str) -> Arg<'a> {
    Arg::new(alloc, name)
        .long(name)
        .value_name(shown)
        .allow_hyphen_values(true)
        .help(help)
}

// An option of the masker with a value. Each value that is given must be right, and the last one counts.
fn masker_value<'a>(
    alloc: Global,
    name: &'a str,
    shown: &'a str,
    default: &'a str,
    help: &'a str,
) -> Arg<'a> {
    value(alloc, name, shown, help)
        .action(ArgAction::Append)
        .default_value(default)
        .help_heading(MASKER)
}

// An option without a value.
fn flag<'a>(alloc: Global, name: &'a str, help: &'a str) -> Arg<'a> {
    Arg::new(alloc, name)
        .long(name)
        .action(ArgAction::SetTrue)
        .help(help)
}

// The numbers of the masker.
fn masker_numbers<'a>(alloc: Global, command: Command<'a>) -> Result<Command<'a>, AllocError> {
    let kmer = masker_value(alloc, "kmer", "K", "7", "letters in a k-mer, 1 to 12");
    let window = masker_value(
        alloc,
        "window-size",
        "W",
        "5000",
        "letters in a window, K + 1 to 65535",
    );
    let threshold = masker_value(
        alloc,
        "score-threshold",
        "T",
        "0.6",
        "above 0; higher masks less",
    );
    let gc = masker_value(
        alloc,
        "gc",
        "HOW",
        "uniform",
        "uniform, auto (the record's own) or a fraction from 0 to 1",
    );
    command
        .arg(kmer.short('k'))?
        .arg(window.short('w'))?
        .arg(threshold.short('T'))?
        .arg(gc)
}

// The options of the masker.
fn masker<'a>(alloc: Global, command: Command<'a>) -> Result<Command<'a>, AllocError> {
    let xdrop = masker_value(
        alloc,
        "xdrop",
        "LENGTH|none",
        "50",
        "letters after which a fallen scan is cut short, 1 or more",
    );
    let start = masker_value(
        alloc,
        "min-start-cnt",
        "N",
        "3",
        "occurrences of a k-mer that start a scan, 2 to 65535",
    );
    let approx = flag(alloc, "approx", "try only the first candidate of a scan");
    let forward = flag(alloc, "forward-only", "leave out the reverse complement");
    masker_numbers(alloc, command)?
        .arg(xdrop)?
        .arg(start)?
        .arg(approx.help_heading(MASKER))?
        .arg(forward.help_heading(MASKER))
}

// A form whose file may follow behind an equals sign.
fn form<'a>(alloc: Global, name: &'a str, help: &'a str) -> Arg<'a> {
    Arg::new(alloc, name)
        .long(name)
        .value_name("FILE")
        .num_args(0..=1)
        .require_equals(true)
        .default_missing_value("-")
        .action(ArgAction::Append)
        .help(help)
        .help_heading(FORMS)
}

// A form with a value, behind which its file may follow.
fn form_value<'a>(alloc: Global, name: &'a str, shown: &'a str, help: &'a str) -> Arg<'a> {
    value(alloc, name, shown, help)
        .action(ArgAction::Append)
        .help_heading(FORMS)
}

// The forms.
fn forms<'a>(alloc: Global, command: Command<'a>) -> Result<Command<'a>, AllocError> {
    let bed = form(
        alloc,
        "bed",
        "BED: name, start, end (from 0, the end not included)",
    );
    let marks = form(
        alloc,
        "marks",
        "BED with three columns more: the strands that saw the interval in words (forward, reverse, both), 0, and + or - or . for both",
    );
    let soft = form(
        alloc,
        "soft",
        "FASTA, masked letters in lower case, the others as they came",
    );
    let hard = form_value(
        alloc,
        "hard",
        "N|X[:FILE]",
        "FASTA, N or X for each masked letter",
    );
    let summary = form(
        alloc,
        "summary",
        "a table: name, letters, intervals, masked letters, masked share, letters N, share of G and C, masked share without N; the last line, #all, is for all records",
    );
    let bedgraph = form_value(
        alloc,
        "bedgraph",
        "SIZE[:FILE]",
        "the masked share of each block of SIZE letters",
    );
    command
        .arg(bed)?
        .arg(marks)?
        .arg(soft)?
        .arg(hard)?
        .arg(summary)?
        .arg(bedgraph)
}

// The lists of the strongest stretches.
fn lists<'a>(alloc: Global, command: Command<'a>) -> Result<Command<'a>, AllocError> {
    let strongest = form_value(
        alloc,
        "strongest",
        "N[:FILE]",
        "a table of the N strongest stretches of each record: name, start, end, rank, score, score a place, places, the masked interval that it lies in, rank in it, count of its most frequent k-mer, first 40 letters",
    );
    let floor = value(
        alloc,
        "floor",
        "S",
        "with --strongest: a stretch is listed if it scores above S, 0 or more (0)",
    );
    let whole = flag(
        alloc,
        "whole",
        "with --strongest: of the whole record, not of what is masked",
    );
    command
        .arg(strongest)?
        .arg(floor.help_heading(FORMS))?
        .arg(whole.help_heading(FORMS))
}

// Where a probe may stand.
fn free<'a>(alloc: Global, command: Command<'a>) -> Result<Command<'a>, AllocError> {
    let free = form(
        alloc,
        "free",
        "BED of the stretches where a probe may stand: letters A, C, G, T and U that are not masked",
    );
    let pad = value(
        alloc,
        "pad",
        "P",
        "with --free: letters kept clear on both sides of a masked one, 0 to 2147483647 (0)",
    );
    command.arg(free)?.arg(pad.help_heading(FORMS))
}

// Which records and intervals count.
fn limits<'a>(alloc: Global, command: Command<'a>) -> Result<Command<'a>, AllocError> {
    let length = value(
        alloc,
        "min-length",
        "L",
        "intervals of fewer letters are left out of BED, marks and --free, 0 to 4294967295",
    );
    let short = flag(
        alloc,
        "skip-short",
        "a record of fewer than K + 1 letters has no mask, and is not refused",
    );
    command
        .arg(length.default_value("0").help_heading(FORMS))?
        .arg(short.help_heading(FORMS))
}

// How it runs.
fn running<'a>(alloc: Global, command: Command<'a>) -> Result<Command<'a>, AllocError> {
    let output = value(
        alloc,
        "output",
        "FILE",
        "the file of the form that is given none",
    );
    let threads = value(
        alloc,
        "threads",
        "N",
        "threads that mask, 1 to 1024 (as many as the process may use)",
    );
    let memory = value(
        alloc,
        "memory",
        "SIZE",
        "bytes that the run may hold, as 500M or 1.5G (half of what the process may use)",
    );
    let quiet = flag(
        alloc,
        "quiet",
        "no progress and no closing line; they come on a terminal only",
    );
    command
        .arg(output.short('o').help_heading(RUN))?
        .arg(
            threads
                .action(ArgAction::Append)
                .short('t')
                .help_heading(RUN),
        )?
        .arg(memory.action(ArgAction::Append).help_heading(RUN))?
        .arg(quiet.short('q').help_heading(RUN))
}

// What a part of a file is told of the whole.
fn parts<'a>(alloc: Global, command: Command<'a>) -> Result<Command<'a>, AllocError> {
    command
        .arg(value(
            alloc,
            "source",
            "NAME",
            "the file that standard input is a part of",
        )
        .hide(true))?
        .arg(value(
            alloc,
            "offset",
            "BYTES",
            "bytes of the file before this part",
        )
        .hide(true))?
        .arg(value(
            alloc,
            "numbers",
            "FILE",
            "where what was counted in this part is written",
        )
        .hide(true))
}

// A record whose strands are masked apart: one of them, or the lists of both.
fn strands<'a>(alloc: Global, command: Command<'a>) -> Result<Command<'a>, AllocError> {
    let strand = value(
        alloc,
        "strand",
        "STRAND",
        "forward or reverse: write the list of this strand, as bytes, and nothing else",
    );
    let lists = value(
        alloc,
        "join",
        "FILE:FILE",
        "the lists of both strands of the only record",
    );
    command.arg(strand.hide(true))?.arg(lists.hide(true))
}

// What a last run is told: standard input has the numbers of all parts.
fn last<'a>(alloc: Global, command: Command<'a>) -> Result<Command<'a>, AllocError> {
    let foot = flag(alloc, "foot", "write what stands below all records");
    let closing = flag(alloc, "closing", "say what was counted");
    command.arg(foot.hide(true))?.arg(closing.hide(true))
}

/// The whole.
pub fn command<'a>(alloc: Global) -> Result<Command<'a>, AllocError> {
    let files = Arg::new(alloc, "FILE").num_args(0..).help(
        "FASTA files, read in turn; standard input for - or for no file",
    );
    let command = Command::new(alloc, "cisternpea")
        .version(VERSION)
        .about(ABOUT)
        .override_usage(USAGE)
        .after_help(NOTES)
        .args_override_self(true)
        .arg(files)?;
    let written = limits(alloc, free(alloc, lists(alloc, forms(alloc, command)?)?)?)?;
    let whole = parts(alloc, running(alloc, masker(alloc, written)?)?)?;
    last(alloc, strands(alloc, whole)?)
}
