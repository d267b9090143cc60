// Lines on standard error. One that cannot be written is let go.

use clap::error::ErrorKind as WordKind;
use std::io::{Error, ErrorKind};

// What failed, and why.
pub fn say(rt: &HostRuntime, what: &str, why: &str) {
    let _ = eprintln!(rt; "cisternpea: {what}: {why}");
}

// The same with the system's reason.
pub fn say_error(rt: &HostRuntime, what: &str, error: Error) {
    if error.kind() == ErrorKind::OutOfMemory {
        say(rt, what, "no memory");
        return;
    }
    match format!(in rt.alloc(); "cisternpea: {what}") {
        Ok(text) => report::say(rt, text.as_str(), error),
        Err(_) => say(rt, what, "no memory"),
    }
}

// The first line of what clap says.
fn first_line(text: &str) -> &str {
    let line = match text.split_once('\n') {
        Some((line, _)) => line,
        None => text,
    };
    match line.strip_prefix("error: ") {
        Some(rest) => rest,
        None => line,
    }
}

/// Help, the version, or one line of what is wrong with the command line: the status.
pub fn say_parse(rt: &HostRuntime, error: clap::Error) -> u8 {
    if !error.use_stderr() {
        return match error.print(rt) {
            Ok(()) => 0,
            Err(e) => {
                say_error(rt, "cannot write", e);
                3
            }
        };
    }
    if matches!(error.kind(), WordKind::OutOfMemory) {
        say(rt, "the command line", "no memory");
        return 3;
    }
    match format!(in rt.alloc(); "{error}") {
        Ok(text) => {
            let line = first_line(text.as_str());
            let _ = eprintln!(rt; "cisternpea: {line}; --help says more");
        }
        Err(_) => say(rt, "the command line", "no memory"),
    }
    2
}
