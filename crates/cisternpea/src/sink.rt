// Where a text is written: standard output, a file in place, or a file beside its place that takes it at the end.

use std::alloc::{AllocError, Global};
use std::fs::File;
use std::io::{Result, Stdout, Write};

/// Standard output, or a file.
#[derive(Drop)]
pub enum Sink {
    Standard(Stdout),
    Named(File),
}

impl Write for Sink {
    fn write(&mut self, bytes: &[u8]) -> Result<usize> {
        match self {
            Sink::Standard(out) => out.write(bytes),
            Sink::Named(file) => file.write(bytes),
        }
    }

    fn flush(&mut self) -> Result<()> {
        match self {
            Sink::Standard(out) => out.flush(),
            Sink::Named(file) => file.flush(),
        }
    }
}

/// A file that is written beside its place.
#[derive(Drop)]
pub struct Target<'a> {
    pub path: &'a str,
    pub beside: String,
}

// Whether the name is free, or a plain file's: then a file beside may take it.
fn may_take(rt: &HostRuntime, path: &str) -> bool {
    match std::fs::symlink_metadata(rt, path) {
        Ok(there) => there.is_file(),
        Err(_) => true,
    }
}

// The name of the file beside.
fn beside(alloc: Global, path: &str) -> std::result::Result<String, AllocError> {
    format!(in alloc; "{path}.part")
}

/// Opens the file of an output: beside its place, unless it is to be in place or a file that is no plain one has its name.
pub fn open_file<'a>(
    rt: &HostRuntime,
    path: &'a str,
    in_place: bool,
    targets: &mut Vec<Target<'a>>,
) -> Result<Sink> {
    if in_place | !may_take(rt, path) {
        return Ok(Sink::Named(File::create(rt, path)?));
    }
    let beside = beside(rt.alloc(), path)?;
    let file = File::create(rt, beside.as_str())?;
    targets.push(Target { path, beside })?;
    Ok(Sink::Named(file))
}

/// Gives each file its name, or takes it away.
pub fn settle(rt: &HostRuntime, targets: &[Target<'_>], good: bool) -> Result<()> {
    for target in targets {
        if good {
            std::fs::rename(rt, target.beside.as_str(), target.path)?;
        } else {
            std::fs::remove_file(rt, target.beside.as_str())?;
        }
    }
    Ok(())
}
