// Prints the text of the FASTA file on standard input: the intervals of each record, with the default options, or why it is refused.
// A read or a write that fails prints a line on standard error, and nothing follows.

#![tactic(auto)]

use entries::Failed;
use std::io::{Error, ErrorKind};

fn main(rt: HostRuntime) {
    let failed = match contigs_text::print_file(rt.alloc(), &mut rt.stdin(), &mut rt.stdout()) {
        Ok(_) => return,
        Err(failed) => failed,
    };
    match failed {
        Failed::Reading(e) => report::say(&rt, "contigs: standard input", e),
        Failed::Writing(e) => report::say(&rt, "contigs: standard output", e),
        _ => report::say(&rt, "contigs", Error::from(ErrorKind::OutOfMemory)),
    }
}
