// Lines about a file: what it is that is no FASTA, where it stops to be, what does not fit.

use crate::request::Request;
use crate::saying::{say, say_error};
use crate::watched::Place;
use command_line::Kind;
use entries::Failed;
use fasta::Fault;

/// What the kind of a file asks for; none for FASTA.
pub fn advice(kind: Kind) -> Option<&'static str> {
    match kind {
        Kind::Other => None,
        Kind::Gzip => Some("this is gzip; give it to cisternpea, which unpacks it"),
        Kind::Xz => Some("this is xz; unpack it: xz -dc FILE | cisternpea"),
        Kind::Zstd => Some("this is Zstandard; unpack it: zstd -dc FILE | cisternpea"),
        Kind::Bzip2 => Some("this is bzip2; unpack it: bzip2 -dc FILE | cisternpea"),
        Kind::TwoBit => Some("this is 2bit; twoBitToFa makes FASTA of it"),
        Kind::GenBank => Some("this is GenBank, and FASTA is read here"),
        Kind::Returns => Some("its lines end in CR alone: tr '\\r' '\\n' < FILE | cisternpea"),
    }
}

// A fault's place: its line, or for a part of a file its first byte in the whole.
fn say_fault(rt: &HostRuntime, name: &str, request: &Request, place: Place, why: &str) {
    match request.part {
        Some(part) => {
            let byte = part.offset.saturating_add(place.start);
            let _ = eprintln!(rt; "cisternpea: {name}: byte {byte}: {why}");
        }
        None => {
            let line = place.line();
            let _ = eprintln!(rt; "cisternpea: {name}: line {line}: {why}");
        }
    }
}

/// Why a file was not done to its end.
pub fn say_failed(rt: &HostRuntime, name: &str, request: &Request, place: Place, failed: Failed) {
    match failed {
        Failed::Faulty(Fault::LettersFirst) => {
            say_fault(
                rt,
                name,
                request,
                place,
                "letters before the first name; is this FASTA?",
            );
        }
        Failed::Faulty(Fault::EmptyName) => {
            say_fault(rt, name, request, place, "a record without a name");
        }
        Failed::Reading(e) => say_error(rt, name, e),
        Failed::Writing(e) => say_error(rt, "cannot write", e),
        Failed::Saying(e) => say_error(rt, "cannot write", e),
        Failed::NoMemory => say(rt, name, "no memory"),
    }
}
