// What a program reads and prints: the letters of the bytes that it reads, and the text of a report.

#![tactic(auto)]

mod text;

use std::io::Error;
pub use text::Text;

// Writes a line to standard error: what failed, a colon, and the error's text without its number.
// It has no clause: the library's `Eprint` has none, and a line that cannot be written is let go.
pub fn say(rt: &HostRuntime, what: &str, error: Error) {
    match format!(in rt.alloc(); "{error}") {
        Ok(mut text) => {
            if let Some(at) = text.find(" (os error ") {
                text.truncate(at);
            }
            let _ = eprintln!(rt; "{what}: {text}");
        }
        Err(_) => {
            let _ = eprintln!(rt; "{what}: {error}");
        }
    }
}
