// Masks the letters on standard input with the default options and prints the mask, or why it refuses them.
// A read or a write that fails prints a line on standard error, and no mask follows.

#![tactic(auto)]

ghost use Rattle.std.specs.Prelude.{ℕ, ◌≡◌, List, length, OnOk};
ghost use Rattle.std.specs.Io.KnownBytes.{Consumes};
ghost use Rattle.report.specs.Held.{Held};
ghost use Rattle.contig.specs.Run.{letters_room};

use report::Text;
use std::io::{ErrorKind, Read, Result};

const BLOCK: usize = 65536;

// Reads until the reader ends or there is no more room; the text then holds the letters of the bytes that left the reader.
// The loop has to be shown to end: it would after 2^64 - 1 reads.
fn read_letters<R: Read>(reader: &mut R, letters: &mut Text) -> Result<()>
    requires { length letters.old.bytes.now ≡ letters_room }
    ensures held { OnOk result ((bytes : List ℕ)
        × Consumes (R.remaining reader.old) (R.remaining reader.new) bytes
        × Held bytes letters.new.bytes.now letters.new.len) }
    ensures room { OnOk result (length letters.new.bytes.now ≡ letters_room) }
{
    let mut block = [0u8; BLOCK];
    letters.len = 0;
    for _ in 0..u64::MAX {
        if letters.bytes.len() <= letters.len {
            return Ok(());
        }
        match reader.read(&mut block) {
            Ok(0) => return Ok(()),
            Ok(n) => letters.keep_letters(&block[..n]),
            Err(e) => {
                if e.kind() != ErrorKind::Interrupted {
                    return Err(e);
                }
            }
        }
    }
    Ok(())
}

fn main(rt: HostRuntime) {
    let mut letters = [0u8; contig::LETTERS_ROOM];
    let mut text = [0u8; contig::TEXT_ROOM];
    let mut letters = Text::new(&mut letters);
    let mut text = Text::new(&mut text);
    match read_letters(&mut rt.stdin(), &mut letters) {
        Ok(()) => {
            contig::write_held(&letters, &mut text);
            if let Err(e) = rt.write_all(text.written()) {
                report::say(&rt, "track: standard output", e);
            }
        }
        Err(e) => report::say(&rt, "track: standard input", e),
    }
}
