// Lines by their number, written one after the other.

ghost use Rattle.std.specs.Prelude.{◌≡◌, ◌++◌, ◌<◌, ℕ, List, OnOk};
ghost use Rattle.entries.specs.Outcome.{Sent};
ghost use Rattle.forms.specs.Each.{each};

use entries::write_whole;
use std::io::{Result as IoResult, Write};

// Lines by their number.
pub trait Lines {
    ghost line: { Self → ℕ → List ℕ };

    ghost count: { Self → ℕ };

    fn count(&self) -> usize
        ensures { result ≡ count self.now };

    // Appends the line with number i.
    fn add(&self, i: usize, text: &mut Vec<u8>) -> IoResult<()>
        requires { i < count self.now }
        ensures { OnOk result (text.new.items ≡ text.old.items ++ line self.now i) };
}

// Writes all lines. The buffer is for one line.
pub fn write_each<L: Lines, W: Write>(lines: &L, text: &mut Vec<u8>, out: &mut W) -> IoResult<()>
    ensures { Sent (W.contents out.old) (W.contents out.new) (each (L.line lines.now) (L.count lines.now)) result }
{
    for i in 0..lines.count() {
        text.clear();
        if let Err(e) = lines.add(i, text) {
            return Err(e);
        }
        if let Err(e) = write_whole(out, text.as_slice()) {
            return Err(e);
        }
    }
    Ok(())
}
