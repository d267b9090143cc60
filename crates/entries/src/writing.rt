// Bytes to a writer.

ghost use Rattle.entries.specs.Outcome.{Sent};

use std::io::{Error, ErrorKind, Result as IoResult, Write};

/// Writes all of the bytes, or a front of them where it fails.
pub fn write_whole<W: Write>(out: &mut W, bytes: &[u8]) -> IoResult<()>
    ensures { Sent (W.contents out.old) (W.contents out.new) bytes.now result }
{
    let mut at = 0;
    for _ in 0..u64::MAX {
        if at == bytes.len() {
            return Ok(());
        }
        match out.write(&bytes[at..]) {
            Ok(n) => {
                if n == 0 {
                    return Err(Error::other("a write took nothing"));
                }
                at += n;
            }
            Err(e) => {
                if e.kind() != ErrorKind::Interrupted {
                    return Err(e);
                }
            }
        }
    }
    Err(Error::other("too many writes"))
}
