// Standard error for what is said of records: what cannot be written there is let go.

use std::io::{Result, Write};

#[derive(Drop)]
pub struct Notes<W: Write> {
    pub inner: W,
}

impl<W: Write> Write for Notes<W> {
    fn write(&mut self, bytes: &[u8]) -> Result<usize> {
        let _ = self.inner.write_all(bytes);
        Ok(bytes.len())
    }

    fn flush(&mut self) -> Result<()> {
        let _ = self.inner.flush();
        Ok(())
    }
}
