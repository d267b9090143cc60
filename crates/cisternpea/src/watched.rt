// A reader that knows its place in the file.

use std::io::{BufRead, Error, Read, Result};

/// How far a file is read.
#[derive(Clone, Copy)]
pub struct Place {
    /// Bytes that were taken.
    pub taken: u64,
    /// Lines whose end was taken.
    pub lines: u64,
    /// Where the line that was taken last begins.
    pub start: u64,
    /// The last line is taken up to some place inside it.
    pub inside: bool,
    /// Something but empty lines was taken.
    pub some: bool,
    /// The line that opens the record, from 1.
    pub header: u64,
    /// Bytes of the record that were taken.
    pub record: u64,
}

impl Place {
    /// The begin of a file.
    pub fn new() -> Place {
        Place {
            taken: 0,
            lines: 0,
            start: 0,
            inside: false,
            some: false,
            header: 0,
            record: 0,
        }
    }

    // A line begins with this byte.
    fn begun(mut self, byte: u8) -> Place {
        self.start = self.taken;
        if byte == b'>' {
            self.header = self.lines.saturating_add(1);
            self.record = 0;
        }
        if !matches!(byte, b'\n' | b'\r') {
            self.some = true;
        }
        self
    }

    /// Behind the next bytes, of one line.
    pub fn after(self, bytes: &[u8]) -> Place {
        let n = bytes.len();
        if n == 0 {
            return self;
        }
        let mut next = if self.inside {
            self
        } else {
            self.begun(bytes[0])
        };
        next.taken = next.taken.saturating_add(n as u64);
        next.record = next.record.saturating_add(n as u64);
        next.inside = bytes[n - 1] != b'\n';
        if !next.inside {
            next.lines = next.lines.saturating_add(1);
        }
        next
    }

    /// The number of the line that was taken last, from 1.
    pub fn line(self) -> u64 {
        if self.inside {
            self.lines.saturating_add(1)
        } else {
            self.lines
        }
    }
}

/// A reader that knows its place, and stops where a record has more than `most` bytes.
#[derive(Drop)]
pub struct Watched<R: BufRead> {
    pub inner: R,
    pub place: Place,
    pub most: u64,
}

impl<R: BufRead> Watched<R> {
    /// Whether the record that is read has more than `most` bytes.
    pub fn is_full(&self) -> bool {
        self.most < self.place.record
    }
}

impl<R: BufRead> Read for Watched<R> {
    fn read(&mut self, buf: &mut [u8]) -> Result<usize> {
        self.inner.read(buf)
    }
}

impl<R: BufRead> BufRead for Watched<R> {
    fn fill_buf(&mut self) -> Result<&[u8]> {
        if self.most < self.place.record {
            return Err(Error::other("a record is too long"));
        }
        self.inner.fill_buf()
    }

    fn consume(&mut self, amount: usize) {
        if let Ok(shown) = self.inner.fill_buf() {
            self.place = self.place.after(&shown[..amount.min(shown.len())]);
        }
        self.inner.consume(amount);
    }
}
