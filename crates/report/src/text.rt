// A lent text that is written from its front on.

ghost use Rattle.std.specs.Prelude.{◌≤◌, length};

use intervals::Interval;

// The first `len` bytes are written.
#[derive(Drop)]
pub struct Text<'a> {
    pub bytes: &'a mut [u8],
    pub len: usize,
    ghost len_in: { len ≤ length bytes.now },
}

impl<'a> Text<'a> {
    ghost use Rattle.std.specs.Prelude.{ℕ, ◌≡◌, List, ◌++◌, length, take};
    ghost use Rattle.report.specs.Text.{decimal, line, lines, numbered, count_line, report, refusal_line, size_line};
    ghost use Rattle.report.specs.Adds.{Adds};
    ghost use Rattle.report.specs.Fits.{Fits};
    ghost use Rattle.report.specs.Held.{fitting, Held};

    // Nothing is written yet.
    pub fn new(bytes: &'a mut [u8]) -> Self
        ensures len { result.len ≡ 0 }
        ensures bytes { result.bytes ≡ bytes.entry }
    {
        Text { bytes, len: 0 }
    }

    pub fn written(&self) -> &[u8]
        ensures { result.now ≡ take self.now.len self.now.bytes.now }
    {
        &self.bytes[..self.len]
    }

    // Each of the others writes after what is written.

    pub fn write_bytes(&mut self, bytes: &[u8])
        requires { Fits bytes.now self.old }
        ensures { Adds bytes.now self.old self.new }
    {
        let from = self.len;
        let end = from + bytes.len();
        self.bytes[from..end].copy_from_slice(bytes);
        self.len = end;
    }

    pub fn write_decimal(&mut self, n: u64)
        requires { Fits (decimal n) self.old }
        ensures { Adds (decimal n) self.old self.new }
    {
        let mut digits = [0u8; 20];
        let count = io::decimal(n, &mut digits);
        self.write_bytes(&digits[..count]);
    }

    // A word, a number, and the line's end.
    pub fn write_numbered(&mut self, word: &[u8], n: u64)
        requires { Fits (numbered word.now n) self.old }
        ensures { Adds (numbered word.now n) self.old self.new }
    {
        self.write_bytes(word);
        self.write_decimal(n);
        self.write_bytes(b"\n");
    }

    // Start, tab, end.
    pub fn write_line(&mut self, interval: Interval)
        requires { Fits (line interval) self.old }
        ensures { Adds (line interval) self.old self.new }
    {
        self.write_decimal(interval.start as u64);
        self.write_numbered(b"\t", interval.end as u64);
    }

    // A line for each interval of the list.
    pub fn write_lines(&mut self, list: &[Interval])
        requires { Fits (lines list.now) self.old }
        ensures { Adds (lines list.now) self.old self.new }
    {
        for interval in list {
            self.write_line(*interval);
        }
    }

    pub fn write_count(&mut self, count: usize)
        requires { Fits (count_line count) self.old }
        ensures { Adds (count_line count) self.old self.new }
    {
        self.write_numbered(b"intervals ", count as u64);
    }

    // The report of an accepted request: the lines of the list, and its count.
    pub fn write_report(&mut self, list: &[Interval])
        requires { Fits (report list.now) self.old }
        ensures { Adds (report list.now) self.old self.new }
    {
        self.write_lines(list);
        self.write_count(list.len());
    }

    // The report of a refused request, or of a file with a fault.
    // It takes a number: that is what is printed, and all that a `Refusal` and a `fasta::Fault` share.
    pub fn write_refusal(&mut self, number: u32)
        requires { Fits (refusal_line number) self.old }
        ensures { Adds (refusal_line number) self.old self.new }
    {
        self.write_numbered(b"refused ", number as u64);
    }

    // The report of too many letters.
    pub fn write_size_refusal(&mut self)
        requires { Fits size_line self.old }
        ensures { Adds size_line self.old self.new }
    {
        self.write_bytes(b"refused size\n");
    }

    // Joins a block of bytes to those read before it: its letters, as many as there is room for, follow those that the text holds.
    pub fn keep_letters(&mut self, block: &[u8])
        ensures written { let D = self.old.bytes.now in Adds (fitting block.now D self.old.len) self.old self.new }
        ensures held { (bytes : List ℕ) → Held bytes self.old.bytes.now self.old.len
            → Held (bytes ++ block.now) self.new.bytes.now self.new.len }
        ensures room { length self.new.bytes.now ≡ length self.old.bytes.now }
    {
        for byte in block {
            let byte = *byte;
            if byte == b'\n' {
                continue;
            }
            if self.len == self.bytes.len() {
                return;
            }
            self.bytes[self.len] = byte;
            self.len += 1;
        }
    }
}
