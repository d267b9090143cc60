// What a run holds, and the records that fit.

use crate::request::Request;
use command_line::{fixed_bytes, letter_tenths};
use forms::{Form, Wanted};

/// Bytes that a run holds whatever the record, and tenths of a byte for each byte of a record, what it writes included.
#[derive(Clone, Copy)]
pub struct Held {
    pub fixed: u64,
    pub tenths: u64,
}

// Tenths of a byte for each byte of input that are written in a form, where as much as usual is masked.
fn written_tenths(form: Form) -> u64 {
    match form {
        Form::Bed => 10,
        Form::Marks => 20,
        Form::Soft => 20,
        Form::HardN => 20,
        Form::HardX => 20,
        Form::Summary => 30,
        Form::Bedgraph(size) => 20 + 600 / (size.max(1) as u64),
        Form::Strongest(wanted) => list_tenths(wanted),
        Form::Free(_) => 30,
    }
}

// The most entries of a list that are counted as held whatever the record.
const FEW: usize = 10000;

// For each letter a code twice; where a list may be long, 16 bytes for each letter that may be an entry, and a line for each eighth.
fn list_tenths(wanted: Wanted) -> u64 {
    if wanted.most <= FEW {
        30
    } else {
        30 + 160 + 250
    }
}

// Entries and a line each, where they are few.
fn entry_bytes(most: usize) -> u64 {
    if FEW < most {
        return 0;
    }
    256 * most as u64
}

// Bytes of a list whatever the record: for each k-mer 4, for each letter of a window the tables twice and a place twice; and its entries.
fn list_bytes(form: Form, kmers: u32, window: u16) -> u64 {
    match form {
        Form::Strongest(wanted) => {
            let fixed = 4 * (kmers as u64) + 56 * (window as u64 + 4096);
            fixed.saturating_add(entry_bytes(wanted.most))
        }
        _ => 0,
    }
}

/// What a run with these options holds.
pub fn held_by(request: &Request) -> Held {
    let kmer = request.settings.options.kmer.min(12) as u16;
    let window = request.settings.options.window_size.min(65535) as u16;
    let kmers = 1u32 << (2 * kmer);
    let mut fixed = fixed_bytes(kmers, window);
    let mut tenths = letter_tenths(kmer);
    for output in &request.outputs {
        tenths = tenths.saturating_add(written_tenths(output.form));
        fixed = fixed.saturating_add(list_bytes(output.form, kmers, window));
    }
    Held { fixed, tenths }
}

impl Held {
    /// The memory that a record of so many bytes asks for.
    pub fn needed(self, bytes: u64) -> u64 {
        let record = (bytes.saturating_add(9) / 10).saturating_mul(self.tenths);
        self.fixed.saturating_add(record)
    }

    /// The most bytes of a record that fits the memory.
    pub fn most(self, memory: u64) -> u64 {
        (memory.saturating_sub(self.fixed) / self.tenths.max(1)).saturating_mul(10)
    }
}
