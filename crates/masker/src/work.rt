// The buffers that a run works in.

ghost use Rattle.std.specs.Prelude.{◌≡◌, true, ◌≤◌, ◌<◌, ◌^◌, length, OnOk};
ghost use Rattle.checks.specs.Tests.{most_intervals};
ghost use Rattle.masker.specs.Run.{serves_all, TablesFor, Masks};
ghost use Rattle.masker.specs.Terms.Room.{Fitted};

use crate::calls;
use checks::Refusal;
use intervals::{Interval, MarksOut};
use longdust::{LongdustOptions, Tables};
use mask::Workspace;
use scans::ForwardPosition;
use std::alloc::{AllocError, Global};

#[derive(Drop)]
pub struct Work {
    pub ln: Vec<f64>,
    pub f: Vec<f64>,
    pub queue: Vec<u32>,
    pub window_counts: Vec<u16>,
    pub scan_counts: Vec<u16>,
    pub candidates: Vec<ForwardPosition>,
    pub codes: Vec<u8>,
    pub reverse_codes: Vec<u8>,
    pub forward_list: Vec<Interval>,
    pub reverse_list: Vec<Interval>,
}

impl Work {
    pub fn new(alloc: Global) -> Self {
        Work {
            ln: Vec::new(alloc),
            f: Vec::new(alloc),
            queue: Vec::new(alloc),
            window_counts: Vec::new(alloc),
            scan_counts: Vec::new(alloc),
            candidates: Vec::new(alloc),
            codes: Vec::new(alloc),
            reverse_codes: Vec::new(alloc),
            forward_list: Vec::new(alloc),
            reverse_list: Vec::new(alloc),
        }
    }

    // Room for a record of n letters, and for the intervals of a list.
    pub fn fit(&mut self, options: LongdustOptions, n: usize, rows: usize) -> Result<(), AllocError>
        requires bounds { (options.kmer ≤ 12) × (options.window_size ≤ 65535) }
        requires rows { rows ≡ most_intervals n options.kmer }
        ensures { OnOk result (Fitted options n self.new) }
    {
        let w = options.window_size;
        let kmers = letters::n_kmers(options.kmer);
        let none = Interval { start: 0, end: 0 };
        self.ln.resize(w + 1, 0.0)?;
        self.f.resize(w + 2, 0.0)?;
        self.queue.resize(w, 0)?;
        self.window_counts.resize(kmers, 0)?;
        self.scan_counts.resize(kmers, 0)?;
        self.candidates.resize(
            w,
            ForwardPosition {
                pos: 0,
                max_score: 0.0,
            },
        )?;
        self.codes.resize(n, 0)?;
        self.reverse_codes.resize(n, 0)?;
        self.forward_list.resize(rows, none)?;
        self.reverse_list.resize(rows, none)?;
        Ok(())
    }

    // Tables and mask.
    pub fn mask_filling(
        &mut self,
        options: LongdustOptions,
        letters: &[u8],
        list: &mut [Interval],
        marks: &mut [u8],
    ) -> Result<usize, Refusal>
        requires fitted { Fitted options (length letters.now) self.old }
        requires list_len { length list.old ≡ most_intervals (length letters.now) options.kmer }
        requires marks_len { length marks.old ≡ most_intervals (length letters.now) options.kmer }
        ensures { Masks options letters.now list.new marks.new result }
    {
        let mut work = Workspace {
            queue: self.queue.as_mut_slice(),
            window_counts: self.window_counts.as_mut_slice(),
            scan_counts: self.scan_counts.as_mut_slice(),
            candidates: self.candidates.as_mut_slice(),
            reverse_codes: self.reverse_codes.as_mut_slice(),
            forward_list: self.forward_list.as_mut_slice(),
            reverse_list: self.reverse_list.as_mut_slice(),
        };
        let mut out = MarksOut { list, marks };
        let ln = self.ln.as_mut_slice();
        let f = self.f.as_mut_slice();
        let codes = self.codes.as_mut_slice();
        calls::mask_filling(options, letters, ln, f, codes, &mut work, &mut out)
    }

    // The mask, by tables that serve all records.
    pub fn mask_by(
        &mut self,
        options: LongdustOptions,
        letters: &[u8],
        tables: &Tables,
        list: &mut [Interval],
        marks: &mut [u8],
    ) -> Result<usize, Refusal>
        requires fitted { Fitted options (length letters.now) self.old }
        requires tables { TablesFor options tables.now.ln.now tables.now.f.now }
        requires serves { serves_all options ≡ true }
        requires list_len { length list.old ≡ most_intervals (length letters.now) options.kmer }
        requires marks_len { length marks.old ≡ most_intervals (length letters.now) options.kmer }
        ensures { Masks options letters.now list.new marks.new result }
    {
        let mut work = Workspace {
            queue: self.queue.as_mut_slice(),
            window_counts: self.window_counts.as_mut_slice(),
            scan_counts: self.scan_counts.as_mut_slice(),
            candidates: self.candidates.as_mut_slice(),
            reverse_codes: self.reverse_codes.as_mut_slice(),
            forward_list: self.forward_list.as_mut_slice(),
            reverse_list: self.reverse_list.as_mut_slice(),
        };
        let mut out = MarksOut { list, marks };
        let codes = self.codes.as_mut_slice();
        calls::mask_by(options, letters, tables, codes, &mut work, &mut out)
    }
}
