// One strand of a record, masked alone.

ghost use Rattle.std.specs.Prelude.{◌≡◌, length, IfOk, OnOk};
ghost use Rattle.checks.specs.Tests.{most_intervals};
ghost use Rattle.longdust.specs.Strand.{SameStrandSpace};
ghost use Rattle.strands.specs.Strand.{MasksStrand};
ghost use Rattle.strands.specs.Terms.Room.{Few, StrandSized, StrandFitted};

use checks::Refusal;
use intervals::Interval;
use longdust::{LongdustOptions, StrandSpace, Tables};
use masker::{check, most_rows};
use scans::ForwardPosition;
use std::alloc::{AllocError, Global};

/// Masks one strand of a record after the other, by the options that it was made with. Its buffers grow with the records.
#[derive(Drop)]
pub struct StrandMasker {
    pub options: LongdustOptions,
    pub ln: Vec<f64>,
    pub f: Vec<f64>,
    pub queue: Vec<u32>,
    pub window_counts: Vec<u16>,
    pub scan_counts: Vec<u16>,
    pub candidates: Vec<ForwardPosition>,
    pub codes: Vec<u8>,
}

// The list of a strand, by tables that are filled for it.
fn mask_in(
    options: LongdustOptions,
    letters: &[u8],
    reverse: bool,
    ln: &mut [f64],
    f: &mut [f64],
    space: &mut StrandSpace,
) -> Result<usize, Refusal>
    requires few { Few options }
    requires sized { StrandSized options (length letters.now) (length ln.old) (length f.old) space.old }
    ensures masks { MasksStrand options reverse letters.now space.new.list.now result }
    ensures same_space { SameStrandSpace space.old space.new }
{
    let codes = &mut space.codes[..];
    letters::encode_sequence(letters, codes);
    tables::fill_tables(ln, f, options.kmer, options.window_size, options.gc, codes);
    let tables = Tables { ln, f };
    match longdust::process_strand(letters, options, reverse, &tables, space) {
        Ok(answer) => Ok(answer.count),
        Err(refusal) => Err(refusal),
    }
}

impl StrandMasker {
    pub fn new(alloc: Global, options: LongdustOptions) -> Self
        ensures { result.options ≡ options }
    {
        StrandMasker {
            options,
            ln: Vec::new(alloc),
            f: Vec::new(alloc),
            queue: Vec::new(alloc),
            window_counts: Vec::new(alloc),
            scan_counts: Vec::new(alloc),
            candidates: Vec::new(alloc),
            codes: Vec::new(alloc),
        }
    }

    // Room for a record of n letters.
    fn fit(&mut self, n: usize) -> Result<(), AllocError>
        requires { Few self.old.options }
        ensures fitted { OnOk result (StrandFitted self.old.options n self.new) }
        ensures options { self.new.options ≡ self.old.options }
    {
        let w = self.options.window_size;
        let kmers = letters::n_kmers(self.options.kmer);
        let none = ForwardPosition {
            pos: 0,
            max_score: 0.0,
        };
        self.ln.resize(w + 1, 0.0)?;
        self.f.resize(w + 2, 0.0)?;
        self.queue.resize(w, 0)?;
        self.window_counts.resize(kmers, 0)?;
        self.scan_counts.resize(kmers, 0)?;
        self.candidates.resize(w, none)?;
        self.codes.resize(n, 0)?;
        Ok(())
    }

    // The list of a strand, in buffers that fit.
    fn mask_fitted(
        &mut self,
        letters: &[u8],
        reverse: bool,
        list: &mut [Interval],
    ) -> Result<usize, Refusal>
        requires few { Few self.old.options }
        requires fitted { StrandFitted self.old.options (length letters.now) self.old }
        requires list_len { length list.old ≡ most_intervals (length letters.now) self.old.options.kmer }
        ensures masks { MasksStrand self.old.options reverse letters.now list.new result }
        ensures options { self.new.options ≡ self.old.options }
    {
        let options = self.options;
        let mut space = StrandSpace {
            queue: self.queue.as_mut_slice(),
            window_counts: self.window_counts.as_mut_slice(),
            scan_counts: self.scan_counts.as_mut_slice(),
            candidates: self.candidates.as_mut_slice(),
            codes: self.codes.as_mut_slice(),
            list,
        };
        let ln = self.ln.as_mut_slice();
        let f = self.f.as_mut_slice();
        mask_in(options, letters, reverse, ln, f, &mut space)
    }

    /// Masks a strand of a record's letters, their own or their reverse complement: how many intervals its list has, in its own positions, which
    /// stand at the front of the list; or why the record is refused. Fails where there is no memory.
    pub fn mask(
        &mut self,
        letters: &[u8],
        reverse: bool,
        list: &mut Vec<Interval>,
    ) -> Result<Result<usize, Refusal>, AllocError>
        ensures masks { IfOk result (λ r. MasksStrand self.old.options reverse letters.now list.new.items r) }
        ensures options { self.new.options ≡ self.old.options }
    {
        let options = self.options;
        if let Err(refusal) = check(options, letters) {
            return Ok(Err(refusal));
        }
        let rows = most_rows(letters.len(), options.kmer);
        self.fit(letters.len())?;
        list.resize(rows, Interval { start: 0, end: 0 })?;
        Ok(self.mask_fitted(letters, reverse, list.as_mut_slice()))
    }
}
