// The tables that a record is masked by.

ghost use Rattle.std.specs.Prelude.{◌≡◌, ◌≤◌, OnOk};
ghost use Rattle.masker.specs.Run.{ln_of, f_of};

use letters::encode_sequence;
use longdust::LongdustOptions;
use std::alloc::{AllocError, Global};

/// Room for the tables of a record.
#[derive(Drop)]
pub struct TableRoom {
    pub ln: Vec<f64>,
    pub f: Vec<f64>,
    pub codes: Vec<u8>,
}

impl TableRoom {
    pub fn new(alloc: Global) -> Self {
        TableRoom {
            ln: Vec::new(alloc),
            f: Vec::new(alloc),
            codes: Vec::new(alloc),
        }
    }

    /// Puts both tables into the room, by the letters where the GC choice goes by them. Fails where there is no memory.
    pub fn fill(&mut self, options: LongdustOptions, letters: &[u8]) -> Result<(), AllocError>
        requires kmer { options.kmer ≤ 12 }
        requires window { options.window_size ≤ 65535 }
        ensures ln { OnOk result (self.new.ln.items ≡ ln_of options) }
        ensures f { OnOk result (self.new.f.items ≡ f_of options letters.now) }
    {
        self.codes.resize(letters.len(), 0)?;
        self.ln.resize(options.window_size + 1, 0.0)?;
        self.f.resize(options.window_size + 2, 0.0)?;
        encode_sequence(letters, self.codes.as_mut_slice());
        tables::fill_tables(
            self.ln.as_mut_slice(),
            self.f.as_mut_slice(),
            options.kmer,
            options.window_size,
            options.gc,
            self.codes.as_slice(),
        );
        Ok(())
    }

    // Puts copies of two tables into the room.
    pub fn copy(&mut self, ln: &[f64], f: &[f64]) -> Result<(), AllocError>
        ensures ln { OnOk result (self.new.ln.items ≡ ln.now) }
        ensures f { OnOk result (self.new.f.items ≡ f.now) }
    {
        self.ln.clear();
        self.ln.extend_from_slice(ln)?;
        self.f.clear();
        self.f.extend_from_slice(f)?;
        Ok(())
    }
}
