// The masker.

ghost use Rattle.std.specs.Prelude.{◌≡◌, IfOk};
ghost use Rattle.masker.specs.Run.{TablesFor, Masks};

use crate::checking::{check, most_rows};
use crate::tables_kept::{KeptTables, serves_all};
use crate::work::Work;
use checks::Refusal;
use intervals::Interval;
use longdust::{LongdustOptions, Tables};
use std::alloc::{AllocError, Global};

/// Masks one record after the other, each alone, by the options that it was made with. Its buffers grow with the records.
#[derive(Drop)]
pub struct Masker {
    pub options: LongdustOptions,
    pub tables: KeptTables,
    pub work: Work,
    ghost for_all: { TablesFor options tables.ln.items tables.f.items },
}

impl Masker {
    /// Fails where there is no memory for the tables.
    pub fn new(alloc: Global, options: LongdustOptions) -> Result<Self, AllocError>
        ensures { IfOk result (λ m. m.options ≡ options) }
    {
        let tables = KeptTables::new(alloc, options)?;
        Ok(Masker {
            options,
            tables,
            work: Work::new(alloc),
        })
    }

    /// Masks the letters of a record: how many intervals its mask has, which stand at the front of the list, their marks beside them; or why it
    /// is refused, and then no buffer is made for it. Fails where there is no memory.
    pub fn mask(
        &mut self,
        letters: &[u8],
        list: &mut Vec<Interval>,
        marks: &mut Vec<u8>,
    ) -> Result<Result<usize, Refusal>, AllocError>
        ensures masks { IfOk result (λ r. Masks self.old.options letters.now list.new.items marks.new.items r) }
        ensures options { self.new.options ≡ self.old.options }
    {
        let options = self.options;
        if let Err(refusal) = check(options, letters) {
            return Ok(Err(refusal));
        }
        let rows = most_rows(letters.len(), options.kmer);
        self.work.fit(options, letters.len(), rows)?;
        list.resize(rows, Interval { start: 0, end: 0 })?;
        marks.resize(rows, 0)?;
        let list = list.as_mut_slice();
        let marks = marks.as_mut_slice();
        if serves_all(options) {
            let tables = Tables {
                ln: self.tables.ln.as_slice(),
                f: self.tables.f.as_slice(),
            };
            return Ok(self.work.mask_by(options, letters, &tables, list, marks));
        }
        Ok(self.work.mask_filling(options, letters, list, marks))
    }
}
