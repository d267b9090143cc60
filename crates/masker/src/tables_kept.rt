// Tables that are filled once for all records.

ghost use Rattle.std.specs.Prelude.{◌≡◌, IsTrue, IfOk, ◌≤◌};
ghost use Rattle.masker.specs.Run.{by_letters, serves_all, TablesFor};

use longdust::LongdustOptions;
use std::alloc::{AllocError, Global};
use tables::GcOption;

// The two tables.
#[derive(Drop)]
pub struct KeptTables {
    pub ln: Vec<f64>,
    pub f: Vec<f64>,
}

// Whether the GC choice goes by a record's letters.
fn by_letters(gc: GcOption) -> bool
    ensures { result ≡ by_letters gc }
{
    match gc {
        GcOption::Uniform => false,
        GcOption::Fixed(_) => false,
        GcOption::Auto => true,
    }
}

// Whether one filling of the tables serves all records.
pub fn serves_all(options: LongdustOptions) -> bool
    ensures result { result ≡ serves_all options }
{
    !by_letters(options.gc)
        & !checks::kmer_outside(options.kmer)
        & !checks::window_above(options.window_size)
}

impl KeptTables {
    // Filled, if that serves all records.
    pub fn new(alloc: Global, options: LongdustOptions) -> Result<Self, AllocError>
        ensures { IfOk result (λ t. TablesFor options t.ln.items t.f.items) }
    {
        let mut ln = Vec::new(alloc);
        let mut f = Vec::new(alloc);
        if !serves_all(options) {
            return Ok(KeptTables { ln, f });
        }
        ln.resize(options.window_size + 1, 0.0)?;
        f.resize(options.window_size + 2, 0.0)?;
        tables::fill_tables(
            ln.as_mut_slice(),
            f.as_mut_slice(),
            options.kmer,
            options.window_size,
            options.gc,
            &[],
        );
        Ok(KeptTables { ln, f })
    }
}
