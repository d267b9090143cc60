// The public calls, on filled tables and with tables to fill: checks, flag, both strands, mask; one strand alone, and both lists joined; the tables alone.

#![tactic(auto)]

mod calls;
mod one_strand;
mod refusals;
mod run;

ghost use Rattle.std.specs.Prelude.{◌≡◌};
ghost use Rattle.longdust.specs.Options.{defaults};

pub use calls::fill_tables::fill_tables;
pub use calls::merge_strands::merge_strands;
pub use calls::process::process;
pub use calls::process_in::process_in;
pub use calls::process_strand::process_strand;
pub use calls::process_tables::process_tables;
pub use one_strand::StrandSpace;
pub use refusals::{check, xdrop_bad};
use tables::GcOption;

/// The options of a request, with the Rust's names.
#[derive(Clone, Copy)]
pub struct LongdustOptions {
    /// w, the most places of a stretch: k + 1 to 65,535.
    pub window_size: usize,
    /// T, what each place of a stretch has to gain: finite, above 0.
    pub score_threshold: f64,
    /// k, the letters of a k-mer: 1 to 12.
    pub kmer: usize,
    /// The share of C and G by which the f table is filled.
    pub gc: GcOption,
    /// A backward scan stops this many times T below its best score, 1 or more; with none, w times T.
    pub xdrop: Option<u32>,
    /// How often a k-mer stands in the window before a letter is searched from: 2 or more.
    pub min_start_cnt: u16,
    /// Whether only the oldest candidate is tried.
    pub approx: bool,
    /// Whether the reverse complement is left out.
    pub forward_only: bool,
}

/// The Rust's own defaults.
impl Default for LongdustOptions {
    ghost is_default = { λ r. r ≡ defaults };

    #[tactic(auto, unfolding(crate::specs::Options::defaults))]
    fn default() -> Self {
        Self {
            window_size: 5000,
            score_threshold: 0.6,
            kmer: 7,
            gc: GcOption::Uniform,
            xdrop: Some(50),
            min_start_cnt: 3,
            approx: false,
            forward_only: false,
        }
    }
}

/// The answer to an accepted request. The mask stands at the front of the list that the caller lent.
#[derive(Clone, Copy)]
pub struct Answer {
    /// How many intervals the mask has.
    pub count: usize,
    /// The flag: T <= 16, ln entries 1 to w within 0 to 16, f entries 1 to w within 0 to 1,048,576.
    pub in_range: bool,
}

/// The two tables, filled.
#[derive(Clone, Copy)]
pub struct Tables<'a> {
    /// ln n for n = 0 to w: w + 1 entries or more.
    pub ln: &'a [f64],
    /// f of l places for l = 0 to w + 1: w + 2 entries or more.
    pub f: &'a [f64],
}

/// How many entries each lent buffer has, for check 11.
#[derive(Clone, Copy)]
pub struct Lent {
    pub ln: usize,
    pub f: usize,
    pub queue: usize,
    pub window_counts: usize,
    pub scan_counts: usize,
    pub candidates: usize,
    pub codes: usize,
    pub reverse_codes: usize,
    pub forward_list: usize,
    pub reverse_list: usize,
    pub list: usize,
    pub marks: usize,
}
