// The two tables of a run: ln n, and the score f that a window of each length has by chance.
// Both follow the paper's formulas bit for bit. Each function asks room for them of the slices that it is lent.

#![tactic(auto)]

ghost use Rattle.std.specs.Prelude.{◌≡◌, ◌+◌, ◌≤◌, length, take};
ghost use Rattle.buffers.specs.Fill.{put};
ghost use Rattle.tables.specs.Density.{density, uniform};
ghost use Rattle.tables.specs.Logarithm.{EntriesWithin};
ghost use Rattle.tables.specs.Tables.{ln_table, f_table};

mod background;
mod expected;
mod exponential;
mod logarithm;

pub use background::classes;
use expected::LnTable;

/// The share of C and G among the letters, from which each k-mer's expected number follows.
#[derive(Clone, Copy)]
pub enum GcOption {
    /// Half: all k-mers are expected equally often.
    Uniform,
    /// This share, 0 to 1; else refusal 7.
    Fixed(f64),
    /// The letters' own share.
    Auto,
}

/// Classes of k-mers. Entries from `classes` on are 0.
#[derive(Clone, Copy)]
pub struct Density {
    /// How much more often than 1 in 4^k a k-mer of the class is expected.
    pub ratio: [f64; 13],
    /// How many k-mers the class has.
    pub count: [f64; 13],
    /// How many classes there are, at most 13.
    pub classes: usize,
}

/// Writes ln n for n = 0 .. w to the front of `ln`, w + 1 entries. From 1 on each is within 2^-45 of the true logarithm.
#[tactic(auto, using(crate::proofs::Tables::ln_filled))]
pub fn fill_ln(ln: &mut [f64], w: usize)
    requires w_bound { w ≤ 65535 }
    requires ln_room { w + 1 ≤ length ln.old }
    ensures ln_after { ln.new ≡ put (ln_table w) ln.old }
    ensures within { EntriesWithin w ln.new }
{
    for n in 0..=w {
        ln[n] = logarithm::ln((n as u32) as f64);
    }
}

/// Writes f of l places for l = 0 .. w + 1 to the front of `f`, w + 2 entries, by the classes; `ln` is filled up to w.
pub fn fill_f(f: &mut [f64], ln: &[f64], k: usize, w: usize, d: Density)
    requires k_bound { k ≤ 12 }
    requires w_bound { w ≤ 65535 }
    requires classes_bound { d.classes ≤ 13 }
    requires f_room { w + 2 ≤ length f.old }
    requires ln_filled { take (w + 1) ln.now ≡ ln_table w }
    ensures { f.new ≡ put (f_table k w d) f.old }
{
    fill_f_of(f, ln, k, w, &d);
}

// The same by classes that are lent, so that no copy of them is made.
#[tactic(auto, using(crate::proofs::Tables::f_filled))]
fn fill_f_of(f: &mut [f64], ln: &[f64], k: usize, w: usize, d: &Density)
    requires k_bound { k ≤ 12 }
    requires w_bound { w ≤ 65535 }
    requires classes_bound { d.now.classes ≤ 13 }
    requires f_room { w + 2 ≤ length f.old }
    requires ln_filled { take (w + 1) ln.now ≡ ln_table w }
    ensures { f.new ≡ put (f_table k w d.now) f.old }
{
    let ln = LnTable {
        entries: &ln[..w + 1],
    };
    for l in 0..w + 2 {
        f[l] = expected::calculate_f_internal(k, l as u32, d, ln);
    }
}

/// Fills both tables for a GC choice: w + 1 entries of `ln`, w + 2 of `f`. The codes count for GC auto alone.
#[tactic(auto, using(crate::proofs::Tables::filled))]
pub fn fill_tables(ln: &mut [f64], f: &mut [f64], k: usize, w: usize, gc: GcOption, codes: &[u8])
    requires k_bound { k ≤ 12 }
    requires w_bound { w ≤ 65535 }
    requires ln_room { w + 1 ≤ length ln.old }
    requires f_room { w + 2 ≤ length f.old }
    ensures ln_after { ln.new ≡ put (ln_table w) ln.old }
    ensures f_after { f.new ≡ put (f_table k w (density k gc codes.now)) f.old }
{
    fill_ln(ln, w);
    let mut d = background::no_classes();
    background::set_classes(k, gc, codes, &mut d);
    fill_f_of(f, ln, k, w, &d);
}

/// Fills both tables for uniform GC, whose one class no letter changes.
#[tactic(auto, unfolding(crate::specs::Density::density))]
pub fn fill_uniform(ln: &mut [f64], f: &mut [f64], k: usize, w: usize)
    requires k_bound { k ≤ 12 }
    requires w_bound { w ≤ 65535 }
    requires ln_room { w + 1 ≤ length ln.old }
    requires f_room { w + 2 ≤ length f.old }
    ensures ln_after { ln.new ≡ put (ln_table w) ln.old }
    ensures f_after { f.new ≡ put (f_table k w (uniform k)) f.old }
{
    fill_tables(ln, f, k, w, GcOption::Uniform, &[]);
}
