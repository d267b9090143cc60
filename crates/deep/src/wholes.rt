// T and the tables in whole numbers of 2^-32.

ghost use Rattle.std.specs.Prelude.{◌≡◌, ◌<◌, ◌≤◌, IfSome, length};
ghost use Rattle.floats.specs.Terms.Rounded.{Ranged};
ghost use Rattle.scans.specs.Terms.Run.{as_setup};
ghost use Rattle.scans.specs.Terms.Shape.{Usual};
ghost use Rattle.deep.specs.Scores.{whole};
ghost use Rattle.deep.specs.Terms.Wholes.{Wholes, Scaled};
ghost use Rattle.deep.specs.Terms.Blocks.{Narrow};
ghost use Rattle.deep.specs.Terms.Found.{Drops};

use crate::Scale;
use scans::Setup;

// A float in whole numbers of 2^-32, rounded down; 0 for one below 0 or not a number.
#[tactic(auto, unfolding(crate::specs::Scores::whole))]
fn whole(x: f64) -> u64
    ensures { result ≡ whole x }
{
    std::num::saturating_f64_to_u64(x * 4294967296.0)
}

// Entries 1 to `w` of a table of floats in whole numbers; the others are 0.
fn fill_wholes(w: usize, floats: &[f64], table: &mut [u64])
    requires floats_long { w < length floats.now }
    requires table_long { w < length table.old }
    ensures { Wholes w floats.now table.new }
{
    table.fill(0);
    for i in 1..w + 1 {
        table[i] = whole(floats[i]);
    }
}

/// A run's T and tables in whole numbers, the tables in lent memory of at least 8,065 entries each.
pub fn scale_of<'a>(setup: &Setup, ln: &'a mut [u64], f: &'a mut [u64]) -> Scale<'a>
    requires window_small { setup.now.params.window_size ≤ 8064 }
    requires ln_long { setup.now.params.window_size < length setup.now.ln.now }
    requires f_long { setup.now.params.window_size < length setup.now.f.now }
    requires ln_room { 8064 < length ln.old }
    requires f_room { 8064 < length f.old }
    ensures scaled { Scaled (as_setup setup.now) result.threshold result.ln.now result.f.now }
    ensures long { 8064 < length result.f.now }
    ensures narrow { Usual (as_setup setup.now) → Narrow result }
{
    let w = setup.params.window_size;
    fill_wholes(w, setup.ln, ln);
    fill_wholes(w, setup.f, f);
    Scale {
        threshold: whole(setup.params.score_threshold),
        ln,
        f,
    }
}

// A float up to 2^20 in whole numbers; none for another.
fn whole_in_range(x: f64) -> Option<u64>
    ensures ranged { IfSome result (λ limit. Ranged 1048576 x × (limit ≡ whole x)) }
    ensures small { IfSome result (λ limit. limit < 2305843009213693952) }
{
    if 0.0 <= x {
        if x <= 1048576.0 {
            return Some(whole(x));
        }
    }
    None
}

/// A run's drop limit in whole numbers, if it is between 0 and 2^20.
pub fn limit_of(setup: &Setup) -> Option<u64>
    ensures limit { IfSome result (Drops (as_setup setup.now)) }
    ensures small { IfSome result (λ limit. limit < 2305843009213693952) }
{
    whole_in_range(setup.params.drop_limit)
}
