// T and the tables as whole numbers, in units of 2^-32.

ghost use Rattle.std.specs.Prelude.{◌≡◌, map, OnOk};
ghost use Rattle.ranking.specs.Units.{halves, units};

use std::alloc::AllocError;
use std::num::saturating_f64_to_u64;

#[tactic(auto, unfolding(crate::specs::Units::halves))]
fn halves(x: f64) -> u64
    ensures { result ≡ halves x }
{
    saturating_f64_to_u64(x * 8589934592.0)
}

// x times 2^32, rounded to the nearest whole number.
#[tactic(auto, unfolding(crate::specs::Units::units))]
pub fn units(x: f64) -> u64
    ensures { result ≡ units x }
{
    let n = halves(x);
    n / 2 + n % 2
}

// A table in these units.
pub fn fill_units(table: &[f64], list: &mut Vec<u64>) -> Result<(), AllocError>
    ensures { OnOk result (list.new.items ≡ map units table.now) }
{
    list.clear();
    for i in 0..table.len() {
        list.push(units(table[i]))?;
    }
    Ok(())
}
