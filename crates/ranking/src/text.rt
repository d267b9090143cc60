// Text that is put together in a buffer that grows.

ghost use Rattle.std.specs.Prelude.{◌≡◌, ◌++◌, OnOk};
ghost use Rattle.report.specs.Text.{decimal};
ghost use Rattle.ranking.specs.Text.{column, ten_thousandths, digit, four_decimals};

use std::alloc::AllocError;

fn add_decimal(text: &mut Vec<u8>, n: u64) -> Result<(), AllocError>
    ensures { OnOk result (text.new.items ≡ text.old.items ++ decimal n) }
{
    let mut digits = [0u8; 20];
    let count = io::decimal(n, &mut digits);
    text.extend_from_slice(&digits[..count])?;
    Ok(())
}

// A tab and a number.
pub fn add_column(text: &mut Vec<u8>, n: u64) -> Result<(), AllocError>
    ensures { OnOk result (text.new.items ≡ text.old.items ++ column n) }
{
    text.extend_from_slice(b"\t")?;
    add_decimal(text, n)
}

// n units of 2^-32 in ten-thousandths, cut.
#[tactic(auto, unfolding(crate::specs::Text::ten_thousandths))]
pub fn ten_thousandths(n: u64) -> u64
    ensures { result ≡ ten_thousandths n }
{
    n / 4294967296 * 10000 + n % 4294967296 * 10000 / 4294967296
}

fn digit(n: u64) -> u8
    ensures { result ≡ digit n }
{
    b'0' + (n % 10) as u8
}

// A tab and m ten-thousandths, with four decimals.
pub fn add_four_decimals(text: &mut Vec<u8>, m: u64) -> Result<(), AllocError>
    ensures { OnOk result (text.new.items ≡ text.old.items ++ four_decimals m) }
{
    add_column(text, m / 10000)?;
    text.extend_from_slice(b".")?;
    let digits = [digit(m / 1000), digit(m / 100), digit(m / 10), digit(m)];
    text.extend_from_slice(&digits)
}
