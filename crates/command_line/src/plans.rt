// The lines of a plan.

ghost use Rattle.std.specs.Prelude.{◌≡◌, ◌++◌, OnOk};
ghost use Rattle.report.specs.Text.{decimal};
ghost use Rattle.command_line.specs.Plan.{line};

use std::alloc::AllocError;

/// Appends a line: what it says, its value, and a zero byte. The value has no zero byte, as no word of a command line has.
pub fn add_line(text: &mut Vec<u8>, what: u8, value: &[u8]) -> Result<(), AllocError>
    ensures { OnOk result (text.new.items ≡ text.old.items ++ line what value.now) }
{
    text.push(what)?;
    text.extend_from_slice(value)?;
    text.push(0)?;
    Ok(())
}

/// Appends a line whose value is a number in decimal.
pub fn add_number(text: &mut Vec<u8>, what: u8, n: u64) -> Result<(), AllocError>
    ensures { OnOk result (text.new.items ≡ text.old.items ++ line what (decimal n)) }
{
    let mut digits = [0u8; 20];
    let count = io::decimal(n, &mut digits);
    add_line(text, what, &digits[..count])
}
