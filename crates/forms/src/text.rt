// Text that is put together in a buffer that grows.

ghost use Rattle.std.specs.Prelude.{◌≡◌, ◌++◌, OnOk};
ghost use Rattle.report.specs.Ascii.{ascii};
ghost use Rattle.report.specs.Text.{decimal};
ghost use Rattle.forms.specs.Bed.{place};

use std::io::Result as IoResult;

// Each of these appends.

pub fn add_decimal(text: &mut Vec<u8>, n: u64) -> IoResult<()>
    ensures { OnOk result (text.new.items ≡ text.old.items ++ decimal n) }
{
    let mut digits = [0u8; 20];
    let count = io::decimal(n, &mut digits);
    text.extend_from_slice(&digits[..count])?;
    Ok(())
}

// A tab and a number.
pub fn add_column(text: &mut Vec<u8>, n: u64) -> IoResult<()>
    ensures { OnOk result (text.new.items ≡ text.old.items ++ (ascii "\t" ++ decimal n)) }
{
    text.push(b'\t')?;
    add_decimal(text, n)
}

// The name, a tab and two numbers with a tab between.
pub fn add_place(text: &mut Vec<u8>, name: &[u8], start: u64, end: u64) -> IoResult<()>
    ensures { OnOk result (text.new.items ≡ text.old.items ++ place name.now start end) }
{
    text.extend_from_slice(name)?;
    add_column(text, start)?;
    add_column(text, end)
}
