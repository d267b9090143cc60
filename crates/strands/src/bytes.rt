// Lists from bytes.

ghost use Rattle.std.specs.Prelude.{◌≡◌, ◌+◌, ◌≤◌, List, length, OnOk};
ghost use Rattle.intervals.specs.declared.Interval.{Interval};
ghost use Rattle.small.specs.Bytes.{bytes_of};
ghost use Rattle.strands.specs.Bytes.{number_at, AllFit};

use intervals::Interval;
use std::alloc::AllocError;

// The number in the four bytes from a place on, the lowest first.
fn number_at(bytes: &[u8], i: usize) -> u32
    requires { i + 4 ≤ length bytes.now }
    ensures { result ≡ number_at bytes.now i }
{
    let low = (bytes[i] as u32) + 256 * (bytes[i + 1] as u32);
    low + 65536 * (bytes[i + 2] as u32) + 16777216 * (bytes[i + 3] as u32)
}

/// The bytes of a list, in `text`.
pub fn encode_list(list: &[Interval], text: &mut Vec<u8>) -> Result<(), AllocError>
    ensures { OnOk result (text.new.items ≡ bytes_of list.now) }
{
    text.clear();
    text.resize(8 * list.len(), 0)?;
    small::write_list(list, text.as_mut_slice());
    Ok(())
}

/// Reads the list that was written as these bytes: eight for each interval, its start and its end, lowest first. Of other bytes it makes some list.
pub fn read_list(bytes: &[u8], list: &mut Vec<Interval>) -> Result<(), AllocError>
    ensures { OnOk result ((is : List Interval) → AllFit is → bytes.now ≡ bytes_of is → list.new.items ≡ is) }
{
    list.clear();
    for i in 0..bytes.len() / 8 {
        list.push(Interval {
            start: number_at(bytes, 8 * i),
            end: number_at(bytes, 8 * i + 4),
        })?;
    }
    Ok(())
}
