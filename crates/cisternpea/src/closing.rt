// What is said at the end of a run, by what was counted in all its records.

use crate::request::Request;
use entries::Sums;
use std::alloc::{AllocError, Global};
use std::io::Result as IoResult;
use tables::GcOption;

// A number, a comma before each three of its last digits.
fn grouped(alloc: Global, n: u64) -> Result<String, AllocError> {
    let digits = format!(in alloc; "{n}")?;
    let digits = digits.as_str();
    let mut text = String::new(alloc);
    for i in 0..digits.len() {
        if (0 < i) & ((digits.len() - i) % 3 == 0) {
            text.push(',')?;
        }
        text.push_str(digits.get(i..i + 1).unwrap_or(""))?;
    }
    Ok(text)
}

// n of d in hundredths of a percent.
fn hundredths(n: u64, d: u64) -> u64 {
    if d == 0 {
        return 0;
    }
    let d = d as u128;
    ((n as u128 * 10000 + d / 2) / d).min(10000) as u64
}

// Records, letters, masked letters and their share.
fn say_closing(rt: &HostRuntime, sums: Sums) -> Result<(), AllocError> {
    let alloc = rt.alloc();
    let records = grouped(alloc, sums.records)?;
    let letters = grouped(alloc, sums.letters)?;
    let masked = grouped(alloc, sums.masked)?;
    let refused = if sums.refused == 0 {
        String::new(alloc)
    } else {
        let refused = grouped(alloc, sums.refused)?;
        format!(in alloc; " ({refused} refused)")?
    };
    let share = hundredths(sums.masked, sums.letters);
    let (whole, tenths, rest) = (share / 100, share / 10 % 10, share % 10);
    let _ = eprintln!(rt;
        "cisternpea: {records} records{refused}, {letters} letters, {masked} masked ({whole}.{tenths}{rest} %)"
    );
    Ok(())
}

// That --gc auto would mask other letters.
fn say_uneven(rt: &HostRuntime, sums: Sums) {
    let (uneven, records) = (sums.uneven, sums.records);
    let _ = eprintln!(rt;
        "cisternpea: {uneven} of {records} records have fewer than 30 or more than 70 G and C in 100 letters; --gc auto goes by each record's own share, and masks less of them"
    );
}

/// What was counted, where that is asked for; and what another option would do.
pub fn say_sums(rt: &HostRuntime, request: &Request, sums: Sums) -> IoResult<()> {
    if request.closing {
        say_closing(rt, sums)?;
    }
    let uniform = matches!(request.settings.options.gc, GcOption::Uniform);
    if uniform & !request.quiet & (0 < sums.uneven) {
        say_uneven(rt, sums);
    }
    Ok(())
}
