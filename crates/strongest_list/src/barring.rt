// A buffer of codes in which letters are barred.

ghost use Rattle.std.specs.Prelude.{[], false, ◌≡◌, ◌+◌, ◌-◌, ◌≤◌, ◌<◌, min, length};
ghost use Rattle.strongest_list.specs.Call.{asked_of};
ghost use Rattle.strongest_list.specs.Checks.{any_bad_region};
ghost use Rattle.strongest_list.specs.Terms.Codes.{Bars, Opens, Shows};

use crate::Request;
use intervals::Interval;
use letters::encode_sequence;

// The code of a barred letter.
pub const BARRED: u8 = 5;

// Bars letters from .. to - 1.
fn bar_letters(codes: &mut [u8], from: usize, to: usize)
    requires order { from ≤ to }
    requires inside { to ≤ length codes.old }
    ensures { Bars from to codes.old codes.new }
{
    for x in from..to {
        codes[x] = BARRED;
    }
}

// Bars the letters of an entry and those beside it.
pub fn bar(codes: &mut [u8], from: usize, to: usize)
    requires order { from ≤ to }
    requires inside { to ≤ length codes.old }
    ensures { Bars (from - 1) (min (to + 1) (length codes.old)) codes.old codes.new }
{
    let end = codes.len().min(to.saturating_add(1));
    bar_letters(codes, from.saturating_sub(1), end);
}

// Gives the letters of a region their codes.
fn open_region(sequence: &[u8], region: Interval, codes: &mut [u8])
    requires order { region.start ≤ region.end }
    requires inside { region.end ≤ length sequence.now }
    requires long { length codes.old ≡ length sequence.now }
    ensures { Opens sequence.now region codes.old codes.new }
{
    let start = region.start as usize;
    let end = region.end as usize;
    encode_sequence(&sequence[start..end], &mut codes[start..end]);
}

// Bars all letters but those of the regions, which get their codes.
pub fn show_regions(request: &Request, codes: &mut [u8])
    requires long { length codes.old ≡ length request.now.sequence.now }
    requires regions { any_bad_region (length request.now.sequence.now) request.now.regions.now ≡ false }
    ensures { Shows (asked_of request.now) [] codes.new }
{
    let n = codes.len();
    bar_letters(codes, 0, n);
    for region in request.regions {
        open_region(request.sequence, *region, codes);
    }
}
