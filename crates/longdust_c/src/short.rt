// The call for all short sequences.

ghost use Rattle.std.specs.Prelude.{◌≡◌, ◌<◌, ◌^◌};
ghost use Rattle.buffers.specs.Fill.{put};
ghost use Rattle.short_sequences.specs.Tallies.{tallies_of, refused_of, refusal};
ghost use Rattle.longdust_c.specs.Numbers.{count_or};

use crate::numbers::minus_number;

/// `short_sequences::short_sequences` on numbers and slices: sets how many sequences are refused.
/// Returns how many there are, or minus refusal 22 or 11; then `refused` is 0.
#[unsafe(no_mangle)]
pub extern "C" fn longdust_short_sequences(m: usize, tallies: &mut [u32], refused: &mut u32) -> i64
    ensures number { result ≡ count_or (refusal m tallies.old) (5 ^ m) }
    ensures refused { refusal m tallies.old ≡ 0 → refused.new ≡ refused_of m }
    ensures tallies { refusal m tallies.old ≡ 0 → tallies.new ≡ put (tallies_of m) tallies.old }
    ensures none_refused { 0 < refusal m tallies.old → refused.new ≡ 0 }
    ensures same_tallies { 0 < refusal m tallies.old → tallies.new ≡ tallies.old }
{
    match short_sequences::short_sequences(m, tallies) {
        Ok(tallied) => {
            *refused = tallied.refused;
            tallied.sequences as i64
        }
        Err(refusal) => {
            *refused = 0;
            minus_number(refusal)
        }
    }
}
