// The call for the text of a refusal.

ghost use Rattle.std.specs.Prelude.{◌≡◌, ◌<◌, length};
ghost use Rattle.buffers.specs.Fill.{put};
ghost use Rattle.longdust_c.specs.Numbers.{words, text_numbered, text_refusal, count_or};

use crate::numbers::{minus_number, refusal_numbered};
use checks::Refusal;

// The text of a refusal, empty without one.
fn words(refusal: Option<Refusal>) -> &'static str
    ensures { result.now ≡ words refusal }
{
    match refusal {
        Some(refusal) => refusal.text(),
        None => "",
    }
}

/// Writes the text of the refusal that has this number to the front of `text`: none if no refusal has it.
/// Returns how many bytes it has, or minus refusal 11.
#[unsafe(no_mangle)]
pub extern "C" fn longdust_refusal_text(number: u32, text: &mut [u8]) -> i64
    ensures number { result
        ≡ count_or (text_refusal number (length text.old)) (length (text_numbered number)) }
    ensures accepted { text_refusal number (length text.old) ≡ 0
        → text.new ≡ put (text_numbered number) text.old }
    ensures refused { 0 < text_refusal number (length text.old) → text.new ≡ text.old }
{
    let words = words(refusal_numbered(number)).as_bytes();
    if text.len() < words.len() {
        return minus_number(Refusal::ShortSlice);
    }
    masked_copy::copy_letters(words, text);
    words.len() as i64
}
