// What is said of a record that is refused.

ghost use Rattle.std.specs.Prelude.{◌≡◌, ◌<◌, ◌++◌, OnOk};
ghost use Rattle.entries.specs.Outcome.{Sent};
ghost use Rattle.checks.specs.Refusal.{number};
ghost use Rattle.forms.specs.Notes.{hex, escaped, shown, earns, first_place, byte_shown, letter_at, detail, refused_note};

use crate::text::add_decimal;
use checks::Refusal;
use entries::write_whole;
use std::io::{Result as IoResult, Write};

// A digit in base 16.
fn hex(d: u8) -> u8
    requires { d < 16 }
    ensures { result ≡ hex d }
{
    if d < 10 { b'0' + d } else { 87 + d }
}

// Appends a byte of a name as it is shown.
#[tactic(auto, unfolding(crate::specs::Notes::escaped))]
fn add_escaped(text: &mut Vec<u8>, byte: u8) -> IoResult<()>
    ensures { OnOk result (text.new.items ≡ text.old.items ++ escaped byte) }
{
    if byte == b'\\' {
        text.extend_from_slice(b"\\\\")?;
        return Ok(());
    }
    if (byte < 32) | (126 < byte) {
        let code = [b'\\', b'x', hex(byte / 16), hex(byte % 16)];
        text.extend_from_slice(&code)?;
        return Ok(());
    }
    text.push(byte)?;
    Ok(())
}

// Appends a name as it is shown.
fn add_shown(text: &mut Vec<u8>, name: &[u8]) -> IoResult<()>
    ensures { OnOk result (text.new.items ≡ text.old.items ++ shown name.now) }
{
    for i in 0..name.len() {
        add_escaped(text, name[i])?;
    }
    Ok(())
}

// Whether a byte earns refusal 2, or else 13.
fn earns(high: bool, b: u8) -> bool
    ensures { result ≡ earns high b }
{
    if high {
        return 128 <= b;
    }
    b.is_ascii() & !(b.is_ascii_alphabetic() | (b == b'-') | (b == b'*'))
}

// The place of the first byte that does.
fn first_place(high: bool, letters: &[u8]) -> usize
    ensures { result ≡ first_place high letters.now }
{
    for i in 0..letters.len() {
        if earns(high, letters[i]) {
            return i;
        }
    }
    letters.len()
}

// Appends a byte in quotes, or as a number.
#[tactic(auto, unfolding(crate::specs::Notes::byte_shown))]
fn add_byte(text: &mut Vec<u8>, b: u8) -> IoResult<()>
    ensures { OnOk result (text.new.items ≡ text.old.items ++ byte_shown b) }
{
    if (32 < b) & (b < 127) {
        let quoted = [b'\'', b, b'\''];
        text.extend_from_slice(&quoted)?;
        return Ok(());
    }
    text.extend_from_slice(b"the byte ")?;
    add_decimal(text, b as u64)
}

// Appends which letter the byte at a place is.
#[tactic(auto, unfolding(crate::specs::Notes::letter_at))]
fn add_letter(text: &mut Vec<u8>, letters: &[u8], i: usize) -> IoResult<()>
    ensures { OnOk result (text.new.items ≡ text.old.items ++ letter_at letters.now i) }
{
    if letters.len() <= i {
        return Ok(());
    }
    text.extend_from_slice(b": letter ")?;
    add_decimal(text, i as u64 + 1)?;
    text.extend_from_slice(b" is ")?;
    add_byte(text, letters[i])
}

// Appends what in the letters earned a refusal.
#[tactic(auto, unfolding(crate::specs::Notes::detail))]
fn add_detail(text: &mut Vec<u8>, letters: &[u8], refusal: Refusal) -> IoResult<()>
    ensures { OnOk result (text.new.items ≡ text.old.items ++ detail (number refusal) letters.now) }
{
    let number = refusal.number();
    if number == 2 {
        return add_letter(text, letters, first_place(true, letters));
    }
    if number == 13 {
        return add_letter(text, letters, first_place(false, letters));
    }
    if (number == 3) | (number == 10) {
        text.extend_from_slice(b": it has ")?;
        return add_decimal(text, letters.len() as u64);
    }
    Ok(())
}

fn add_note(text: &mut Vec<u8>, name: &[u8], letters: &[u8], refusal: Refusal) -> IoResult<()>
    ensures { OnOk result (text.new.items ≡ text.old.items ++ refused_note name.now (number refusal) letters.now) }
{
    text.extend_from_slice(b"cisternpea: ")?;
    add_shown(text, name)?;
    text.extend_from_slice(b": refused (")?;
    add_decimal(text, refusal.number() as u64)?;
    text.extend_from_slice(b"): ")?;
    text.extend_from_slice(refusal.text().as_bytes())?;
    add_detail(text, letters, refusal)?;
    text.push(b'\n')?;
    Ok(())
}

// Writes the line. The buffer is for it.
pub fn write_note<N: Write>(
    text: &mut Vec<u8>,
    name: &[u8],
    letters: &[u8],
    refusal: Refusal,
    notes: &mut N,
) -> IoResult<()>
    ensures { Sent (N.contents notes.old) (N.contents notes.new) (refused_note name.now (number refusal) letters.now) result }
{
    text.clear();
    if let Err(e) = add_note(text, name, letters, refusal) {
        return Err(e);
    }
    write_whole(notes, text.as_slice())
}
