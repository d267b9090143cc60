// What `track` prints for letters that the specification and the requests name, and at the bounds of what it takes: a title, and the text.

use report::Text;
use std::io::{Result, Write};

fn print_case(rt: &HostRuntime, title: &[u8], bytes: &[u8]) -> Result<()> {
    let mut text = [0u8; contig::TEXT_ROOM];
    let mut text = Text::new(&mut text);
    contig::write_text(bytes, &mut text);
    rt.stdout().write_all(title)?;
    rt.stdout().write_all(text.written())
}

// A window of letters; from 5,001 to 5,005 the last find begins before the first letter.
fn print_windows(rt: &HostRuntime) -> Result<()> {
    let letters = [b'A'; 5006];
    print_case(rt, b"# 5,000 letters\n", &letters[..5000])?;
    print_case(rt, b"# 5,001 letters\n", &letters[..5001])?;
    print_case(rt, b"# 5,002 letters\n", &letters[..5002])?;
    print_case(rt, b"# 5,003 letters\n", &letters[..5003])?;
    print_case(rt, b"# 5,004 letters\n", &letters[..5004])?;
    print_case(rt, b"# 5,005 letters\n", &letters[..5005])?;
    print_case(rt, b"# 5,006 letters\n", &letters)
}

fn print_lines(rt: &HostRuntime) -> Result<()> {
    print_case(
        rt,
        b"# two lines, three intervals\n",
        b"GCTAGTCCAAAAAAAAAAAAGTCGATCCTGCACACACA\nCACACACACAGGTTCAGGCNNGATTATTATTATTATTATTATCG\n",
    )?;
    print_case(
        rt,
        b"# line ends of two bytes\n",
        b"AAAAAAAAAAAAAAA\r\nAAAAA\r\n",
    )?;
    print_case(rt, b"# a line number\n", b"1 AAAAAAAAAAAAAAAAAAAA\n")
}

/// Prints each case of letters alone: its title, and its text.
pub fn print_letters(rt: &HostRuntime) -> Result<()> {
    let mut letters = [b'A'; contig::LETTERS_ROOM];
    print_case(rt, b"# 20 letters A\n", &letters[..20])?;
    print_case(rt, b"# 9 letters\n", &letters[..9])?;
    print_case(rt, b"# 10 letters\n", &letters[..10])?;
    print_windows(rt)?;
    print_case(rt, b"# no letters\n", &letters[..0])?;
    print_case(rt, b"# k letters\n", &letters[..7])?;
    print_case(rt, b"# k + 1 letters\n", &letters[..8])?;
    print_lines(rt)?;
    let ambiguous = [b'N'; contig::MOST_LETTERS];
    print_case(rt, b"# as many letters as are taken, all N\n", &ambiguous)?;
    letters[10] = 128;
    print_case(rt, b"# a byte of 128\n", &letters[..20])?;
    print_case(rt, b"# one letter more than are taken\n", &letters)
}
