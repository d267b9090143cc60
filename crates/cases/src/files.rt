// What `contigs` prints for files at the bounds of the format and of the sizes: a title, the text, and how many bytes it has.

use entries::Failed;
use std::io::{Error, ErrorKind, Result, Write};

const MOST_BYTES: usize = 65536;

fn print_case(rt: &HostRuntime, title: &[u8], file: &[u8]) -> Result<()> {
    rt.stdout().write_all(title)?;
    let mut reader = file;
    match contigs_text::print_file(rt.alloc(), &mut reader, &mut rt.stdout()) {
        Ok(count) => println!(rt; "bytes {count}"),
        Err(Failed::Writing(e)) => Err(e),
        Err(_) => Err(Error::from(ErrorKind::OutOfMemory)),
    }
}

fn print_lines(rt: &HostRuntime) -> Result<()> {
    print_case(rt, b"# an empty file\n", b"")?;
    print_case(rt, b"# only line ends\n", b"\n\n\n")?;
    print_case(rt, b"# no line end at the end\n", b">a\nAAAAAAAAAAAA")?;
    print_case(rt, b"# headers only\n", b">a\n>b")?;
    print_case(
        rt,
        b"# names up to a tab and a blank\n",
        b">a\tb\nAAAAAAAAAAAA\n>c d\nAAAAAAAAAAAA\n",
    )?;
    print_case(
        rt,
        b"# > in mid-line\n",
        b">a\nAAAAAA>b\nAAAAAA\n>b>c\nAAAAAAAAAAAA\n",
    )?;
    print_case(rt, b"# line ends of two bytes\n", b">a\r\nAAAAAAAAAAAA\r\n")?;
    print_case(
        rt,
        b"# empty lines between letters\n",
        b"\n>a\n\nAAAAAA\n\nAAAAAA\n\n",
    )?;
    print_case(
        rt,
        b"# bytes from 128 on in a name, and in letters\n",
        b">\x80\xff\nAAAAAAAAAAAA\n>b\nAAAAAAAAAAA\x80\n",
    )?;
    print_case(
        rt,
        b"# no interval, and U\n",
        b">a\nACGTTGCATC\n>b\nACGUACGTACGUACGTACGT\n",
    )?;
    Ok(())
}

fn print_refusals(rt: &HostRuntime) -> Result<()> {
    print_case(rt, b"# an empty name first\n", b">\nAAAAAAAAAAAA\n")?;
    print_case(
        rt,
        b"# an empty name before a blank\n",
        b"> a\nAAAAAAAAAAAA\n",
    )?;
    print_case(
        rt,
        b"# an empty name later\n",
        b">a\nAAAAAAAAAAAA\n>\tb\nAAAAAAAAAAAA\n",
    )?;
    print_case(rt, b"# an empty name at the end\n", b">a\nAAAAAAAAAAAA\n>")?;
    print_case(rt, b"# letters first\n", b"ACGT\n>a\nAAAAAAAAAAAA\n")?;
    print_case(rt, b"# a blank first\n", b"\n \n>a\nAAAAAAAAAAAA\n")?;
    print_case(
        rt,
        b"# letters first, then an empty name\n",
        b"A\n>\nAAAAAAAAAAAA\n",
    )?;
    print_case(
        rt,
        b"# digits in one record of three\n",
        b">a\nAAAAAAAAAAAA\n>b\nAAAAAA 12\nAAAAAA\n>c\nAAAAAAAAAAAA\n",
    )?;
    print_case(
        rt,
        b"# too few letters in one record of three\n",
        b">a\nAAAAAAAAAAAA\n>b\nACG\nTACG\n>c\nAAAAAAAAAAAA\n",
    )?;
    Ok(())
}

// One record, then two.
// The headers are written byte by byte. Tried: with two `copy_from_slice` the proof that the later slices lie inside the file does not close.
fn print_sizes(rt: &HostRuntime) -> Result<()> {
    let mut file = [b'A'; MOST_BYTES + 1];
    file[0] = b'>';
    file[1] = b'a';
    file[2] = b'\n';
    print_case(rt, b"# 32,768 letters\n", &file[..32771])?;
    print_case(rt, b"# 32,769 letters\n", &file[..32772])?;
    file[2000] = b'1';
    print_case(rt, b"# 32,769 letters and a digit\n", &file[..32772])?;
    file[2000] = b'A';
    file[32771] = b'\n';
    file[32772] = b'>';
    file[32773] = b'b';
    file[32774] = b'\n';
    print_case(rt, b"# 65,536 bytes\n", &file[..MOST_BYTES])?;
    print_case(rt, b"# 65,537 bytes\n", &file)?;
    file[0] = b'A';
    print_case(rt, b"# 65,537 bytes, letters first\n", &file)?;
    Ok(())
}

// A header whose name has 30,000 bytes, then 18 letters A between each 282 letters n.
fn long_name_byte(i: usize) -> u8 {
    match i {
        0 => b'>',
        30001 => b'\n',
        1..=30000 => b'n',
        _ if i % 300 < 282 => b'n',
        _ => b'A',
    }
}

fn put_long_name(file: &mut [u8]) {
    for (i, byte) in file.iter_mut().enumerate() {
        *byte = long_name_byte(i);
    }
}

// Lines that are long.
fn print_long_name(rt: &HostRuntime) -> Result<()> {
    let mut file = [0u8; 31502];
    put_long_name(&mut file);
    print_case(rt, b"# a name of 30,000 bytes and five intervals\n", &file)?;
    Ok(())
}

/// Prints each case of a file: its title, its text, and how many bytes that has.
pub fn print_files(rt: &HostRuntime) -> Result<()> {
    print_lines(rt)?;
    print_refusals(rt)?;
    print_sizes(rt)?;
    print_long_name(rt)
}
