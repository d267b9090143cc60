// The table of all short sequences, for the check before a release. For each size m from 1 to 8 a line: m, how many sequences
// over A C G T N are refused, and how many lead to 0, 1 .. m masked letters, with a tab between two numbers.

#![tactic(auto)]

use std::io;

fn print_column(rt: &impl Print, number: u32) -> io::Result<()> {
    print!(rt; "\t{number}")
}

fn print_line(rt: &impl Print, m: usize, refused: u32, tallies: &[u32]) -> io::Result<()> {
    print!(rt; "{m}")?;
    print_column(rt, refused)?;
    for tally in tallies {
        print_column(rt, *tally)?;
    }
    rt.println("")
}

fn main(rt: HostRuntime) -> io::Result<()> {
    for m in 1..=short_sequences::MOST_LETTERS {
        let mut tallies = [0u32; 9];
        let tallied = short_sequences::short_sequences(m, &mut tallies);
        let refused = tallied.map_or(0, |tallied| tallied.refused);
        print_line(&rt, m, refused, &tallies[..m + 1])?;
    }
    Ok(())
}
