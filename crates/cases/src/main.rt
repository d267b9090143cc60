// What the programs print at the bounds of what they take: `track` for letters, then `contigs` for files.

#![tactic(auto)]

mod files;
mod letters_alone;

use std::io::Result;

fn main(rt: HostRuntime) -> Result<()> {
    letters_alone::print_letters(&rt)?;
    files::print_files(&rt)
}
