// Answers a recorded list of requests again and compares with the original's answers.
//
// The list is the file stdin, made by `compare record`; compare/src/record.rs defines its form. To make it again:
//
//     cd compare && cargo build --release --offline && target/release/compare record > ../crates/replay/stdin
//
// A list without this form is called malformed, and the records that cannot be read count as answered otherwise.

#![tactic(auto)]

mod call;
mod recorded;
mod request;
mod words;

ghost use Rattle.std.specs.Prelude.{take};
ghost use Rattle.std.specs.Io.KnownBytes.{Consumes};
ghost use Rattle.io.specs.Counts.{IsPrefixLen};
ghost use Rattle.replay.specs.Words.{Follows};

use intervals::MarksOut;
use longdust::Tables;
use std::io;
use std::io::Read;
use words::{Malformed, Words};

const TEXT_ROOM: usize = 65536;

// Reads a record, answers its request and compares.
#[tactic(auto, using(crate::proofs::Following::following))]
fn replay_record(words: &mut Words) -> Result<bool, Malformed>
    ensures { Follows words.old.rest.now words.new.rest.now }
{
    let mut ln = [1e300f64; call::LN_ROOM];
    let mut f = [1e300f64; call::F_ROOM];
    let mut letters = [0xeeu8; call::LETTERS_ROOM];
    let mut list = call::some_intervals();
    let mut marks = [0xeeu8; call::LIST_ROOM];
    let head = request::head(words)?;
    let options = head.options;
    if head.lent {
        request::tables(words, &mut ln, &mut f)?;
    }
    let n = request::sequence(words, &mut letters)?;
    call::fill_tables(head.lent, &letters[..n], options, &mut ln, &mut f);
    let ln_size = call::entries(1, head.short, options.window_size + 1, call::LN_ROOM);
    let f_size = call::entries(2, head.short, options.window_size + 2, call::F_ROOM);
    let most = (n + 1) / (options.kmer + 1);
    let list_size = call::entries(11, head.short, most, call::LIST_ROOM);
    let marks_size = call::entries(12, head.short, most, call::LIST_ROOM);
    let tables = Tables {
        ln: &ln[..ln_size],
        f: &f[..f_size],
    };
    let mut out = MarksOut {
        list: &mut list[..list_size],
        marks: &mut marks[..marks_size],
    };
    let answer = call::answer(head.short, &letters[..n], options, &tables, &mut out);
    recorded::compare(words, answer, &list, &marks)
}

fn report(rt: &impl Print, sound: bool, same: u32, otherwise: u32) -> io::Result<()> {
    if !sound {
        rt.println("the list is malformed")?;
    }
    println!(rt; "{same} records answered as recorded, {otherwise} otherwise")
}

fn replay(rt: &impl Print, text: &[u8]) -> io::Result<()> {
    let mut words = Words::new(text);
    let records = match words.number(u32::MAX) {
        Ok(records) => records,
        Err(malformed) => return report(rt, false, 0, malformed.number),
    };
    let mut same: u32 = 0;
    for i in 0..records {
        match replay_record(&mut words) {
            Ok(true) => same += 1,
            Ok(false) => println!(rt; "record {} is answered otherwise", i + 1)?,
            Err(_) => return report(rt, false, same, records - same),
        }
    }
    report(rt, words.is_empty(), same, records - same)
}

// Reads until the list is full, the reader ends or a read fails, and answers how many bytes that is.
fn read_list<R: Read>(reader: &mut R, list: &mut [u8]) -> usize
    ensures prefix_len { IsPrefixLen result list.new }
    ensures bytes { Consumes (R.remaining reader.old) (R.remaining reader.new)
        (take result list.new) }
{
    let mut count = 0;
    while count < list.len() {
        match reader.read(&mut list[count..]) {
            Ok(n) => {
                if n == 0 {
                    return count;
                }
                count += n;
            }
            Err(_) => {
                return count;
            }
        }
    }
    count
}

fn main(rt: HostRuntime) -> io::Result<()> {
    let mut list = [0u8; TEXT_ROOM];
    let size = read_list(&mut rt.stdin(), &mut list);
    replay(&rt, &list[..size])
}
