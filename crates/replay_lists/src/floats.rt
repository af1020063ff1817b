//! The lists of data/: roots and remainders against those of Rust's libm, words both ways, sums and differences
//! (compare/vectors writes the lists). Prints a line for each list, and the first mismatches.
mod answer; // answer.rt: what is computed of an argument
mod mismatch; // mismatch.rt: what is printed of a mismatch
mod record; // record.rt: an argument with the answer wanted, and how many of a block disagree

use crate::floats::answer::{Difference, Operation, Remainder, Root, Twice, Word};
use full_io::read_full;
use harness::report::write_line;
use harness::tally::Tally;
use std::fs::File;
use std::io;

// Reads one block of a list, and adds its records and mismatches to `tally`.
fn run_block<O: Operation>(rt: &HostRuntime, list: &mut File, tally: Tally) -> io::Result<Tally> {
    // 1024 records.
    let mut block = [0; 8192];
    let n = read_full(list, &mut block)?;
    let found = record::mismatches::<O>(&block[..n]);
    mismatch::show::<O>(rt, &block[..n], tally)?;
    Ok(Tally {
        cut_short: tally.cut_short | (n % 8 != 0),
        ..tally.count((n / 8) as u64, found as u64)
    })
}

// Reads a list to its end, in as many turns as no run uses up, since nothing says that a file ends.
fn run_list<O: Operation>(rt: &HostRuntime, list: &mut File) -> io::Result<Tally> {
    let mut tally = Tally::new();
    for _ in 0..u64::MAX {
        let next = run_block::<O>(rt, list, tally)?;
        if next.records == tally.records {
            return Ok(next);
        }
        tally = next;
    }
    Ok(tally)
}

// Runs the list in the file `name`, and prints its line.
fn run<O: Operation>(rt: &HostRuntime, name: &str) -> io::Result<()> {
    match File::open(rt, name) {
        Ok(mut list) => {
            let tally = run_list::<O>(rt, &mut list)?;
            write_line(&mut io::writer(rt), name, tally)
        }
        Err(_) => println!(rt; "{name} cannot be opened"),
    }
}

// Runs every list of data/.
pub(crate) fn run_lists(rt: &HostRuntime) -> io::Result<()> {
    run::<Root>(rt, "roots")?;
    run::<Remainder>(rt, "remainders")?;
    run::<Word>(rt, "words")?;
    run::<Twice>(rt, "twice")?;
    run::<Difference>(rt, "differences")
}
