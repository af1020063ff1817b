//! Program `replay_lists`: runs stored lists against the crates, those of data/ and then those of standard input.
//! Prints a line for each list, and the first mismatches.
#![tactic(auto)]

mod floats; // floats.rt: the lists of data/, of float operations
mod runs; // runs.rt: the lists of standard input, of runs of calls

use std::io;

fn main(rt: HostRuntime) -> io::Result<()> {
    floats::run_lists(&rt)?;
    runs::run_lists(&rt)
}
