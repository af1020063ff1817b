//! Program `drive`: tick blocks from standard input, to its end or to the first refusal; a line for each block to
//! standard output, and the last line (docs/RULES.md, 'The lines of drive'). A failed read or write ends it.
#![tactic(auto)]

use pass::run::drive_all;
use std::io;

fn main(rt: HostRuntime) -> io::Result<()> {
    drive_all(&mut rt.stdin(), &mut rt.stdout())
}
