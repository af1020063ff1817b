//! Program `cases`: cases that are not proved. Standard input has passes one behind the other, each ended by a refused
//! block; the lines of each are printed, and its last line. Then one block with each of its bits turned and of each
//! length, a run in pieces of few bytes and with failures, and the tick limit, in full.
#![tactic(auto)]

mod bits; // bits.rt: a block with each of its bits turned, and of each length
mod limit; // limit.rt: a pass of 16,777,217 blocks
mod runs; // runs.rt: a run over a reader and a writer that take few bytes, or fail

use bits::drive_variants;
use full_io::read_full;
use limit::drive_to_limit;
use line_text::line::LINE;
use pass::batch::{Written, drive_block};
use pass::last::write_last;
use pass::pass::Pass;
use runs::drive_runs;
use std::io;
use tick_block::layout::BLOCK_BYTES;

// More blocks than the input has.
const TURNS: u32 = 100_000;

// The last line of a pass.
fn print_last(rt: &HostRuntime, pass: &Pass) -> io::Result<()> {
    let mut line = [0; LINE];
    let len = write_last(pass, &mut line);
    rt.write_all(&line[..len])
}

// Drives a block, and prints its line where it is to be shown or the block is refused. A refused one ends its pass, and
// the next block begins another.
pub(crate) fn drive_next(
    rt: &HostRuntime,
    pass: &mut Pass,
    block: &[u8],
    shown: bool,
) -> io::Result<()> {
    let mut line = [0; LINE];
    let Written { len, refused } = drive_block(pass, block, &mut line);
    if shown || refused {
        rt.write_all(&line[..len])?;
    }
    if refused {
        print_last(rt, pass)?;
        *pass = Pass::Empty;
    }
    Ok(())
}

fn drive_passes(rt: &HostRuntime) -> io::Result<()> {
    let mut pass = Pass::Empty;
    for _ in 0..TURNS {
        let mut block = [0; BLOCK_BYTES];
        let n = read_full(&mut rt.stdin(), &mut block)?;
        if n == 0 {
            break;
        }
        drive_next(rt, &mut pass, &block[..n], true)?;
    }
    Ok(())
}

fn main(rt: HostRuntime) -> io::Result<()> {
    drive_passes(&rt)?;
    drive_variants(&rt)?;
    drive_runs(&rt)?;
    drive_to_limit(&rt)
}
