//! Program `replay_ticks`: tick blocks from standard input; for each, 96 words with all that its tick answers and
//! leaves, to standard output. A refused block ends its pass, and the next block begins another. compare/FORMATS.md
//! lists the words.
#![tactic(auto)]

mod answers; // answers.rt: the words of the four answers
mod block; // block.rt: a block's words, and the pass after it
mod calls; // calls.rt: the four calls
mod put; // put.rt: vectors and marks among the 96 words
mod state; // state.rt: the words of what the controller keeps

use block::run_block;
use full_io::read_full;
use std::io;

// As many blocks as 256 passes can drive.
const TURNS: u64 = 4_294_967_296;

// The words as bytes, lowest byte first.
fn put_bytes(out: &mut [u8; 384], words: &[u32; 96]) {
    for (bytes, word) in out.chunks_exact_mut(4).zip(words) {
        bytes.copy_from_slice(&word.to_le_bytes());
    }
}

// The words of a block of n bytes are written if it has any; whether another block may follow.
fn write(rt: &HostRuntime, words: &[u32; 96], n: usize) -> io::Result<bool> {
    if n == 0 {
        return Ok(false);
    }
    let mut out = [0; 384];
    put_bytes(&mut out, words);
    rt.write_all(&out)?;
    Ok(n == 512)
}

fn main(rt: HostRuntime) -> io::Result<()> {
    let mut pass = None;
    for _ in 0..TURNS {
        let mut block = [0; 512];
        let mut words = [0; 96];
        let n = read_full(&mut rt.stdin(), &mut block)?;
        run_block(&mut pass, &block[..n], &mut words);
        if !write(&rt, &words, n)? {
            break;
        }
    }
    Ok(())
}
