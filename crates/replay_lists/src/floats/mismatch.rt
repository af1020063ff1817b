//! What is printed of a mismatch.
use crate::floats::answer::{Operation, answer};
use crate::floats::record::Record;
use harness::tally::Tally;
use std::io;

// The argument, the answer to it and the answer wanted, in hex.
fn show_record<O: Operation>(rt: &HostRuntime, record: Record) -> io::Result<()> {
    let argument = record.argument;
    let given = answer::<O>(argument);
    let wanted = record.wanted;
    println!(rt; "  argument {argument:08x} answer {given:08x} wanted {wanted:08x}")
}

// Shows the block's mismatches, the first ones of its list; `before` has those of earlier blocks.
pub(crate) fn show<O: Operation>(rt: &HostRuntime, block: &[u8], before: Tally) -> io::Result<()> {
    // The chain of `mismatches` again: its type has closures in it, so no function can hand it out.
    let mismatches = (0..block.len() / 8)
        .map(|i| Record::at(block, i))
        .filter(|record| record.is_mismatch::<O>());
    for record in mismatches.take(before.left_to_show() as usize) {
        show_record::<O>(rt, record)?;
    }
    Ok(())
}
