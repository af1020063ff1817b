//! A pass: tick blocks driven one after the other, each with its line of text (docs/RULES.md, 'The tick block' and
//! 'The lines of drive'), a whole run of them, and what is proved of every list of blocks, every line and every batch.
#![tactic(auto)]

pub mod batch; // batch.rt: a block or a batch of blocks, with the text of their lines
mod calls; // calls.rt: a tick's four calls
pub mod every_batch; // every_batch.rt: the theorems on batches, in a contract
pub mod every_line; // every_line.rt: the theorem on the printed lines, in a contract
pub mod every_list; // every_list.rt: the theorem on lists of blocks, in a contract
pub mod last; // last.rt: the last line of a pass
pub mod pass; // pass.rt: a pass, and a block driven in it
pub mod run; // run.rt: a whole run, from a reader to a writer
