//! The text of program `drive` (docs/RULES.md, 'The lines of drive'): a line for each tick or refused block, and the
//! last line. A line is written straight into lent bytes that hold any of them.
#![tactic(auto)]

pub mod laws; // laws.rt: what is proved of the lines' lengths
pub mod line; // line.rt: the line of a tick, or of a refused block
mod pieces; // pieces.rt: what a line is made of
pub mod totals; // totals.rt: the last line
