//! A stored list's tally, and the line that its replay prints.
#![tactic(auto)]

pub mod report; // report.rt: the line
pub mod tally; // tally.rt: what a list of stored answers has shown
