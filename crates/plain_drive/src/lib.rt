//! The plain drive, and what holds after every list of the controller's calls; the Rust's tick in its own order; the
//! worked values of the rules.
#![tactic(auto)]

pub mod control_update; // control_update.rt: a tick's calls are the Rust's `control_update`, in a contract
pub mod every_list; // every_list.rt: the theorem, in a contract
pub mod worked_values; // worked_values.rt: values of the rules, worked out
