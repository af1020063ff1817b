//! The words that a control tick's parts share: what its calls take and answer, and why they refuse.
#![tactic(auto)]

pub mod action; // action.rt: the eight outcomes of the gate
pub mod command; // command.rt: commands, and the words that they are read from
pub mod command_laws; // command_laws.rt: what is proved of commands and their words
pub mod inputs; // inputs.rt: what the tick's four calls take
pub mod mode; // mode.rt: what is known of a mode number
pub mod outputs; // outputs.rt: what a controller puts out
pub mod refusal; // refusal.rt: why a call or a block is refused
pub mod sample; // sample.rt: a sample of a trajectory
pub mod start; // start.rt: what is chosen once, when a controller starts
pub mod tally; // tally.rt: the ticks, and how often each outcome came
pub mod tick_length; // tick_length.rt: how long a tick lasts
pub mod tick_length_laws; // tick_length_laws.rt: what is proved of tick lengths
