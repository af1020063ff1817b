//! The firmware's controllers: the PID, the brake that stands on it, and the lag of the encoders.
#![tactic(auto)]

pub mod pid; // pid.rt: a PID controller over any number of axes
pub mod pid_laws; // pid_laws.rt: what is proved of the PID of N axes over calls
pub mod active_brake; // active_brake.rt: each wheel is driven to rest by a P controller on its measured speed
pub mod first_order_lag; // first_order_lag.rt: a lag over two axes, and the one of the encoders
