//! control_context.rs: what the calls of a tick keep from tick to tick, and their work on it. Whose turn it is,
//! and what is refused, is `body_controller`'s.
#![tactic(auto)]

pub mod context; // context.rt: ControlContext, and the work of sight and steer on it
pub mod friction; // friction.rt: the friction twist, local and gated
pub mod limits; // limits.rt: the clamps of twist and acceleration, and the stop state's speed
pub mod maneuver_laws; // maneuver_laws.rt: what is proved of the decision and of equality of commands
pub mod maneuvers; // maneuvers.rt: plan's work: the one decision over mode, halt, recovery and vision
pub mod memory; // memory.rt: the held sample and the previous command
pub mod recovery; // recovery.rt: the tracking error, and what recovery makes of it
pub mod tracking; // tracking.rt: from a trajectory's sample to the setpoints
pub mod tracking_laws; // tracking_laws.rt: what is proved of the clamps and of recovery
