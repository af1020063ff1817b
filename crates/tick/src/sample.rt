//! A sample of a trajectory (docs/RULES.md, 'Samples').
use linear::{Vector3f, Vector6f};

/// What a trajectory gives for one tick.
#[derive(Clone, Copy, PartialEq)]
pub struct Sample {
    /// Pose and twist.
    pub state: Vector6f,
    pub accel: Vector3f,
}
