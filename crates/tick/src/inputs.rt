//! What the tick's four calls take. Types alone, so that who reads them from a block needs no controller.
//! Lengths are in m, angles in rad and times in s; wheel speeds are in rad/s.
use crate::command::CommandWords;
use crate::sample::Sample;
use linear::rotation::Rotation;
use linear::{Matrix3, Matrix3x4, Matrix4x3, Vector3f, Vector4f, Vector6f};

/// What sight takes (docs/RULES.md, 'Sight').
#[derive(Clone, Copy)]
pub struct SightInput {
    /// The sighted pose. The measurement hands it on where there is no sighting, too.
    pub vision_pose_meas: Vector3f,
    /// Whether there is a sighting.
    pub vision_update: bool,
    pub wheel_vel_meas: Vector4f,
    pub imu_gyro_theta_meas: f32,
    pub predicted_state: Vector6f,
    /// At the sighted heading.
    pub wheel2twist: Matrix3x4,
}

/// What plan takes (docs/RULES.md, 'Plan').
#[derive(Clone, Copy)]
pub struct PlanInput {
    /// The estimator's new estimate.
    pub state_estimate: Vector6f,
    pub halt: bool,
    /// A number that is no mode is refused: `Refusal::Mode`.
    pub mode: u32,
    pub words: CommandWords,
    /// The estimator's mark: the call is refused by `Refusal::EstimatorFailed`.
    pub estimator_failed: bool,
}

/// What steer takes (docs/RULES.md, 'Steer').
#[derive(Clone, Copy)]
pub struct SteerInput {
    /// What a new plan gives for this tick.
    pub fresh: Sample,
    /// What the tracked plan gives for the next tick.
    pub next: Sample,
    pub wheel_vel_meas: Vector4f,
    /// By the estimate's heading.
    pub heading: Rotation,
    pub stop: bool,
    /// The planner's mark: where a new plan is needed, the call is refused by `Refusal::PlannerFailed`.
    pub planner_failed: bool,
}

/// What finish takes (docs/RULES.md, 'Finish').
#[derive(Clone, Copy)]
pub struct FinishInput {
    /// The inverse of the inertia.
    pub i_inv: Matrix3,
    pub twist2wheel: Matrix4x3,
    pub accel2wheel: Matrix4x3,
    pub friction_force_local: Vector3f,
}

/// What a tick's four calls take.
#[derive(Clone, Copy)]
pub struct TickInput {
    pub sight: SightInput,
    pub plan: PlanInput,
    pub steer: SteerInput,
    pub finish: FinishInput,
}
