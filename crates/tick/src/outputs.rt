//! What a controller puts out in a tick.
use linear::{Vector3f, Vector4f, ZEROS_3, ZEROS_4};

/// `BodyController`'s fields of these names: body twist (m/s, rad/s) and acceleration (m/s², rad/s²), the acceleration
/// with friction made up for, wheel speeds (rad/s) and wheel torques.
#[derive(Clone, Copy)]
pub struct Outputs {
    pub body_twist_out: Vector3f,
    pub body_accel_out: Vector3f,
    pub body_accel_out_fric_comp: Vector3f,
    pub wheel_vel_out: Vector4f,
    pub wheel_torque_out: Vector4f,
}

/// The outputs of a new or reset controller.
pub const NO_OUTPUTS: Outputs = Outputs {
    body_twist_out: ZEROS_3,
    body_accel_out: ZEROS_3,
    body_accel_out_fric_comp: ZEROS_3,
    wheel_vel_out: ZEROS_4,
    wheel_torque_out: ZEROS_4,
};
