//! The clamps of twist and acceleration, and the stop state's speed (docs/RULES.md, 'Stop and limits').

ghost use Rattle.std.specs.Prelude.{◌≡◌};
ghost use Rattle.control_context.specs.Clamped.{clamped_to, twist_clamped, accel_clamped};
ghost use Rattle.control_context.specs.Stop.{stop_scaled};

use ieee754::clamp::clamp_within;
use ieee754::root::sqrt;
use linear::Vector3f;
use params::{
    BODY_ACCEL_CLAMP_ANGULAR, BODY_ACCEL_CLAMP_LINEAR, BODY_VEL_CLAMP_ANGULAR,
    BODY_VEL_CLAMP_LINEAR, STOP_STATE_LINEAR_SPEED_LIMIT,
};

/// A vector within its bounds, and whether an entry is not equal to the one given.
#[derive(Clone, Copy)]
pub struct Clamped {
    pub value: Vector3f,
    pub clamped: bool,
}

// NaN stays, and is marked: it is not equal to itself.
fn clamp_to(linear: f32, angular: f32, v: Vector3f) -> Clamped
    ensures { result ≡ clamped_to linear angular v }
{
    let value = Vector3f {
        x: clamp_within(v.x, linear),
        y: clamp_within(v.y, linear),
        z: clamp_within(v.z, angular),
    };
    Clamped {
        value,
        clamped: value != v,
    }
}

/// A twist, in m/s and rad/s, within the bounds of the velocity.
pub fn clamp_twist(body_twist: Vector3f) -> Clamped
    ensures { result ≡ twist_clamped body_twist }
{
    clamp_to(BODY_VEL_CLAMP_LINEAR, BODY_VEL_CLAMP_ANGULAR, body_twist)
}

/// An acceleration, in m/s² and rad/s², within its bounds.
pub fn clamp_accel(body_accel: Vector3f) -> Clamped
    ensures { result ≡ accel_clamped body_accel }
{
    clamp_to(
        BODY_ACCEL_CLAMP_LINEAR,
        BODY_ACCEL_CLAMP_ANGULAR,
        body_accel,
    )
}

/// In the stop state the linear speed is scaled down to its limit; the angular one stays.
#[tactic(auto, unfolding(crate::specs::Stop::stop_scaled))]
pub fn stop_scaled(stop: bool, twist: Vector3f) -> Vector3f
    ensures { result ≡ stop_scaled stop twist }
{
    if stop {
        let linear_speed = sqrt(twist.x * twist.x + twist.y * twist.y);
        if linear_speed > STOP_STATE_LINEAR_SPEED_LIMIT {
            let scale = STOP_STATE_LINEAR_SPEED_LIMIT / linear_speed;
            return Vector3f {
                x: twist.x * scale,
                y: twist.y * scale,
                z: twist.z,
            };
        }
    }
    twist
}
