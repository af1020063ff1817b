//! The twist that friction is compensated for, in local axes (docs/RULES.md, 'Friction').

ghost use Rattle.std.specs.Prelude.{◌≡◌};
ghost use Rattle.control_context.specs.Friction.{linear_comp_on, angular_comp_on, kept_if, friction_twist};

use crate::tracking::ManeuverSetpoints;
use ieee754::bits::abs;
use ieee754::hypot::hypot;
use linear::rotation::Rotation;
use linear::{Vector3f, Vector6f};
use params::FRICTION_COMP_GATING;

fn linear_comp_on(vel: Vector3f, accel: Vector3f) -> bool
    ensures { result ≡ linear_comp_on vel accel }
{
    hypot(accel.x, accel.y) >= FRICTION_COMP_GATING.linear_accel
        || hypot(vel.x, vel.y) >= FRICTION_COMP_GATING.linear_vel
}

fn angular_comp_on(vel: Vector3f, accel: Vector3f) -> bool
    ensures { result ≡ angular_comp_on vel accel }
{
    abs(accel.z) >= FRICTION_COMP_GATING.angular_accel
        || abs(vel.z) >= FRICTION_COMP_GATING.angular_vel
}

fn kept_if(on: bool, x: f32) -> f32
    ensures { result ≡ kept_if on x }
{
    if on { x } else { 0.0 }
}

/// The twist of `compute_friction`, before the friction force: each entry where its gate is on, and else 0.0.
/// `heading` is the estimate's.
#[tactic(auto, unfolding(crate::specs::Friction::friction_twist))]
pub fn friction_twist(
    heading: Rotation,
    estimate: Vector6f,
    setpoints: ManeuverSetpoints,
) -> Vector3f
    ensures { result ≡ friction_twist heading estimate setpoints }
{
    let est_twist_local = heading.to_local(estimate.twist);
    let tgt_twist_local = heading.to_local(setpoints.body_twist);
    let cmd_accel_local = heading.to_local(setpoints.body_accel);
    let linear = linear_comp_on(est_twist_local, cmd_accel_local);
    let angular = angular_comp_on(est_twist_local, cmd_accel_local);
    Vector3f {
        x: kept_if(linear, tgt_twist_local.x),
        y: kept_if(linear, tgt_twist_local.y),
        z: kept_if(angular, tgt_twist_local.z),
    }
}
