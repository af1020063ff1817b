//! The tracking error, and what recovery makes of it (docs/RULES.md, 'Recovery').

ghost use Rattle.std.specs.Prelude.{◌≡◌};
ghost use Rattle.control_context.specs.Divergence.{is_recovering};
ghost use Rattle.control_context.specs.ErrorLimits.{any_exceeds, at_rest};
ghost use Rattle.control_context.specs.Following.{held_state, recovered};
ghost use Rattle.control_context.specs.Recovery.{tracking_errors, tracking_error_exceeded};

use crate::context::ControlContext;
use ieee754::bits::abs;
use ieee754::hypot::hypot;
use ieee754::remainder::remainder;
use linear::vectors::sub;
use linear::{Vector4f, Vector6f};
use params::{
    TRACKING_DIVERGENCE_RECOVERY_REST_WHEEL_VEL, TRACKING_ERROR_THRESHOLD, TrackingErrors,
};

/// Whether the robot was knocked off its trajectory.
#[derive(Clone, Copy, Debug, PartialEq, Eq)]
pub enum TrackingDivergenceState {
    Normal,
    /// Braking, until the wheels are at rest.
    Recovering,
}

impl TrackingDivergenceState {
    /// `tracking_divergence_recovery_active`.
    pub fn recovering(self) -> bool
        ensures { result ≡ is_recovering self }
    {
        self == TrackingDivergenceState::Recovering
    }
}

// NaN exceeds nothing.
fn any_exceeds(error: TrackingErrors, limit: TrackingErrors) -> bool
    ensures { result ≡ any_exceeds error limit }
{
    (error.pos_linear > limit.pos_linear)
        | (error.pos_angular > limit.pos_angular)
        | (error.vel_linear > limit.vel_linear)
        | (error.vel_angular > limit.vel_angular)
}

// Every wheel is at rest; a NaN is not. One such tick is enough, as
// TRACKING_DIVERGENCE_RECOVERY_REST_TICKS is 1.
fn at_rest(wheels: Vector4f) -> bool
    ensures { result ≡ at_rest wheels }
{
    (abs(wheels.x) < TRACKING_DIVERGENCE_RECOVERY_REST_WHEEL_VEL)
        & (abs(wheels.y) < TRACKING_DIVERGENCE_RECOVERY_REST_WHEEL_VEL)
        & (abs(wheels.z) < TRACKING_DIVERGENCE_RECOVERY_REST_WHEEL_VEL)
        & (abs(wheels.w) < TRACKING_DIVERGENCE_RECOVERY_REST_WHEEL_VEL)
}

// How far a sample's state and the estimate are apart.
fn tracking_errors(traj_state: Vector6f, estimate: Vector6f) -> TrackingErrors
    ensures { result ≡ tracking_errors traj_state estimate }
{
    let pose = sub(traj_state.pose, estimate.pose);
    let twist = sub(traj_state.twist, estimate.twist);
    TrackingErrors {
        pos_linear: hypot(pose.x, pose.y),
        pos_angular: abs(remainder(pose.z)),
        vel_linear: hypot(twist.x, twist.y),
        vel_angular: abs(twist.z),
    }
}

impl ControlContext {
    // No error without a sample.
    fn tracking_error_exceeded(&self) -> bool
        ensures { result ≡ tracking_error_exceeded (held_state self.now.memory.held) self.now.state_estimate }
    {
        match self.memory.held {
            None => false,
            Some(sample) => any_exceeds(
                tracking_errors(sample.state, self.state_estimate),
                TRACKING_ERROR_THRESHOLD,
            ),
        }
    }

    // Judged on the sample that is held by now, and on the wheels' measured speeds in rad/s.
    #[tactic(auto, unfolding(crate::specs::Recovery::recovery))]
    pub(crate) fn update_tracking_divergence_recovery(&mut self, wheel_vel_meas: Vector4f)
        ensures { self.new ≡ recovered self.old wheel_vel_meas }
    {
        match self.divergence {
            TrackingDivergenceState::Normal => {
                if self.tracking_error_exceeded() {
                    self.divergence = TrackingDivergenceState::Recovering;
                }
            }
            TrackingDivergenceState::Recovering => {
                if at_rest(wheel_vel_meas) {
                    self.reset();
                }
            }
        }
    }
}
