//! From a trajectory's sample to the setpoints (docs/RULES.md, 'Setpoints').

ghost use Rattle.std.specs.Prelude.{◌≡◌, ◌∷◌, []};
ghost use Rattle.tick.specs.Start.{dt_of};
ghost use Rattle.control_context.specs.Setpoints.{wrapped, twist_setpoint, accel_setpoint, tracking_setpoints};

use crate::context::ControlContext;
use controllers::pid::PidSettings;
use ieee754::remainder::remainder;
use linear::vectors::{add, scale, sub};
use linear::{Vector3f, Vector6f, ZEROS_3};
use params::{
    ANGULAR_POSE_PID_GAINS, LINEAR_POSE_PID_GAINS, POSE_ACCEL_FEEDBACK_GAIN,
    POSE_PID_ANTI_JITTER_THRESH, POSE_VEL_FEEDFORWARD_GAIN,
};

/// What a maneuver sets for a tick, in global axes.
#[derive(Clone, Copy)]
pub struct ManeuverSetpoints {
    /// In m/s, and rad/s.
    pub body_twist: Vector3f,
    /// In m/s², and rad/s².
    pub body_accel: Vector3f,
}

/// No motion: what hold and no vision set.
pub const ZERO_SETPOINTS: ManeuverSetpoints = ManeuverSetpoints {
    body_twist: ZEROS_3,
    body_accel: ZEROS_3,
};

// `pose_pid_controller`: x, y and heading.
const POSE_PID: [PidSettings; 3] = [
    PidSettings {
        gain: LINEAR_POSE_PID_GAINS,
        anti_jitter_thresh: Some(POSE_PID_ANTI_JITTER_THRESH.x),
        output_limits: None,
    },
    PidSettings {
        gain: LINEAR_POSE_PID_GAINS,
        anti_jitter_thresh: Some(POSE_PID_ANTI_JITTER_THRESH.y),
        output_limits: None,
    },
    PidSettings {
        gain: ANGULAR_POSE_PID_GAINS,
        anti_jitter_thresh: Some(POSE_PID_ANTI_JITTER_THRESH.z),
        output_limits: None,
    },
];

// pos with its heading wrapped to within half a turn of pose's: the PID must not turn the long way.
fn wrapped(pos: Vector3f, pose: Vector3f) -> Vector3f
    ensures { result ≡ wrapped pos pose }
{
    let ahead = pos.z - pose.z;
    let turn = remainder(ahead);
    Vector3f {
        x: pos.x,
        y: pos.y,
        z: pose.z + turn,
    }
}

// Feedforward alone: the feedback's term is zeros, and adding them turns -0.0 into 0.0.
#[tactic(auto, unfolding(linear::specs::Vector::zeros3))]
fn twist_setpoint(traj_vel: Vector3f) -> Vector3f
    ensures { result ≡ twist_setpoint traj_vel }
{
    add(scale(traj_vel, POSE_VEL_FEEDFORWARD_GAIN), ZEROS_3)
}

// Feedback alone: the feedforward's term is zeros.
#[tactic(auto, unfolding(linear::specs::Vector::zeros3))]
fn accel_setpoint(feedback: Vector3f) -> Vector3f
    ensures { result ≡ accel_setpoint feedback }
{
    add(ZEROS_3, scale(feedback, POSE_ACCEL_FEEDBACK_GAIN))
}

impl ControlContext {
    // The setpoints that lead from the estimate to a trajectory's state. The trajectory's acceleration has no
    // part in them: POSE_ACCEL_MODE is feedback alone.
    #[tactic(auto, unfolding(crate::specs::Setpoints::tracking_setpoints))]
    pub(crate) fn calc_tracking_setpoints(&mut self, traj_state: Vector6f) -> ManeuverSetpoints
        ensures { let c = self.old in
            let t = tracking_setpoints c.pose_pid c.state_estimate traj_state (dt_of c.start) in
            (result ≡ t.setpoints) × (self.new ≡ record c { pose_pid = t.pid }) }
    {
        let pose_estimate = self.state_estimate.pose;
        let traj_vel = traj_state.twist;
        let traj_pos = wrapped(traj_state.pose, pose_estimate);
        let twist_error = sub(traj_vel, self.state_estimate.twist);
        let feedback = self.pose_pid.calculate_with_derivative(
            &POSE_PID,
            traj_pos.into(),
            pose_estimate.into(),
            twist_error.into(),
            self.start.tick_length.seconds(),
        );
        ManeuverSetpoints {
            body_twist: twist_setpoint(traj_vel),
            body_accel: accel_setpoint(feedback.into()),
        }
    }
}
