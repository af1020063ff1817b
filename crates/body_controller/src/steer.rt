//! Steer, the tick's third call: tracking and recovery, then stop, the twist's limits and friction (docs/RULES.md,
//! 'Steer').
ghost use Rattle.std.specs.Prelude.{◌≡◌};
ghost use Rattle.tick.specs.Refusal.{number_of};
ghost use Rattle.body_controller.specs.Steer.{limited, steer_of, steer_refusal};

use crate::{BodyController, Called, Turn};
use control_context::friction::friction_twist;
use control_context::limits::{clamp_twist, stop_scaled};
use control_context::tracking::ManeuverSetpoints;
use linear::Vector3f;
use linear::rotation::Rotation;
use tick::inputs::SteerInput;
use tick::refusal::Refusal;

/// What steer leaves to finish.
#[derive(Clone, Copy)]
pub struct Steered {
    /// The tick's setpoints, their twist limited.
    pub setpoints: ManeuverSetpoints,
    /// An entry of the twist is not equal, as a float, to what it was before `clamp`.
    pub vel_clamped: bool,
    /// By the estimate's heading.
    pub heading: Rotation,
}

// The tick's setpoints, their twist scaled down in the stop state and clamped.
fn limit(asked: ManeuverSetpoints, stop: bool, heading: Rotation) -> Steered
    ensures { result ≡ limited asked stop heading }
{
    let clamp = clamp_twist(stop_scaled(stop, asked.body_twist));
    Steered {
        setpoints: ManeuverSetpoints {
            body_twist: clamp.value,
            ..asked
        },
        vel_clamped: clamp.clamped,
        heading,
    }
}

#[tactic(auto, unfolding(crate::specs::Steer::steer_of))]
impl BodyController {
    // A planner failure drops the trajectory and closes the tick; it counts only where a new plan was needed.
    fn track(&mut self, i: SteerInput) -> Result<Vector3f, Refusal>
        ensures answer { result ≡ (steer_of self.old i).answer }
        ensures controller { self.new ≡ (steer_of self.old i).controller }
    {
        let Turn::Steer(planned) = self.turn else {
            return Err(Refusal::OutOfTurn);
        };
        if i.planner_failed & planned.answer.needs_plan() {
            self.context.fail_plan();
            self.turn = Turn::Sight;
            return Err(Refusal::PlannerFailed);
        }
        let asked = self
            .context
            .steer(planned, i.fresh, i.next, i.wheel_vel_meas);
        let steered = limit(asked, i.stop, i.heading);
        self.turn = Turn::Finish(steered);
        Ok(friction_twist(i.heading, self.context.state_estimate, steered.setpoints))
    }

    /// The setpoints that track what plan decided. Answers the twist that the robot model's friction force is to be
    /// asked for, in local axes and gated.
    pub fn steer(mut self, i: SteerInput) -> Called<Vector3f>
        ensures { (result ≡ steer_of self i) × (number_of result.answer ≡ steer_refusal self i) }
    {
        let answer = self.track(i);
        Called {
            answer,
            controller: self,
        }
    }
}
