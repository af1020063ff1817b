//! Sight, the tick's first call: what becomes of the sighting (docs/RULES.md, 'Sight').
ghost use Rattle.std.specs.Prelude.{◌≡◌};
ghost use Rattle.tick.specs.Refusal.{number_of};
ghost use Rattle.body_controller.specs.Sight.{velocity_of, predicted_after, sight_answer, sight_of, sight_refusal};

use crate::{BodyController, Called, Turn};
use linear::{Vector3f, Vector4f, Vector6f};
use tick::action::GateAction;
use tick::inputs::SightInput;
use tick::refusal::Refusal;

/// The estimator's eight numbers.
#[derive(Clone, Copy)]
pub struct Measurement {
    pub vision_pose: Vector3f,
    pub wheel_vel: Vector4f,
    pub gyro_theta: f32,
}

/// What sight answers, for the estimator.
#[derive(Clone, Copy)]
pub struct Sighted {
    pub action: GateAction,
    /// Handed on whether vision counts or not.
    pub measurement: Measurement,
    /// `effective_vision_update`: the sighting was taken, so that vision counts.
    pub effective_vision_update: bool,
    /// After any overwriting.
    pub state_prediction: Vector6f,
}

// `vel_seed`: the velocity that wheels and gyro measure.
fn vel_seed(i: SightInput) -> Vector3f
    ensures { result ≡ velocity_of i }
{
    let mut seed = Vector3f::from(i.wheel2twist.mul(i.wheel_vel_meas.into()));
    seed.z = i.imu_gyro_theta_meas;
    seed
}

// Pose and velocity as measured where the outcome overwrites, else the prediction.
fn predict_after(action: GateAction, i: SightInput) -> Vector6f
    ensures { result ≡ predicted_after action i }
{
    if action.overwrites() {
        Vector6f {
            pose: i.vision_pose_meas,
            twist: vel_seed(i),
        }
    } else {
        i.predicted_state
    }
}

fn sight_answer(action: GateAction, i: SightInput) -> Sighted
    ensures { result ≡ sight_answer action i }
{
    Sighted {
        action,
        measurement: Measurement {
            vision_pose: i.vision_pose_meas,
            wheel_vel: i.wheel_vel_meas,
            gyro_theta: i.imu_gyro_theta_meas,
        },
        effective_vision_update: action.takes(),
        state_prediction: predict_after(action, i),
    }
}

#[tactic(auto, unfolding(crate::specs::Sight::sight_of))]
impl BodyController {
    fn see(&mut self, i: SightInput) -> Result<Sighted, Refusal>
        ensures answer { result ≡ (sight_of self.old i).answer }
        ensures controller { self.new ≡ (sight_of self.old i).controller }
    {
        let Turn::Sight = self.turn else {
            return Err(Refusal::OutOfTurn);
        };
        if self.tally.is_full() {
            return Err(Refusal::TickLimit);
        }
        let sighting = i.vision_update.then_some(i.vision_pose_meas);
        let action = self.context.update_vision(sighting, i.predicted_state);
        self.tally.count(action);
        self.turn = Turn::Plan;
        Ok(sight_answer(action, i))
    }

    /// The gate's judgement of the tick's sighting, which begins the tick.
    pub fn sight(mut self, i: SightInput) -> Called<Sighted>
        ensures { (result ≡ sight_of self i) × (number_of result.answer ≡ sight_refusal self) }
    {
        let answer = self.see(i);
        Called {
            answer,
            controller: self,
        }
    }
}
