//! Finish, the tick's last call: from setpoints and friction force to wheel speeds and torques (docs/RULES.md,
//! 'Finish').
ghost use Rattle.std.specs.Prelude.{◌≡◌};
ghost use Rattle.tick.specs.Refusal.{number_of};
ghost use Rattle.body_controller.specs.Finish.{friction_compensated, finished_by, finish_of, finish_refusal};

use crate::steer::Steered;
use crate::{BodyController, Called, Turn};
use control_context::limits::clamp_accel;
use linear::Vector3f;
use linear::vectors::sub;
use tick::inputs::FinishInput;
use tick::outputs::Outputs;
use tick::refusal::Refusal;

/// What finish answers.
#[derive(Clone, Copy)]
pub struct Finished {
    pub outputs: Outputs,
    /// An entry of the twist is not equal, as a float, to what it was before `clamp`.
    pub vel_clamped: bool,
    /// An entry of the acceleration is not equal, as a float, to what it was before `clamp`.
    pub accel_clamped: bool,
    pub wheels_disabled: bool,
}

// `body_accel_fric_comp`: the acceleration less what the friction force, given in local axes, will take.
fn friction_compensated(s: Steered, i: FinishInput) -> Vector3f
    ensures { result ≡ friction_compensated s i }
{
    let friction_force_global = s.heading.to_global(i.friction_force_local);
    sub(
        s.setpoints.body_accel,
        i.i_inv.mul(friction_force_global.into()).into(),
    )
}

// The outputs that steer's setpoints give, and the marks.
fn finish_by(s: Steered, i: FinishInput, wheels_disabled: bool) -> Finished
    ensures { result ≡ finished_by s i wheels_disabled }
{
    let accel = friction_compensated(s, i);
    let clamp = clamp_accel(accel);
    Finished {
        outputs: Outputs {
            body_twist_out: s.setpoints.body_twist,
            body_accel_out: s.setpoints.body_accel,
            body_accel_out_fric_comp: clamp.value,
            wheel_vel_out: i.twist2wheel.mul(s.setpoints.body_twist.into()).into(),
            wheel_torque_out: i.accel2wheel.mul(clamp.value.into()).into(),
        },
        vel_clamped: s.vel_clamped,
        accel_clamped: clamp.clamped,
        wheels_disabled,
    }
}

#[tactic(auto, unfolding(crate::specs::Finish::finish_of))]
impl BodyController {
    fn put_out(&mut self, i: FinishInput) -> Result<Finished, Refusal>
        ensures answer { result ≡ (finish_of self.old i).answer }
        ensures controller { self.new ≡ (finish_of self.old i).controller }
    {
        let Turn::Finish(steered) = self.turn else {
            return Err(Refusal::OutOfTurn);
        };
        let finished = finish_by(steered, i, self.context.wheels_disabled);
        self.outputs = finished.outputs;
        self.turn = Turn::Sight;
        Ok(finished)
    }

    /// The tick's outputs, which ends the tick.
    pub fn finish(mut self, i: FinishInput) -> Called<Finished>
        ensures { (result ≡ finish_of self i) × (number_of result.answer ≡ finish_refusal self) }
    {
        let answer = self.put_out(i);
        Called {
            answer,
            controller: self,
        }
    }
}
