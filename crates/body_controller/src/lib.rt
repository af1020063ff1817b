//! `BodyController` of body_controller.rs, by value. The Rust's one `control_update` is cut in four calls, sight, plan,
//! steer and finish, in this order, so that estimator and planners answer between them; reset may come at any turn
//! (docs/RULES.md, 'The five calls'). Each call takes the controller and hands it back beside its answer.
#![tactic(auto)]

pub mod finish; // finish.rt: the outputs
pub mod plan; // plan.rt: the estimate and the decision
pub mod sight; // sight.rt: the gate
pub mod steer; // steer.rt: tracking, recovery, stop, the twist's limits and friction

ghost use Rattle.std.specs.Prelude.{◌≡◌};
ghost use Rattle.tick.specs.Refusal.{number_of};
ghost use Rattle.tick.specs.TickLength.{refusal_of};
ghost use Rattle.tick.specs.Outputs.{no_outputs};
ghost use Rattle.vision.specs.Vision.{active};
ghost use Rattle.control_context.specs.Divergence.{is_recovering};
ghost use Rattle.body_controller.specs.Controller.{started, new_of, reset_of};

use crate::steer::Steered;
use control_context::context::{ControlContext, Planned};
use linear::ZEROS_6;
use tick::outputs::{NO_OUTPUTS, Outputs};
use tick::refusal::Refusal;
use tick::start::Start;
use tick::tally::{Tally, Totals};
use tick::tick_length::TickLength;

/// Which of the tick's four calls is next, with what the call before left to it.
#[derive(Clone, Copy)]
pub enum Turn {
    Sight,
    Plan,
    Steer(Planned),
    Finish(Steered),
}

/// The controller between two calls.
#[derive(Clone, Copy)]
pub struct BodyController {
    context: ControlContext,
    turn: Turn,
    outputs: Outputs,
    tally: Tally,
}

/// A call's answer, or why it was refused, beside the controller as the call leaves it.
#[derive(Clone, Copy)]
pub struct Called<A> {
    pub answer: Result<A, Refusal>,
    pub controller: BodyController,
}

#[tactic(auto, unfolding(tick::specs::Outputs::no_outputs, linear::specs::Vector::zeros3, linear::specs::Vector::zeros4))]
fn no_outputs() -> Outputs
    ensures { result ≡ no_outputs }
{
    NO_OUTPUTS
}

impl BodyController {
    /// A controller that has seen and counted nothing, at sight's turn.
    #[tactic(auto, unfolding(linear::specs::Vector::zeros3, linear::specs::Vector::zeros6))]
    pub fn start(start: Start) -> BodyController
        ensures { result ≡ started start }
    {
        BodyController {
            context: ControlContext::new(start, ZEROS_6),
            turn: Turn::Sight,
            outputs: no_outputs(),
            tally: Tally::new(),
        }
    }

    /// A controller whose ticks take k/4096 s, or `Refusal::TickLength` where k is not from 1 to 64.
    pub fn new(k: u32) -> Result<BodyController, Refusal>
        ensures { (result ≡ new_of k) × (number_of result ≡ refusal_of k) }
    {
        Ok(BodyController::start(Start::new(k)?))
    }

    /// `reset`, accepted at any turn. Ticks, counts and estimate stay.
    #[tactic(auto, unfolding(crate::specs::Controller::reset_of))]
    pub fn reset(self) -> BodyController
        ensures { result ≡ reset_of self }
    {
        let mut reset = BodyController::start(self.context.start);
        reset.context.state_estimate = self.context.state_estimate;
        reset.tally = self.tally;
        reset
    }

    /// How long the controller's ticks last.
    pub fn tick_length(&self) -> TickLength
        ensures { result ≡ self.now.context.start.tick_length }
    {
        self.context.start.tick_length
    }

    /// The ticks so far, of which the next tick's number is the count, and the outcomes of them.
    pub fn totals(&self) -> Totals
        ensures { result ≡ self.now.tally }
    {
        self.tally.totals()
    }

    /// The cameras are active.
    pub fn vision_active(&self) -> bool
        ensures { result ≡ active self.now.context.vision.time_since_vision_update_s }
    {
        self.context.vision.vision_active()
    }

    /// A large tracking error was seen, and the wheels have not come to rest since.
    pub fn tracking_divergence_recovery_active(&self) -> bool
        ensures { result ≡ is_recovering self.now.context.divergence }
    {
        self.context.divergence.recovering()
    }

    /// What the calls keep from tick to tick.
    pub fn context(&self) -> &ControlContext
        ensures { result.now ≡ self.now.context }
    {
        &self.context
    }

    /// Those of the last finish call; zero at the start and after a reset call.
    pub fn outputs(&self) -> Outputs
        ensures { result ≡ self.now.outputs }
    {
        self.outputs
    }
}
