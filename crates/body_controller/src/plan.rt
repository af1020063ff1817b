//! Plan, the tick's second call: the estimate is set, and what is to be tracked is decided (docs/RULES.md, 'Plan').
ghost use Rattle.std.specs.Prelude.{◌≡◌};
ghost use Rattle.tick.specs.Refusal.{number_of};
ghost use Rattle.body_controller.specs.Plan.{plan_of, plan_refusal};

use crate::{BodyController, Called, Turn};
use control_context::context::Planned;
use control_context::maneuvers::PlanAnswer;
use tick::command::ManeuverCommand;
use tick::inputs::PlanInput;
use tick::refusal::Refusal;

#[tactic(auto, unfolding(crate::specs::Plan::plan_of))]
impl BodyController {
    // An estimator failure closes the tick before plan sets anything.
    fn decide(&mut self, i: PlanInput) -> Result<PlanAnswer, Refusal>
        ensures answer { result ≡ (plan_of self.old i).answer }
        ensures controller { self.new ≡ (plan_of self.old i).controller }
    {
        let Turn::Plan = self.turn else {
            return Err(Refusal::OutOfTurn);
        };
        let cmd = ManeuverCommand::from_words(i.mode, i.words)?;
        if i.estimator_failed {
            self.turn = Turn::Sight;
            return Err(Refusal::EstimatorFailed);
        }
        let answer = self.context.decide(i.mode, i.halt, cmd, i.state_estimate);
        self.turn = Turn::Steer(Planned { answer, cmd });
        Ok(answer)
    }

    /// The decision on the tick's command, over the estimator's new estimate.
    #[tactic(auto, using(crate::proofs::Numbers::plan_numbered))]
    pub fn plan(mut self, i: PlanInput) -> Called<PlanAnswer>
        ensures { (result ≡ plan_of self i) × (number_of result.answer ≡ plan_refusal self i) }
    {
        let answer = self.decide(i);
        Called {
            answer,
            controller: self,
        }
    }
}
