//! The vision gate and the vision clock, a tick at a time: the part of `update_state_estimate` in
//! control_context.rs that decides which sightings count, and for how long after one the cameras are active.
#![tactic(auto)]

pub mod gate; // gate.rt: which sightings are taken
pub mod laws; // laws.rt: what is proved of gate and clock over ticks
pub mod seeding; // seeding.rt: what a seeding gathers

ghost use Rattle.std.specs.Prelude.{◌≡◌};
ghost use Rattle.vision.specs.Vision.{active, clock_after, new_vision, vision_after};

use crate::gate::VisionGateState;
use crate::seeding::Seeding;
use linear::{Vector3f, Vector6f};
use params::{VISION_ACTIVE_TIMEOUT_S, VISION_CLOCK_START_S};
use tick::action::GateAction;
use tick::start::Start;

/// The gate and the vision clock together.
#[derive(Clone, Copy)]
pub struct Vision {
    pub gate: VisionGateState,
    /// The vision clock, in seconds.
    pub time_since_vision_update_s: f32,
}

// The vision clock after a tick; beyond the timeout it stands still.
fn clock_after(clock: f32, taken: bool, dt: f32) -> f32
    ensures { result ≡ clock_after clock taken dt }
{
    if taken {
        return 0.0;
    }
    if clock <= VISION_ACTIVE_TIMEOUT_S {
        return clock + dt;
    }
    clock
}

impl Vision {
    /// At the start, and after a reset: a fresh seeding, and a clock beyond the timeout.
    pub fn new() -> Vision
        ensures { result ≡ new_vision }
    {
        Vision {
            gate: VisionGateState::Seeding(Seeding::fresh()),
            time_since_vision_update_s: VISION_CLOCK_START_S,
        }
    }

    /// `vision_active`: the cameras are active.
    pub fn vision_active(&self) -> bool
        ensures { result ≡ active self.now.time_since_vision_update_s }
    {
        self.time_since_vision_update_s <= VISION_ACTIVE_TIMEOUT_S
    }

    /// One tick: the gate judges, and the clock moves.
    #[tactic(auto, unfolding(crate::specs::Vision::vision_after))]
    pub fn update(
        &mut self,
        sighting: Option<Vector3f>,
        predicted: Vector6f,
        start: Start,
    ) -> GateAction
        ensures { let a = vision_after self.old sighting predicted start in
            (result ≡ a.action) × (self.new ≡ a.vision) }
    {
        let dt = start.tick_length.seconds();
        let action = self.gate.judge(sighting, predicted, start);
        self.time_since_vision_update_s = clock_after(
            self.time_since_vision_update_s,
            action.takes(),
            dt,
        );
        action
    }
}
