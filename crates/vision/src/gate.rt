//! The gate of `update_state_estimate` in control_context.rs: which sightings are taken (docs/RULES.md, 'The gate').

ghost use Rattle.std.specs.Prelude.{◌≡◌};
ghost use Rattle.vision.specs.Gate.{judged, tracking_judged};

use crate::seeding::Seeding;
use ieee754::hypot::hypot;
use linear::{Vector3f, Vector6f};
use params::{VISION_GATE_BASE_RADIUS_M, VISION_GATE_EXPAND_RATE_M_PER_S};
use tick::action::GateAction;
use tick::start::Start;

/// Gathering sightings until their places are steady, or tracking.
#[derive(Clone, Copy)]
pub enum VisionGateState {
    Seeding(Seeding),
    Tracking {
        /// Seconds since the last sighting that was taken.
        time_since_last_valid_s: f32,
    },
}

impl VisionGateState {
    // A sighting at this distance in metres, for a gate that is tracking since t.
    fn track(&mut self, t: f32, dist: f32, dt: f32) -> GateAction
        ensures { let j = tracking_judged t dist dt in (result ≡ j.action) × (self.new ≡ j.gate) }
    {
        let radius = VISION_GATE_BASE_RADIUS_M + VISION_GATE_EXPAND_RATE_M_PER_S * t;
        if dist < radius {
            *self = VisionGateState::Tracking {
                time_since_last_valid_s: 0.0,
            };
            if dist >= VISION_GATE_BASE_RADIUS_M {
                return GateAction::AcceptJump;
            }
            return GateAction::Accept;
        }
        *self = VisionGateState::Tracking {
            time_since_last_valid_s: t + dt,
        };
        if t == 0.0 {
            return GateAction::FirstReject;
        }
        GateAction::Reject
    }

    /// The judgement of one tick, on the place in metres that was seen and the one predicted.
    /// Without a sighting the radius of a tracking gate grows on.
    #[tactic(auto, unfolding(crate::specs::Gate::judged))]
    pub fn judge(
        &mut self,
        sighting: Option<Vector3f>,
        predicted: Vector6f,
        start: Start,
    ) -> GateAction
        ensures { let j = judged self.old sighting predicted start in (result ≡ j.action) × (self.new ≡ j.gate) }
    {
        let dt = start.tick_length.seconds();
        let Some(v) = sighting else {
            if let VisionGateState::Tracking {
                time_since_last_valid_s,
            } = self
            {
                *time_since_last_valid_s += dt;
            }
            return GateAction::NoVision;
        };
        match self {
            VisionGateState::Seeding(seeding) => {
                let action = seeding.gather(v);
                if action == GateAction::SeedComplete {
                    *self = VisionGateState::Tracking {
                        time_since_last_valid_s: 0.0,
                    };
                }
                action
            }
            VisionGateState::Tracking {
                time_since_last_valid_s,
            } => {
                let t = *time_since_last_valid_s;
                let x = v.x - predicted.pose.x;
                let y = v.y - predicted.pose.y;
                self.track(t, hypot(x, y), dt)
            }
        }
    }
}
