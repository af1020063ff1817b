//! active_brake.rs: each wheel is driven to rest by a P controller on its measured speed.

ghost use Rattle.std.specs.Prelude.{◌≡◌};
ghost use Rattle.tick.specs.Refusal.{number_of};
ghost use Rattle.tick.specs.TickLength.{refusal_of};
ghost use Rattle.controllers.specs.Brake.{new_brake, brake_of, memory_of, computed, reset_brake};

use crate::pid::{PidMemory, PidSettings};
use linear::Vector4f;
use params::{BRAKE_ANTI_JITTER_RADS, BRAKE_KP, BRAKE_MAX_CURRENT_A, PidGains};
use tick::refusal::Refusal;
use tick::tick_length::TickLength;

// Ki and Kd are zero, as in the Rust.
const WHEEL: PidSettings = PidSettings {
    gain: PidGains {
        kp: BRAKE_KP,
        ki: 0.0,
        kd: 0.0,
        ki_err_min: 0.0,
        ki_err_max: 0.0,
    },
    anti_jitter_thresh: Some(BRAKE_ANTI_JITTER_RADS),
    output_limits: Some((-BRAKE_MAX_CURRENT_A, BRAKE_MAX_CURRENT_A)),
};

/// The brake of a tick length, and what it remembers of the four wheels.
#[derive(Clone, Copy)]
pub struct ActiveBrakeController {
    pid: PidMemory<4>,
    tick_length: TickLength,
}

impl ActiveBrakeController {
    #[tactic(auto, unfolding(crate::specs::Brake::new_brake))]
    fn of(tick_length: TickLength) -> ActiveBrakeController
        ensures { result ≡ new_brake tick_length }
    {
        ActiveBrakeController {
            pid: PidMemory::new(),
            tick_length,
        }
    }

    /// A brake for ticks of k/4096 s, or `Refusal::TickLength` where k is not from 1 to 64.
    #[tactic(auto, unfolding(crate::specs::Brake::brake_of))]
    pub fn new(k: u32) -> Result<ActiveBrakeController, Refusal>
        ensures { (result ≡ brake_of k) × (number_of result ≡ refusal_of k) }
    {
        Ok(ActiveBrakeController::of(TickLength::new(k)?))
    }

    /// What it remembers of the wheels.
    pub fn memory(&self) -> PidMemory<4>
        ensures { result ≡ memory_of self.now }
    {
        self.pid
    }

    /// The braking currents in A, one for each wheel, for the measured wheel speeds in rad/s.
    #[tactic(auto, unfolding(crate::specs::Brake::computed, crate::specs::Brake::wheel_settings))]
    pub fn compute(&mut self, wheel_vel_meas: Vector4f) -> Vector4f
        ensures { let a = computed self.old wheel_vel_meas in (result ≡ a.currents) × (self.new ≡ a.controller) }
    {
        let dt_s = self.tick_length.seconds();
        let speeds = wheel_vel_meas.into();
        let currents = self.pid.calculate(&[WHEEL; 4], [0.0; 4], speeds, dt_s);
        currents.into()
    }

    /// Forgets the errors.
    #[tactic(auto, unfolding(crate::specs::Brake::reset_brake))]
    pub fn reset(&mut self)
        ensures { self.new ≡ reset_brake self.old }
    {
        self.pid.reset();
    }
}
