//! The lists of the PID controllers of one, three and four axes.
ghost use Rattle.std.specs.Prelude.{◌≡◌, ◌<◌, ◌≤◌};
ghost use Rattle.replay_lists.specs.Pids.{gains_at, thresh_at, limits_at, settings_at, pid_of, answer, stepped};

use crate::runs::words::words_of;
use controllers::pid::{PidMemory, PidSettings};
use params::PidGains;
use std::array;
use tick_block::floats::{float_at, floats_at};
use tick_block::words::word_at;

// The controller of a run.
#[derive(Clone, Copy)]
pub(crate) struct Pid<const N: usize> {
    settings: [PidSettings; N],
    memory: PidMemory<N>,
}

// A header has the number of calls; the gains, axis by axis; whether there is a threshold, and one
// for each axis; whether there are limits, the low ones and the high ones.
#[tactic(auto, unfolding(crate::specs::Pids::gains_at))]
fn gains_at(header: &[u8], i: u8) -> PidGains
    ensures { result ≡ gains_at header.now i }
{
    let at = 1 + 5 * (i as usize);
    PidGains {
        kp: float_at(header, at),
        ki: float_at(header, at + 1),
        kd: float_at(header, at + 2),
        ki_err_min: float_at(header, at + 3),
        ki_err_max: float_at(header, at + 4),
    }
}

#[tactic(auto, unfolding(crate::specs::Pids::thresh_at))]
fn thresh_at(header: &[u8], n: u8, i: u8) -> Option<f32>
    ensures { result ≡ thresh_at header.now n i }
{
    let at = 1 + 5 * (n as usize);
    (word_at(header, at) == 1).then_some(float_at(header, at + 1 + (i as usize)))
}

#[tactic(auto, unfolding(crate::specs::Pids::limits_at))]
fn limits_at(header: &[u8], n: u8, i: u8) -> Option<(f32, f32)>
    ensures { result ≡ limits_at header.now n i }
{
    let n = n as usize;
    let at = 2 + 6 * n;
    let lo = float_at(header, at + 1 + (i as usize));
    let hi = float_at(header, at + 1 + n + (i as usize));
    (word_at(header, at) == 1).then_some((lo, hi))
}

// The settings of axis i of n.
#[tactic(auto, unfolding(crate::specs::Pids::settings_at))]
fn settings_at(header: &[u8], n: u8, i: u8) -> PidSettings
    ensures { result ≡ settings_at header.now n i }
{
    PidSettings {
        gain: gains_at(header, i),
        anti_jitter_thresh: thresh_at(header, n, i),
        output_limits: limits_at(header, n, i),
    }
}

// Four axes at most, here and below: so many fit a record.
impl<const N: usize> Pid<N> {
    // The controller that a header describes, with nothing remembered.
    pub(crate) fn of(header: &[u8]) -> Pid<N>
        requires { N ≤ 4 }
        ensures { result ≡ pid_of header.now }
    {
        let settings = array::from_fn(
            |i: usize| -> PidSettings
                requires { (N ≤ 4) × (i < 4) }
                ensures { result ≡ settings_at header.entry.now N i }
            { settings_at(header, N as u8, i as u8) },
        );
        Pid {
            settings,
            memory: PidMemory::new(),
        }
    }

    // A call has its kind, setpoint, process variable, derivative and dt, and then what is compared.
    // The last kind is reset, whose output is wanted as 0.
    #[tactic(auto, unfolding(crate::specs::Pids::answer))]
    fn answer(&mut self, call: &[u8]) -> [f32; N]
        requires { N ≤ 4 }
        ensures { let a = answer self.old call.now in
            (result ≡ a.output) × (self.new ≡ record self.old { memory = a.memory }) }
    {
        let setpoint = floats_at(call, 1);
        let process = floats_at(call, 1 + N);
        let derivative = floats_at(call, 1 + 2 * N);
        let dt = float_at(call, 1 + 3 * N);
        match word_at(call, 0) {
            0 => self.memory.calculate(&self.settings, setpoint, process, dt),
            1 => self
                .memory
                .calculate_with_derivative(&self.settings, setpoint, process, derivative, dt),
            _ => {
                self.memory.reset();
                [0.0; N]
            }
        }
    }

    // The words after a call.
    #[tactic(auto, unfolding(crate::specs::Pids::stepped))]
    pub(crate) fn step(&mut self, call: &[u8]) -> [u32; 12]
        requires { N ≤ 4 }
        ensures { let told = stepped self.old call.now in
            (result ≡ told.words) × (self.new ≡ told.controller) }
    {
        let output = self.answer(call);
        words_of(output, self.memory)
    }
}
