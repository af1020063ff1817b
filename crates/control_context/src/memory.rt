//! What plan and steer remember: the held sample and the previous command.
ghost use Rattle.std.specs.Prelude.{◌≡◌};
ghost use Rattle.control_context.specs.Memory.{empty_memory, after_tracking};

use tick::command::ManeuverCommand;
use tick::sample::Sample;

/// `trajectory` and `prev_cmd` of the Rust's context.
#[derive(Clone, Copy)]
pub struct Memory {
    /// The trajectory, of which a tick sees one sample.
    pub held: Option<Sample>,
    pub prev_cmd: Option<ManeuverCommand>,
}

impl Memory {
    /// Nothing remembered: at the start, and what `reset_trajectory` leaves.
    pub fn empty() -> Memory
        ensures { result ≡ empty_memory }
    {
        Memory {
            held: None,
            prev_cmd: None,
        }
    }

    /// What `run_traj_track` leaves: the sample of the next tick, and the command that was tracked.
    pub fn after_tracking(next: Sample, cmd: ManeuverCommand) -> Memory
        ensures { result ≡ after_tracking next cmd }
    {
        Memory {
            held: Some(next),
            prev_cmd: Some(cmd),
        }
    }
}
