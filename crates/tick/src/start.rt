//! What is chosen once, when a controller starts. The word is ours: the firmware passes these choices one by one.
ghost use Rattle.std.specs.Prelude.{◌≡◌};
ghost use Rattle.tick.specs.Refusal.{number_of};
ghost use Rattle.tick.specs.TickLength.{refusal_of};
ghost use Rattle.tick.specs.Start.{start_of};

use crate::refusal::Refusal;
use crate::tick_length::TickLength;

/// The choices of a controller's start. Each field is valid by its type.
#[derive(Clone, Copy, Debug, PartialEq, Eq)]
pub struct Start {
    pub tick_length: TickLength,
}

impl Start {
    /// A start with ticks of k/4096 s, or `Refusal::TickLength` where k is not from 1 to 64.
    pub fn new(k: u32) -> Result<Start, Refusal>
        ensures { (result ≡ start_of k) × (number_of result ≡ refusal_of k) }
    {
        Ok(Start {
            tick_length: TickLength::new(k)?,
        })
    }
}
