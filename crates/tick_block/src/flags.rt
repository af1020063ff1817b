//! The flags of a block.

ghost use Rattle.std.specs.Prelude.{◌≡◌};
ghost use Rattle.tick_block.specs.Flags.{flag_at, bit_of};

use crate::layout::FLAGS;
use crate::words::word_at;

/// In the order of their bits, from bit 0 up.
#[derive(Clone, Copy, Debug, PartialEq, Eq)]
pub enum Flag {
    /// There is a sighting.
    Seen,
    Halt,
    Stop,
    EstimatorFailed,
    PlannerFailed,
}

impl Flag {
    /// Whether the flag's bit is set in the flags' word.
    pub fn is_set(self, block: &[u8]) -> bool
        ensures { result ≡ flag_at block.now (bit_of self) }
    {
        (word_at(block, FLAGS) >> (self as u32)) % 2 == 1
    }
}
