//! Why a call or a block is refused (docs/RULES.md, 'Refusals').
ghost use Rattle.std.specs.Prelude.{◌≡◌};
ghost use Rattle.tick.specs.Refusal.{refusal_number};

use std::error::Error;
use std::fmt;

/// Why a call or a block is refused. Printed, it is a sentence without a full stop.
#[derive(Clone, Copy, Debug, PartialEq, Eq)]
pub enum Refusal {
    /// The tick length k is not from 1 to 64.
    TickLength = 1,
    /// The call comes out of turn.
    OutOfTurn = 2,
    /// Sight after 16,777,216 ticks.
    TickLimit = 3,
    /// The mode is not from 0 to 3.
    Mode = 4,
    /// The block is not 512 bytes.
    Length = 5,
    /// The block's check differs.
    Check = 6,
    /// The block's version is not 1.
    Version = 7,
    /// The block's flags are 32 or more, or a spare word is not zero.
    Spare = 8,
    /// The block's tick length is not its pass's.
    OtherTickLength = 9,
    /// The block's tick number is not the pass's next.
    Order = 10,
    /// The estimator's mark is set.
    EstimatorFailed = 11,
    /// The planner's mark is set where a new plan is needed.
    PlannerFailed = 12,
}

impl Refusal {
    /// The refusal's number, 1 to 12.
    pub fn number(self) -> u8
        ensures { result ≡ refusal_number self }
    {
        self as u8
    }
}

impl fmt::Display for Refusal {
    ghost use Rattle.std.specs.Prelude.{Some};
    ghost use Rattle.tick.specs.RefusalText.{sentence_of};

    ghost output = { λ refusal. Some (sentence_of refusal) };

    fn fmt<W: fmt::Write>(&self, f: &mut fmt::Formatter<W>) -> fmt::Result {
        f.write_str(match self {
            Refusal::TickLength => "the tick length is not from 1 to 64",
            Refusal::OutOfTurn => "the call is out of turn",
            Refusal::TickLimit => "the controller has had 16777216 ticks, its limit",
            Refusal::Mode => "the mode is not from 0 to 3",
            Refusal::Length => "the block is not 512 bytes long",
            Refusal::Check => "the block's check does not match its words",
            Refusal::Version => "the block's version is not 1",
            Refusal::Spare => "the block's flags are not below 32, or a spare word is not zero",
            Refusal::OtherTickLength => "the block's tick length is not its pass's",
            Refusal::Order => "the block's tick number is not the next",
            Refusal::EstimatorFailed => "the estimator failed",
            Refusal::PlannerFailed => "the planner failed",
        })
    }
}

impl Error for Refusal {}
