//! The eight outcomes of the gate (docs/RULES.md, 'The gate').
ghost use Rattle.std.specs.Prelude.{◌≡◌};
ghost use Rattle.tick.specs.Outcome.{letter_of, takes, overwrites};

/// What the gate did with a tick's sighting, under the firmware's names. Each has a letter.
#[derive(Clone, Copy, Debug, PartialEq, Eq)]
pub enum GateAction {
    /// Quiet, Q.
    NoVision,
    /// Gathered, G.
    Accumulate,
    /// Complete, C.
    SeedComplete,
    /// Reseeded, S.
    SeedReset,
    /// Taken, T.
    Accept,
    /// Jump, J.
    AcceptJump,
    /// First refusal, F.
    FirstReject,
    /// Refused, R.
    Reject,
}

impl GateAction {
    /// The outcome's letter, in ASCII.
    pub fn letter(self) -> u8
        ensures { result ≡ letter_of self }
    {
        match self {
            GateAction::NoVision => b'Q',
            GateAction::Accumulate => b'G',
            GateAction::SeedComplete => b'C',
            GateAction::SeedReset => b'S',
            GateAction::Accept => b'T',
            GateAction::AcceptJump => b'J',
            GateAction::FirstReject => b'F',
            GateAction::Reject => b'R',
        }
    }

    /// Whether the sighting is taken.
    pub fn takes(self) -> bool
        ensures { result ≡ takes self }
    {
        matches!(
            self,
            GateAction::SeedComplete | GateAction::Accept | GateAction::AcceptJump
        )
    }

    /// Whether the prediction is overwritten, and trajectory, previous command and PID memory dropped.
    pub fn overwrites(self) -> bool
        ensures { result ≡ overwrites self }
    {
        matches!(self, GateAction::SeedComplete | GateAction::AcceptJump)
    }
}
