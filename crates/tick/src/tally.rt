//! What a controller counts: its ticks, and how often each outcome of the gate came.
ghost use Rattle.std.specs.Prelude.{◌≡◌, if◌then◌else◌};
ghost use Rattle.tick.specs.Tally.{IsTally, no_totals, counted, is_full};

use crate::action::GateAction;
use std::marker::Model;

/// How often each outcome came, in the order of the outcomes.
#[derive(Clone, Copy, Debug, PartialEq, Eq)]
pub struct Counts {
    pub quiet: u32,
    pub gathered: u32,
    pub complete: u32,
    pub reseeded: u32,
    pub taken: u32,
    pub jump: u32,
    pub first: u32,
    pub refused: u32,
}

/// The ticks and the outcomes of them.
#[derive(Clone, Copy, Debug, PartialEq, Eq)]
pub struct Totals {
    pub ticks: u32,
    pub counts: Counts,
}

/// The most ticks that a controller counts, 2^24.
pub const TICK_LIMIT: u32 = 16_777_216;

/// Totals that grow by one outcome a tick, up to `TICK_LIMIT`. By the type the counts add up to the ticks.
#[derive(Clone, Copy, Debug, PartialEq, Eq)]
pub struct Tally {
    totals: Totals,
}

impl Model for Tally {
    ghost use Rattle.tick.specs.declared.tally.Totals.{Totals};

    ghost Value = { Totals };

    ghost use Rattle.tick.specs.Tally.{IsTally};

    ghost view = { λ t. t.totals };

    ghost invariant = { λ t. IsTally t.totals };

    ghost inverse = { λ totals. record { totals = totals } };
}

impl Tally {
    /// Nothing counted yet.
    pub fn new() -> Tally
        ensures { result ≡ no_totals }
    {
        Tally {
            totals: Totals {
                ticks: 0,
                counts: Counts {
                    quiet: 0,
                    gathered: 0,
                    complete: 0,
                    reseeded: 0,
                    taken: 0,
                    jump: 0,
                    first: 0,
                    refused: 0,
                },
            },
        }
    }

    /// Whether `TICK_LIMIT` ticks are counted.
    pub fn is_full(&self) -> bool
        ensures { result ≡ is_full self.now }
    {
        self.totals.ticks >= TICK_LIMIT
    }

    /// Counts one tick and its outcome. A full tally stays as it is.
    pub fn count(&mut self, action: GateAction)
        ensures { self.new ≡ (if is_full self.old then self.old else counted self.old action) }
    {
        if self.is_full() {
            return;
        }
        self.totals.ticks += 1;
        match action {
            GateAction::NoVision => self.totals.counts.quiet += 1,
            GateAction::Accumulate => self.totals.counts.gathered += 1,
            GateAction::SeedComplete => self.totals.counts.complete += 1,
            GateAction::SeedReset => self.totals.counts.reseeded += 1,
            GateAction::Accept => self.totals.counts.taken += 1,
            GateAction::AcceptJump => self.totals.counts.jump += 1,
            GateAction::FirstReject => self.totals.counts.first += 1,
            GateAction::Reject => self.totals.counts.refused += 1,
        }
    }

    /// What was counted.
    pub fn totals(&self) -> Totals
        ensures value { result ≡ self.now }
        ensures valid { IsTally self.now }
    {
        self.totals
    }
}
