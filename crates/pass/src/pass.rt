//! A pass, and a block driven in it.
ghost use Rattle.std.specs.Prelude.{◌≡◌, MatchResult, Ok, Err};
ghost use Rattle.pass.specs.Pass.{driven, driver_of, next_number, taken, totals_of};
ghost use Rattle.pass.specs.declared.pass.Pass.TheVariants.{Driving};

use crate::calls::drive_tick;
use body_controller::BodyController;
use line_text::line::{Line, RefusedLine, TickLine};
use tick::refusal::Refusal;
use tick::start::Start;
use tick::tally::{Tally, Totals};
use tick_block::TickBlock;
use tick_block::order::order_tested;

/// Before its first accepted block a pass has no controller: that block's tick length makes it.
#[derive(Clone, Copy)]
pub enum Pass {
    Empty,
    Driving(BodyController),
}

impl Pass {
    /// The ticks so far, of which the next tick's number is the count, and the outcomes of them.
    pub fn totals(&self) -> Totals
        ensures { result ≡ totals_of self.now }
    {
        match self {
            Pass::Empty => Tally::new().totals(),
            Pass::Driving(c) => c.totals(),
        }
    }

    /// The number that the next tick has, or would have.
    pub fn next_number(&self) -> u32
        ensures { result ≡ next_number self.now }
    {
        self.totals().ticks
    }

    // The controller that is to drive a block.
    fn driver_of(&self, b: &TickBlock) -> Result<BodyController, Refusal>
        ensures { result ≡ driver_of self.now b.now }
    {
        match self {
            Pass::Empty if b.number != 0 => Err(Refusal::Order),
            Pass::Empty => Ok(BodyController::start(Start {
                tick_length: b.tick_length,
            })),
            Pass::Driving(c) => {
                order_tested(b.tick_length, c.tick_length(), b.number, c.totals().ticks)?;
                Ok(*c)
            }
        }
    }

    // Drives a block, or answers why it is refused: then the pass stays as it is.
    fn take(&mut self, block: &[u8]) -> Result<TickLine, Refusal>
        ensures { MatchResult (taken self.old block.now)
            (λ t. (result ≡ Ok t.line) × (self.new ≡ Driving t.controller))
            (λ r. (result ≡ Err r) × (self.new ≡ self.old)) }
    {
        let b = TickBlock::read(block)?;
        let mut c = self.driver_of(&b)?;
        let line = drive_tick(&mut c, &b.inputs)?;
        *self = Pass::Driving(c);
        Ok(line)
    }

    /// Drives a block, and answers its line. A refused block leaves the pass as it is.
    pub fn drive(&mut self, block: &[u8]) -> Line
        ensures { let d = driven self.old block.now in (result ≡ d.line) × (self.new ≡ d.pass) }
    {
        match self.take(block) {
            Ok(line) => Line::Tick(line),
            Err(refusal) => Line::Refused(RefusedLine {
                number: self.next_number(),
                refusal,
            }),
        }
    }
}
