//! A tick block: 512 bytes with everything that the four calls of one tick take (docs/RULES.md, 'The tick block').
//! Bytes of any length may be lent: they are read as a tick block, or refused.
#![tactic(auto)]

pub mod check; // check.rt: the check, and what must be zero
pub mod flags; // flags.rt: the five flags
pub mod floats; // floats.rt: words read as floats, one by one and by arrays
pub mod inputs; // inputs.rt: what the four calls take
pub mod layout; // layout.rt: where each word lies
pub mod order; // order.rt: whether a block comes in order
pub mod tests; // tests.rt: whether bytes are a tick block
pub mod words; // words.rt: words read and written

ghost use Rattle.std.specs.Prelude.{◌≡◌};
ghost use Rattle.tick.specs.Refusal.{number_of};
ghost use Rattle.tick_block.specs.Block.{tick_block, block_read, block_refusal};

use crate::inputs::tick_input;
use crate::layout::{BLOCK_BYTES, NUMBER};
use crate::tests::block_tested;
use crate::words::word_at;
use tick::inputs::TickInput;
use tick::refusal::Refusal;
use tick::tick_length::TickLength;

/// What an accepted block says.
#[derive(Clone, Copy)]
pub struct TickBlock {
    /// The tick's number in its pass, from 0.
    pub number: u32,
    pub tick_length: TickLength,
    pub inputs: TickInput,
}

impl TickBlock {
    // What a block that has passed the tests says.
    #[tactic(auto, unfolding(crate::specs::Block::tick_block))]
    fn new(block: &[u8], tick_length: TickLength) -> TickBlock
        ensures { result ≡ tick_block block.now tick_length }
    {
        TickBlock {
            number: word_at(block, NUMBER),
            tick_length,
            inputs: tick_input(block),
        }
    }

    // An array, so that no read asks again whether the block has the word: a quarter less time.
    #[tactic(auto, unfolding(crate::specs::Block::block_read, crate::specs::Tests::block_tested))]
    fn tested(block: &[u8]) -> Result<TickBlock, Refusal>
        ensures { result ≡ block_read block.now }
    {
        let Ok(block) = <&[u8; BLOCK_BYTES]>::try_from(block) else {
            return Err(Refusal::Length);
        };
        let tick_length = block_tested(block)?;
        Ok(TickBlock::new(block, tick_length))
    }

    /// What the bytes say as a tick block, or the first refusal that applies.
    #[tactic(auto, using(crate::proofs::Refusal::numbered))]
    pub fn read(block: &[u8]) -> Result<TickBlock, Refusal>
        ensures { (result ≡ block_read block.now) × (number_of result ≡ block_refusal block.now) }
    {
        TickBlock::tested(block)
    }
}
