//! The tests that bytes pass before they are read as a tick block, in their order.

ghost use Rattle.std.specs.Prelude.{◌≡◌};
ghost use Rattle.tick_block.specs.Tests.{block_tested};

use crate::check::{check_of, is_spare_zero};
use crate::layout::{BLOCK_BYTES, CHECK, MODE, TICK_LENGTH, VERSION};
use crate::words::word_at;
use tick::mode::is_mode;
use tick::refusal::Refusal;
use tick::tick_length::TickLength;

/// The tick length of a block that passes every test, or the first refusal that applies: of its length, its check,
/// its version, its spare words, its tick length and its mode.
#[tactic(auto, unfolding(crate::specs::Tests::block_tested, tick::specs::TickLength::tick_length_of))]
pub fn block_tested(block: &[u8]) -> Result<TickLength, Refusal>
    ensures { result ≡ block_tested block.now }
{
    if block.len() != BLOCK_BYTES {
        return Err(Refusal::Length);
    }
    if word_at(block, CHECK) != check_of(block) {
        return Err(Refusal::Check);
    }
    if word_at(block, VERSION) != 1 {
        return Err(Refusal::Version);
    }
    if !is_spare_zero(block) {
        return Err(Refusal::Spare);
    }
    let tick_length = TickLength::new(word_at(block, TICK_LENGTH))?;
    if !is_mode(word_at(block, MODE)) {
        return Err(Refusal::Mode);
    }
    Ok(tick_length)
}
