//! A block's words, and the pass after it.
use crate::calls::sight;
use crate::state::put_state;
use body_controller::BodyController;
use tick::refusal::Refusal;
use tick::start::Start;
use tick_block::layout::NUMBER;
use tick_block::order::order_tested;
use tick_block::tests::block_tested;
use tick_block::words::word_at;

// Word 1 of a refused block, behind the eight outcomes.
const REFUSED: u32 = 8;

// The controller that is to run a block, if it comes in order: a pass's first block makes it.
fn controller_for(pass: &Option<BodyController>, block: &[u8]) -> Result<BodyController, Refusal> {
    let tick_length = block_tested(block)?;
    let c = match pass {
        None => BodyController::start(Start { tick_length }),
        Some(c) => *c,
    };
    let next = c.totals().ticks;
    order_tested(tick_length, c.tick_length(), word_at(block, NUMBER), next)?;
    Ok(c)
}

// The tick of a block that is not refused, with the words of its calls.
fn run_tick(
    pass: &Option<BodyController>,
    block: &[u8],
    words: &mut [u32; 96],
) -> Result<BodyController, Refusal> {
    // By `?` the checker finds no proof.
    match controller_for(pass, block) {
        Ok(c) => sight(c, block, words),
        Err(refusal) => Err(refusal),
    }
}

// A refused block has the number that its tick would have had, and the state that a reset call then gives. It ends its
// pass.
pub(crate) fn run_block(pass: &mut Option<BodyController>, block: &[u8], words: &mut [u32; 96]) {
    if let Some(c) = pass {
        words[0] = c.totals().ticks;
    }
    match run_tick(pass, block, words) {
        Ok(c) => {
            put_state(words, &c);
            *pass = Some(c);
        }
        Err(refusal) => {
            words[1] = REFUSED;
            words[2] = refusal.number() as u32;
            if let Some(c) = pass {
                put_state(words, &c.reset());
            }
            *pass = None;
        }
    }
}
