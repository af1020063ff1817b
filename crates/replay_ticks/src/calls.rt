//! A tick's four calls, with the words of their answers, up to the first call that is turned away, whose refusal is
//! word 2.
use crate::answers::{put_finish, put_plan, put_sight, put_steer};
use body_controller::{BodyController, Called};
use tick::refusal::Refusal;
use tick_block::inputs::{finish_input, plan_input, sight_input, steer_input};

// A block that sight turns away is refused.
pub(crate) fn sight(
    c: BodyController,
    block: &[u8],
    words: &mut [u32; 96],
) -> Result<BodyController, Refusal> {
    let Called { answer, controller } = c.sight(sight_input(block));
    put_sight(words, answer?);
    Ok(plan(controller, block, words))
}

// Word 18 of a plan that was turned away is 4, behind plan's four answers.
fn plan(c: BodyController, block: &[u8], words: &mut [u32; 96]) -> BodyController {
    let Called { answer, controller } = c.plan(plan_input(block));
    match answer {
        Ok(planned) => {
            put_plan(words, planned);
            steer(controller, block, words)
        }
        Err(refusal) => {
            words[2] = refusal.number() as u32;
            words[18] = 4;
            controller
        }
    }
}

fn steer(c: BodyController, block: &[u8], words: &mut [u32; 96]) -> BodyController {
    let Called { answer, controller } = c.steer(steer_input(block));
    match answer {
        Ok(twist) => {
            put_steer(words, twist);
            finish(controller, block, words)
        }
        Err(refusal) => {
            words[2] = refusal.number() as u32;
            controller
        }
    }
}

// Finish is turned away behind another call alone, and is not made there.
fn finish(c: BodyController, block: &[u8], words: &mut [u32; 96]) -> BodyController {
    let Called { answer, controller } = c.finish(finish_input(block));
    if let Ok(finished) = answer {
        put_finish(words, finished);
    }
    controller
}
