//! The list of the active brake.
ghost use Rattle.std.specs.Prelude.{◌≡◌};
ghost use Rattle.replay_lists.specs.Brake.{answer, stepped};

use crate::runs::words::words_of;
use controllers::active_brake::ActiveBrakeController;
use linear::{Vector4f, ZEROS_4};
use tick_block::floats::floats_at;
use tick_block::words::word_at;

// A call has its kind and the wheel speeds, and then what is compared. The last kind is reset, whose
// currents are wanted as 0.
#[tactic(auto, unfolding(crate::specs::Brake::answer, linear::specs::Vector::zeros4))]
fn answer(brake: &mut ActiveBrakeController, call: &[u8]) -> Vector4f
    ensures { let a = answer brake.old call.now in (result ≡ a.currents) × (brake.new ≡ a.controller) }
{
    match word_at(call, 0) {
        0 => brake.compute(Vector4f::from(floats_at(call, 1))),
        _ => {
            brake.reset();
            ZEROS_4
        }
    }
}

// The words after a call.
#[tactic(auto, unfolding(crate::specs::Brake::stepped))]
pub(crate) fn step(brake: &mut ActiveBrakeController, call: &[u8]) -> [u32; 12]
    ensures { let told = stepped brake.old call.now in (result ≡ told.words) × (brake.new ≡ told.controller) }
{
    let currents = answer(brake, call);
    words_of(currents.into(), brake.memory())
}
