//! Whether a block comes in order in its pass.

ghost use Rattle.std.specs.Prelude.{◌≡◌};
ghost use Rattle.tick.specs.Refusal.{number_of};
ghost use Rattle.tick_block.specs.Order.{order_tested, order_of};

use tick::refusal::Refusal;
use tick::tick_length::TickLength;

/// A block's tick length is to be the drive's own, and then its number that of the next tick.
pub fn order_tested(
    tick_length: TickLength,
    own: TickLength,
    number: u32,
    next: u32,
) -> Result<(), Refusal>
    ensures answer { result ≡ order_tested tick_length own number next }
    ensures number { number_of result ≡ order_of tick_length own number next }
{
    if tick_length != own {
        return Err(Refusal::OtherTickLength);
    }
    if number != next {
        return Err(Refusal::Order);
    }
    Ok(())
}
