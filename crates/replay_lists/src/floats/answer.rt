//! What is computed of an argument, each list its own operation. Arguments and answers are bits.
ghost use Rattle.std.specs.Prelude.{◌≡◌, Float};
ghost use Rattle.replay_lists.specs.Answer.{answer_of, square_root_of, remainder_of, itself, twice, difference};

use ieee754::bits::{from_bits, to_bits};
use ieee754::remainder::remainder;
use ieee754::root::sqrt;

/// What a list makes of each argument.
pub trait Operation {
    ghost value: { Float → Float };

    fn apply(x: f32) -> f32
        ensures { result ≡ value x };
}

/// The square root.
pub struct Root;

impl Operation for Root {
    ghost value = { square_root_of };

    fn apply(x: f32) -> f32 {
        sqrt(x)
    }
}

/// The remainder by tau.
pub struct Remainder;

impl Operation for Remainder {
    ghost value = { remainder_of };

    fn apply(x: f32) -> f32 {
        remainder(x)
    }
}

/// The float of a word, and its word again.
pub struct Word;

impl Operation for Word {
    ghost value = { itself };

    fn apply(x: f32) -> f32 {
        x
    }
}

/// The float of a word, added to itself.
pub struct Twice;

impl Operation for Twice {
    ghost value = { twice };

    fn apply(x: f32) -> f32 {
        x + x
    }
}

/// The float of a word, less itself: the machine's own NaN where it is infinite.
pub struct Difference;

impl Operation for Difference {
    ghost value = { difference };

    fn apply(x: f32) -> f32 {
        x - x
    }
}

pub(crate) fn answer<O: Operation>(argument: u32) -> u32
    ensures { result ≡ answer_of O.value argument }
{
    to_bits(O::apply(from_bits(argument)))
}
