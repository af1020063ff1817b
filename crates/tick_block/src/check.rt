//! The check of a tick block, and the bits and words that must be zero.

ghost use Rattle.std.specs.Prelude.{◌≡◌};
ghost use Rattle.tick_block.specs.Check.{check_of, with_check, are_zero, is_spare_zero};

use crate::layout::{CHECK, FLAGS, SPARE, SPARES};
use crate::words::{put_word, word_at};

// The first number that is no sum of the five flags.
const ALL_FLAGS: u32 = 32;

/// What the check's word is to be: 1 plus the words before it.
#[tactic(auto, unfolding(crate::specs::Check::word_sum, crate::specs::Check::check_of))]
pub fn check_of(block: &[u8]) -> u32
    ensures { result ≡ check_of block.now }
{
    let mut sum: u32 = 1;
    for i in 0..CHECK {
        sum = sum.wrapping_add(word_at(block, i));
    }
    sum
}

/// Makes the check fit the words before it.
#[tactic(auto, unfolding(crate::specs::Check::with_check))]
pub fn renew_check(block: &mut [u8])
    ensures { block.new ≡ with_check block.old }
{
    let check = check_of(block);
    put_word(block, CHECK, check);
}

// Whether the spare words are zero. All are looked at: to stop at the first takes twice as long.
#[tactic(auto, unfolding(crate::specs::Check::are_zero))]
fn are_spares_zero(block: &[u8]) -> bool
    ensures { result ≡ are_zero block.now 21 }
{
    let mut zero = true;
    for i in 0..SPARES {
        zero &= word_at(block, SPARE + i) == 0;
    }
    zero
}

/// Whether the spare bits of the flags and the spare words are zero.
#[tactic(auto, unfolding(crate::specs::Check::is_spare_zero))]
pub fn is_spare_zero(block: &[u8]) -> bool
    ensures { result ≡ is_spare_zero block.now }
{
    (word_at(block, FLAGS) < ALL_FLAGS) & are_spares_zero(block)
}
