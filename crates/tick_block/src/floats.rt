//! Words read as floats, one by one and by arrays.

ghost use Rattle.std.specs.Prelude.{◌≡◌, ◌+◌};
ghost use Rattle.tick_block.specs.Floats.{float_at, floats_at};

use crate::words::word_at;
use ieee754::bits::from_bits;

/// The float whose bits are word i.
#[tactic(auto, unfolding(crate::specs::Floats::float_at))]
pub fn float_at(block: &[u8], i: usize) -> f32
    ensures { result ≡ float_at block.now i }
{
    from_bits(word_at(block, i))
}

// The float of word `at + i`. Past the last number there is no word.
#[tactic(auto, using(crate::proofs::Past::held))]
fn float_after(block: &[u8], at: usize, i: usize) -> f32
    ensures { result ≡ float_at block.now (at + i) }
{
    float_at(block, at.saturating_add(i))
}

/// The floats of the words from `at` on.
pub fn floats_at<const N: usize>(block: &[u8], at: usize) -> [f32; N]
    ensures { result ≡ floats_at block.now at N }
{
    // A loop: `from_fn` takes twice as long.
    let mut floats = [0.0; N];
    for (i, x) in floats.iter_mut().enumerate() {
        *x = float_after(block, at, i);
    }
    floats
}
