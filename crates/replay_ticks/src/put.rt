//! Floats among the 96 words, by their bits.
ghost use Rattle.std.specs.Prelude.{◌+◌, ◌≤◌};

use ieee754::bits::to_bits;
use linear::Vector3f;

pub(crate) fn put<const N: usize>(words: &mut [u32; 96], at: usize, floats: [f32; N])
    requires { at + N ≤ 96 }
{
    for (word, float) in words[at..].iter_mut().zip(&floats) {
        *word = to_bits(*float);
    }
}

pub(crate) fn put_two(words: &mut [u32; 96], at: usize, a: Vector3f, b: Vector3f)
    requires { at + 6 ≤ 96 }
{
    put::<3>(words, at, a.into());
    put::<3>(words, at + 3, b.into());
}
