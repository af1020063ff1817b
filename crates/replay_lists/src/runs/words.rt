//! The words that an answer is compared by.
ghost use Rattle.std.specs.Prelude.{◌≡◌, ◌+◌, ◌<◌, ◌≤◌};
ghost use Rattle.replay_lists.specs.Words.{axis_put, axes_put, words_of};

use controllers::pid::{AxisMemory, PidMemory};
use ieee754::bits::to_bits;

// Puts axis i of n: its output, its previous error and its integrated error, each n words apart.
#[tactic(auto, unfolding(crate::specs::Words::axis_put))]
fn put_axis(words: &mut [u32; 12], n: usize, i: usize, output: f32, axis: AxisMemory)
    requires { n + n + i < 12 }
    ensures { words.new ≡ axis_put words.old n i output axis }
{
    words[i] = to_bits(output);
    words[n + i] = to_bits(axis.prev_error);
    words[n + n + i] = to_bits(axis.integrated_error);
}

// By the index, since each axis has three words, n apart.
fn put_axes<const N: usize>(words: &mut [u32; 12], output: [f32; N], memory: PidMemory<N>)
    requires { N ≤ 4 }
    ensures { words.new ≡ axes_put N 0 output.entry memory.entry.axes words.old }
{
    for i in 0..N {
        put_axis(words, N, i, output[i], memory.axes[i]);
    }
}

// The outputs, the previous errors and the integrated errors, and zeros behind them.
#[tactic(auto, unfolding(crate::specs::Words::words_of))]
pub(crate) fn words_of<const N: usize>(output: [f32; N], memory: PidMemory<N>) -> [u32; 12]
    requires { N ≤ 4 }
    ensures { result ≡ words_of output.entry memory.entry }
{
    let mut words = [0; 12];
    put_axes(&mut words, output, memory);
    words
}
