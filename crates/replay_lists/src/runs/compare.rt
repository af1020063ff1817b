//! The words of an answer against the words wanted.
ghost use Rattle.std.specs.Prelude.{◌≡◌};
ghost use Rattle.replay_lists.specs.Compare.{agrees_up_to};

use std::io;
use tick_block::words::word_at;

// Whether the twelve words are those of the call from `at` on.
#[tactic(auto, unfolding(crate::specs::Compare::agrees_up_to))]
pub(crate) fn agrees(words: &[u32; 12], call: &[u8], at: u8) -> bool
    ensures { result ≡ agrees_up_to words.now call.now at 12 }
{
    (0..12).all(|i| words[i] == word_at(call, at as usize + i))
}

// Shows the call of this number of the list, which is a mismatch.
pub(crate) fn show(rt: &HostRuntime, number: u64) -> io::Result<()> {
    println!(rt; "  call {number}")
}
