//! The words of a block: 32 bits each, lowest byte first.

ghost use Rattle.std.specs.Prelude.{◌≡◌, ◌+◌, ◌≤◌, length};
ghost use Rattle.tick_block.specs.Words.{word_from, word_at, with_word};

// The 32 bits that start at byte `at`.
fn word_from(block: &[u8], at: usize) -> u32
    requires { at + 4 ≤ length block.now }
    ensures { result ≡ word_from block.now at }
{
    u32::from_le_bytes([block[at], block[at + 1], block[at + 2], block[at + 3]])
}

/// Word i of the block, and 0 past its last whole word.
#[tactic(auto, unfolding(crate::specs::Words::word_at))]
pub fn word_at(block: &[u8], i: usize) -> u32
    ensures { result ≡ word_at block.now i }
{
    if i < block.len() / 4 {
        word_from(block, i * 4)
    } else {
        0
    }
}

/// Puts a word in the place of word i; a block that has no word i stays as it is.
#[tactic(auto, unfolding(crate::specs::Words::with_word))]
pub fn put_word(block: &mut [u8], i: usize, word: u32)
    ensures { block.new ≡ with_word block.old i word }
{
    if i < block.len() / 4 {
        block[i * 4..i * 4 + 4].copy_from_slice(&word.to_le_bytes());
    }
}
