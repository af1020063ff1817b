//! A record is two words: an argument and the answer wanted.
ghost use Rattle.std.specs.Prelude.{◌≡◌, ◌/◌, ◌<◌, length, count_by};
ghost use Rattle.replay_lists.specs.Record.{record_at, records_of, is_mismatch};

use crate::floats::answer::{Operation, answer};
use tick_block::words::word_at;

/// An argument and the answer wanted, as words.
#[derive(Clone, Copy)]
pub struct Record {
    pub argument: u32,
    pub wanted: u32,
}

impl Record {
    // Record i of the block.
    pub(crate) fn at(block: &[u8], i: usize) -> Self
        requires { i < length block.now / 8 }
        ensures { result ≡ record_at block.now i }
    {
        Self {
            argument: word_at(block, i * 2),
            wanted: word_at(block, i * 2 + 1),
        }
    }

    // Whether the answer to the argument is another than the one wanted.
    pub(crate) fn is_mismatch<O: Operation>(self) -> bool
        ensures { result ≡ is_mismatch O.value self }
    {
        answer::<O>(self.argument) != self.wanted
    }
}

// How many of the block's records are mismatches.
pub(crate) fn mismatches<O: Operation>(block: &[u8]) -> usize
    ensures { result ≡ count_by (is_mismatch O.value) (records_of block.now) }
{
    (0..block.len() / 8)
        .map(|i| Record::at(block, i))
        .filter(|record| record.is_mismatch::<O>())
        .count()
}
