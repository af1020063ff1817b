//! The theorems on batches: no code, the clauses are what counts.

ghost use Rattle.pass.specs.BatchHolds.{BatchHolds};
ghost use Rattle.pass.specs.BatchLaws.{RoomIsEnough, BatchesJoin, TextsJoin, NoByteLost};

/// Of every batch that begins a pass the pass theorem holds. Room for all of the blocks drives all of
/// them; batches driven one after the other are one run over all the bytes, and their texts are its
/// text; and where no block is refused, the driven blocks are all of the bytes.
pub fn every_batch()
    ensures holds { BatchHolds }
    ensures room { RoomIsEnough }
    ensures join { BatchesJoin }
    ensures texts { TextsJoin }
    ensures lossless { NoByteLost }
{}
