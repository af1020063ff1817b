//! The theorem on the printed lines: no code, the clauses are what counts.

ghost use Rattle.pass.specs.EveryLine.{EveryLine, EveryBatchLine, OneStart, ResetIsSeen};

/// Whatever blocks are given one after the other, refused ones included, each V in their lines is
/// right: a tick line has it exactly if it, or one of the 2048/k tick lines before it (rounded down), has
/// letter C, T or J and no reset came since, which is a B in one tick line and none in the next. So it is of
/// every batch that begins a pass. A pass has one k, and recovery resets only where a B ends.
pub fn every_line()
    ensures marks { EveryLine }
    ensures batches { EveryBatchLine }
    ensures one_k { OneStart }
    ensures resets { ResetIsSeen }
{}
