//! What is proved of tick lengths: a function that does nothing, for its clauses.
ghost use Rattle.tick.specs.TickLengthLaws.{TickLengthBounds, SecondsAreExact, MicrosAreFloor};

/// k/4096 s is exact in seconds, and rounded down in microseconds.
pub fn tick_length_is_exact()
    ensures bounds { TickLengthBounds }
    ensures seconds { SecondsAreExact }
    ensures micros { MicrosAreFloor }
{}
