//! What is proved of the lines' lengths: a function that does nothing, for its clauses.

ghost use Rattle.line_text.specs.Laws.{TicksFit, RefusedFit, TotalsFit};

/// A tick's line has at most 53 bytes, a refused block's 24, and the last line 99.
pub fn lines_are_short()
    ensures ticks { TicksFit }
    ensures refused { RefusedFit }
    ensures totals { TotalsFit }
{}
