//! What is proved of products and rotations: functions that do nothing, for their clauses.

ghost use Rattle.linear.specs.Laws.{DotOfThree, DotOfFour, ZerosAreSummed, LocalIsGlobal, LocalRows};

/// A row is summed from the left, from its first product on, zeros included.
pub fn rows_are_summed_from_the_left()
    ensures three { DotOfThree }
    ensures four { DotOfFour }
    ensures zeros { ZerosAreSummed }
{}

/// To local is to global with the sine negated.
#[tactic(auto, using(crate::proofs::rotation::Laws::local_is_global, crate::proofs::rotation::Laws::local_rows))]
pub fn local_is_global()
    ensures global { LocalIsGlobal }
    ensures rows { LocalRows }
{}
