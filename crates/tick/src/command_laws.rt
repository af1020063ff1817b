//! What is proved of commands and their words: a function that does nothing, for its clauses.
ghost use Rattle.tick.specs.CommandLaws.{PositionIsItsWords, LineIsItsWords};

/// The fields of a command are its words in order.
#[tactic(auto, using(crate::proofs::CommandLemmas::position_words, crate::proofs::CommandLemmas::line_words))]
pub fn command_is_its_words()
    ensures position { PositionIsItsWords }
    ensures line { LineIsItsWords }
{}
