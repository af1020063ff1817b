//! The pass theorem: no code, the clause is what counts.

ghost use Rattle.pass.specs.PlainPass.{EveryPass};

/// Whatever blocks are given one after the other, refused ones included, their lines say what the
/// plain drive says of the same blocks, and the pass stands where it does: number, counts and
/// controller.
#[tactic(auto, using(crate::proofs::EveryPass::every_pass))]
pub fn every_list_of_blocks()
    ensures follows { EveryPass }
{}
