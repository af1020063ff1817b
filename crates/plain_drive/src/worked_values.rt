//! Values of the rules, worked out (docs/RULES.md, 'Worked values'): a function that does nothing, for its clause.

ghost use Rattle.plain_drive.specs.WorkedValues.{WorkedValues};

/// The worked values hold of the definitions that the crates' contracts name: tick lengths accepted and refused, the
/// encoder lag's tick and steps, the ticks up to which the cameras are active, roots, remainders and hypotenuses, the
/// current that a fresh brake gives each wheel at every tick length, and clamped twists.
#[tactic(auto, using(crate::proofs::WorkedValues::worked_values))]
pub fn worked_values()
    ensures all { WorkedValues }
{}
