//! What is proved of plan's decision and of equality of commands: functions that do nothing, for their clauses.

ghost use Rattle.control_context.specs.ManeuverLaws.{EqualityIsSymmetric, EqualsItselfWithoutNan, ZerosAreEqual};
ghost use Rattle.control_context.specs.ManeuverLaws.{HoldForgets, ChangedModePlansAnew, NoVisionKeeps, SeedIsHeldState};

/// Equality of commands is symmetric, and fails of a command and itself exactly where a field is NaN.
pub fn equality_is_by_floats()
    ensures symmetric { EqualityIsSymmetric }
    ensures itself { EqualsItselfWithoutNan }
    ensures zeros { ZerosAreEqual }
{}

/// What the decision drops and keeps, and where a new plan's seed comes from.
pub fn decision_drops_and_keeps()
    ensures hold { HoldForgets }
    ensures changed_mode { ChangedModePlansAnew }
    ensures no_vision { NoVisionKeeps }
    ensures seed { SeedIsHeldState }
{}
