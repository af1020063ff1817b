//! What is proved of the clamps and of recovery: functions that do nothing, for their clauses.

ghost use Rattle.control_context.specs.TrackingLaws.{TwistIsBounded, AccelIsBounded, UnmarkedIsSame, NormalStaysUnheld};

/// Clamped twists and accelerations lie within their bounds or are NaN; an unmarked clamp left every entry equal.
pub fn clamps_bound_every_entry()
    ensures twist { TwistIsBounded }
    ensures accel { AccelIsBounded }
    ensures unmarked { UnmarkedIsSame }
{}

/// With no sample held nothing diverges.
#[tactic(auto, using(crate::proofs::RecoveryLaws::none_held_normal))]
pub fn nothing_diverges_unheld()
    ensures normal { NormalStaysUnheld }
{}
