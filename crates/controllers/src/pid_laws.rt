//! What is proved of the PID of N axes over calls: functions that do nothing, for their clauses.

ghost use Rattle.controllers.specs.PidLaws.{AxesRememberApart, AxesAnswerApart};
ghost use Rattle.controllers.specs.PidLaws.{CallBoundsIntegral, IntegralIsBounded, NewIntegralIsBounded};
ghost use Rattle.controllers.specs.PidLaws.{OutputsAreLimited, NanIsLowerLimit, ResetIsNew};
ghost use Rattle.controllers.specs.PidLaws.{OutputIsScaledBelow, OutputStaysFrom};

/// What an axis remembers and answers is what its own parts of the calls make of it.
#[tactic(auto, using(crate::proofs::AxesLaws::remember_apart, crate::proofs::AxesLaws::answer_apart))]
pub fn axes_are_apart()
    ensures memory { AxesRememberApart }
    ensures output { AxesAnswerApart }
{}

/// A call leaves an integrated error within bounds that enclose 0.0; no list of calls takes it out.
pub fn integral_is_bounded()
    ensures call { CallBoundsIntegral }
    ensures calls { IntegralIsBounded }
    ensures new { NewIntegralIsBounded }
{}

/// Every output lies within its axis's limits, where these are in order; NaN gives the lower one.
#[tactic(auto, using(crate::proofs::AxesLaws::outputs_limited, crate::proofs::AxesLaws::nan_lower))]
pub fn outputs_are_limited()
    ensures limited { OutputsAreLimited }
    ensures nan { NanIsLowerLimit }
{}

/// After a reset the calls find a new controller.
#[tactic(auto, using(crate::proofs::AxesLaws::reset_new))]
pub fn reset_is_new()
    ensures new { ResetIsNew }
{}

/// Below the anti-jitter threshold the output is scaled by |error| / threshold; from it on it stays.
#[tactic(auto, using(crate::proofs::AxesLaws::scaled_below, crate::proofs::AxesLaws::stays_from))]
pub fn output_is_scaled_below_threshold()
    ensures below { OutputIsScaledBelow }
    ensures from { OutputStaysFrom }
{}
