//! What is proved of the constants' decimals: a function that does nothing, for its clauses.

ghost use Rattle.params.specs.Decimals.{AngularClampIsWritten, BaseRadiusIsWritten, ClockStartIsWritten};
ghost use Rattle.params.specs.Decimals.{BrakeLeastCurrentIsWritten, TrackingIsWritten, LimitsAreWritten};

/// Every constant is what f32 gives from the Rust's decimal text, in the file's own order.
pub fn constants_are_written()
    ensures angular_clamp { AngularClampIsWritten }
    ensures base_radius { BaseRadiusIsWritten }
    ensures clock_start { ClockStartIsWritten }
    ensures brake_least_current { BrakeLeastCurrentIsWritten }
    ensures tracking { TrackingIsWritten }
    ensures limits { LimitsAreWritten }
{}
