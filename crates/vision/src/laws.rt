//! What is proved of the gate and of the vision clock over ticks: functions that do nothing, for their clauses.

ghost use Rattle.vision.specs.Laws.{SumIsExact, SumIsBeyond, TakenIsHeld, HeldWaits, NewIsUnheld, UnheldWaits};
ghost use Rattle.vision.specs.Laws.{HeldIsActive, UnheldIsInactive, RadiusWidens, WideningTakes, HeldTakes};
ghost use Rattle.vision.specs.Laws.{TrackingTakesOrWaits, NanDistanceWaits, FirstRefusal, SeedingIsSeeded};
ghost use Rattle.vision.specs.Laws.{NanDeviationSeedsAnew, TakenRestarts};

/// The sum of m tick lengths of k/4096 s is exact while m·k <= 2^24, and at least 4096 s afterwards.
pub fn sum_is_exact()
    ensures exact { SumIsExact }
    ensures beyond { SumIsBeyond }
{}

/// Vision is active exactly while m·k <= 2048 after a taken sighting, and never before the first one.
pub fn active_since_taken()
    ensures taken { TakenIsHeld }
    ensures waits { HeldWaits }
    ensures active { HeldIsActive }
    ensures new { NewIsUnheld }
    ensures never_taken { UnheldWaits }
    ensures inactive { UnheldIsInactive }
{}

/// For D from 1 to 64, m·k >= 2048·D makes the gate take every sighting computed at most D metres off.
pub fn radius_widens()
    ensures radius { RadiusWidens }
    ensures gate { WideningTakes }
    ensures vision { HeldTakes }
{}

/// A tracking gate takes or waits, a NaN distance is never taken, and a NaN deviation seeds anew.
pub fn outcomes_are_few()
    ensures tracking { TrackingTakesOrWaits }
    ensures nan_distance { NanDistanceWaits }
    ensures first_refusal { FirstRefusal }
    ensures seeding { SeedingIsSeeded }
    ensures nan_deviation { NanDeviationSeedsAnew }
    ensures taken { TakenRestarts }
{}
