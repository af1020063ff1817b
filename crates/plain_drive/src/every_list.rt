//! The theorem of the plain drive: a function that does nothing, for its clauses.

ghost use Rattle.plain_drive.specs.EveryList.{FollowsPlainDrive, NewIsStarted, OnlyStartedIsNew};
ghost use Rattle.plain_drive.specs.EveryList.{EveryListRuns, NothingWraps, ActiveMeansSeen};

/// After every list of the calls sight, plan, steer, finish and reset on a new controller, refused ones included, the
/// controller stands where the plain drive does, and answered as it did. `new` makes such a controller of every k from
/// 1 to 64, and no other. Each list of calls has such a run, in none does a count wrap, and active cameras mean a
/// sighting taken in the last 2048/k + 1 ticks.
pub fn every_list_of_calls()
    ensures follows { FollowsPlainDrive }
    ensures new { NewIsStarted }
    ensures only { OnlyStartedIsNew }
    ensures runs { EveryListRuns }
    ensures unwrapped { NothingWraps }
    ensures seen { ActiveMeansSeen }
{}
