//! What runs of a world come to: laws, each the contract of a function without a body.
ghost use Rattle.race_core.specs.JoinedRuns.{TurnsGoOn, TurnsJoinRuns};
ghost use Rattle.race_core.specs.OneReport.{OneReport, ReportsAreThere};

/// Turns that `World::turn` made one by one, each Ok, and `World::run` after them, are one run: the report is one of
/// the world before these turns, on the schedule that has them first and then those that were given. So what a
/// report tells, by the laws of reports, it tells after such turns too.
pub fn turns_join_runs()
    ensures turns { TurnsGoOn }
    ensures runs { TurnsJoinRuns }
{}

/// Where memory never ran short there is just one report of a world on a schedule: the tree, the events, the replies
/// and what was kept are the same in any two. And where the schedule names actors alone there is one.
pub fn reports_with_memory_are_one()
    ensures one { OneReport }
    ensures there { ReportsAreThere }
{}
