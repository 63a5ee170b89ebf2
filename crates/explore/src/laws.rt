//! What holds of all schedules: laws, the contracts of functions without a body.
ghost use Rattle.explore.specs.Search.{ChosenListsStandForAll, ReportsAreOfFullLists, FullListsAreReported};

/// What all schedules come to. A full list of turns has only turns of actors who have something left to do, and
/// leaves nobody any. The report on a run of any schedule is that of a full list, and that on a full list is the
/// list's own, where nobody in it lacked memory. And where of each list that was chosen, and each actor who has
/// something left to do after it, one was chosen that leads to a world like that after the actor's turn, the chosen
/// ones come to all that the full lists come to.
pub fn chosen_lists_stand_for_all()
    ensures chosen { ChosenListsStandForAll }
    ensures reports { ReportsAreOfFullLists }
    ensures lists { FullListsAreReported }
{}
