//! What holds of the outcomes that are written: laws, each the contract of a function without a body.
ghost use Rattle.explore_command.specs.Replayed.{WrittenSchedulesLeadThere};
ghost use Rattle.explore_command.specs.WholeCalls.{OutcomesWithoutCutsAreOfWholeCalls};

/// The schedule that is written with an outcome leads to it. A run of the world by that schedule, as `replay` makes
/// it, comes to the outcome's own tree and replies.
pub fn written_schedules_lead_there()
    ensures { WrittenSchedulesLeadThere }
{}

/// An outcome without a cut is one of whole calls: nobody takes a turn while another actor has a call under way.
pub fn outcomes_without_cuts_are_of_whole_calls()
    ensures { OutcomesWithoutCutsAreOfWholeCalls }
{}
