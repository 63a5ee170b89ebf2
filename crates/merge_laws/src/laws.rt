//! Parts of all schedules are told, once they are merged, as the one search is told.
ghost use Rattle.merge_laws.specs.Merged.{AgreeingListsAreToldAlike, RepliesSayNoHandles, PartsWithoutGapsAreAll, MergedPartsAreTheWhole, MergedPartsOfAScriptAreTheWhole};
ghost use Rattle.merge_laws.specs.Printed.{MergedLinesAreTheWhole};

/// No reply of a world that was opened for plans says a handle's number, whatever turns were taken.
pub fn replies_say_no_handles()
    ensures { RepliesSayNoHandles }
{}

/// Two lists of turns that lead to one outcome are told alike: what is told of them looks the same and has the same
/// lines, where no reply says a handle's number.
pub fn agreeing_lists_are_told_alike()
    ensures { AgreeingListsAreToldAlike }
{}

/// Where `merge` finds of parts of one question that none overlap and that no schedules are in no part, each schedule
/// that is asked for begins with just one.
pub fn parts_without_gaps_are_all()
    ensures { PartsWithoutGapsAreAll }
{}

/// What `merge` makes of parts of one question about one world is told as the one search of all schedules tells it: by
/// the same text, but for the number of states, and with the same answer.
pub fn merged_parts_are_the_whole()
    ensures { MergedPartsAreTheWhole }
{}

/// So it is of the parts of any script that can be read.
pub fn merged_parts_of_a_script_are_the_whole()
    ensures { MergedPartsOfAScriptAreTheWhole }
{}

/// What `merge_parts` makes of the lines that `explore_part` writes of a script's parts is what `explore_script`
/// writes: the same text, but for the number of states, and the same answer. The lines are of one question, and the
/// numbers of their parts are those that the machine holds.
pub fn merged_lines_are_the_whole()
    ensures { MergedLinesAreTheWhole }
{}
