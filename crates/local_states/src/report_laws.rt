//! Who lacks memory says so, and which reports say so of nobody: laws, the contracts of functions without a body.
ghost use Rattle.local_states.specs.JustOne.{ReportsWithoutOutOfMemoryAreOne, ReportsWithoutOutOfMemoryHadMemory};
ghost use Rattle.local_states.specs.OutOfMemory.{OutOfMemoryIsTold, OutOfMemoryStays, RunsWithoutOutOfMemoryAreFull};

/// Want of memory is told: a turn that lacked some is the turn with memory, or else its actor's call closes what it
/// holds and fails so, whatever comes. So a run to the end without such a reply is the run with memory for all.
pub fn out_of_memory_is_told()
    ensures told { OutOfMemoryIsTold }
    ensures stays { OutOfMemoryStays }
    ensures runs { RunsWithoutOutOfMemoryAreFull }
{}

/// Of all reports of a world on a schedule at most one tells of no want of memory: two in which no reply does are the
/// same, and are the report that comes where memory never ran short. That there is one of those says
/// `reports_with_memory_are_one` of `race_core`.
pub fn reports_without_out_of_memory_are_one()
    ensures one { ReportsWithoutOutOfMemoryAreOne }
    ensures memory { ReportsWithoutOutOfMemoryHadMemory }
{}
