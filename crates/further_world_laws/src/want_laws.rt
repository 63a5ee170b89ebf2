//! Why a call tells of a want of memory: a law, the contract of a function without a body.
ghost use Rattle.further_world_laws.specs.WantCauses.{MemoryBringsNoWant, ReportsWithMemoryTellNone, WantHasATurn};

/// A call comes to tell ENOMEM only where one of its turns lacked memory: a turn with memory for all that it does adds
/// no such outcome, and leaves no call that closes what it holds to tell it. So a report tells of no want where memory
/// never ran short. The converse is `out_of_memory_is_told` of `local_states`.
pub fn want_has_a_cause()
    ensures turn { MemoryBringsNoWant }
    ensures actor { WantHasATurn }
    ensures report { ReportsWithMemoryTellNone }
{}
