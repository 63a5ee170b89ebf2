//! Calls of `root_ops` by system calls: laws, on which no other crate stands.
//!
//! `linux_steps` has laws on one step's conversation of system calls, and `find_place` on one about an object's
//! place. The laws here join them: they put the steps of a call, each made by system calls, among what others do
//! meanwhile. So they have the history in which the call tells what `root_ops` says. `conversations_are_calls` and
//! `unmade_steps_end_calls` say of a call's turns what comes of them in no history, whatever is answered. Which errors
//! of a system call are a step's own says `linux_steps`, and `steps_are_refused_so` that the step table has no others.
//!
//! Where the kernel walks a call's paths as a whole, `kernel_calls` has the system calls, and `kernel_walks` what comes
//! of the lines that they stand for. `entries_are_changed_by_system_calls` and the laws beside it join these for whole
//! calls.
#![tactic(auto)]

mod laws;

pub use laws::{
    asked_places_stood, calls_tell_by_system_calls, conversations_are_calls,
    entries_are_changed_by_system_calls, entries_are_renamed_by_system_calls, lines_have_histories,
    paths_are_opened_by_system_calls, steps_are_refused_so, unmade_steps_end_calls,
    worked_race_is_made, worked_whole_is_made,
};
