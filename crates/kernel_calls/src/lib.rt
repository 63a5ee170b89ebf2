//! Calls on a path that the kernel walks: one openat2(2) looks the path up, or the path of an entry's directory; then
//! comes the one system call of the change, in the directory that was opened so; each as a dialogue.
//!
//! The layer above uses `resolve`, `change_entry` and `rename`, and the parts that these are made of. No function makes
//! a system call or takes memory.
#![tactic(auto)]

mod calls;
mod change;
mod entry;
pub mod flags;
mod in_proc;
mod laws;
mod look;
mod path;
pub mod steps;

pub use calls::{change_entry, rename, resolve};
pub use change::{Change, Wanted, make_change};
pub use entry::{
    Behind, Closes, Dir, LastName, NO_CLOSES, NOT_BEHIND, find_directory, leave, named, parts,
};
pub use in_proc::{Act, by_proc, gives, proc_error};
pub use laws::{
    entries_are_changed_where_they_stand, entries_are_renamed_where_they_stand,
    objects_are_linked_where_entries_stand, paths_are_looked_up_as_a_whole,
};
pub use look::{Below, Outcome, forget, look_up, openat2, opened, walk};
pub use path::{PathOf, front, piece};
