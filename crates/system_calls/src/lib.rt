//! What a C driver asks Linux for, and what it makes of the answer, where numbers alone decide: the flags of open(2)
//! that a call takes, when it is begun again, which object an answer is about, and what an error means.
//!
//! And what the kernel's texts say: where an object stands, by the path that a link in /proc tells, and which names the
//! records of getdents64(2) have.
//!
//! Each function takes numbers or bytes as a program or a system call gave them. None of them makes a call. Only
//! `sort_names` takes memory.
#![tactic(auto)]

mod entries;
pub mod errors;
mod laws;
mod listing;
mod objects;
mod opening;
mod place;
mod records;
mod tries;
mod uses;

pub use entries::{Coming, next_entry};
pub use laws::{
    contradictions_are_refused, kinds_are_asked_for, pauses_add_up, what_is_found_is_only_opened,
    what_is_found_is_used_so, what_is_made_is_new,
};
pub use listing::{Sorted, sort_names};
pub use objects::{Object, is_elsewhere, is_node, is_same_object, kind_of};
pub use opening::{MachineFlags, Opening, opening_of, reopen_flags};
pub use place::{ends_as_gone, is_named, place_told};
pub use records::{Taken, take_names};
pub use tries::{NextTry, next_try};
pub use uses::{USE_FAILS, USE_GIVES, USE_MAKES, USE_REOPENS, Use, use_of};
