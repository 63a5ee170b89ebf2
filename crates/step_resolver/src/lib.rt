//! What a path means, how it is passed while the tree changes, and the walk that passes it.
//!
//! A `Walk` asks for one step at a time and is told its answer, so that others may change the tree in between
//! (openat2(2), RESOLVE_IN_ROOT; path_resolution(7)). Its `start`, `due`, `take` and `pass` are exactly the order
//! of steps of `specs/Order.antt`, and each `take` leaves fewer steps to come. `pass` is `take` in place, of the
//! turns that surely don't end the walk. What holds of that order in every legal history is the law `headline`,
//! which `specs/Headline.antt` states clause by clause. The layers above use its parts: `walks_tell`, what holds at
//! each end of a walk, and `walks_mean`, that the end is what the path means where no other actor changes an entry
//! that the path reads. `start`, `take` and `pass` have it as their clause `headline` (`specs/TurnsTell.antt`).
#![tactic(auto)]

mod answers;
mod course;
mod driver;
mod footprint_laws;
mod laws;
mod meaning_laws;
mod pending;
mod plain;
mod trail_laws;
mod walk;

pub use answers::{check_refusal, refusal_of};
pub use driver::{Resolved, advance, resolve};
pub use footprint_laws::{
    quiet_walks_mean, raced_tells_of_change, raced_walks_need_a_change, walks_mean,
};
pub use laws::{
    headline, like_walks_agree, own_steps_leave_entries, steps_by_parts_passed, walks_tell,
    worked_race,
};
pub use meaning_laws::{
    deepest_is_front_and_rest, errors_of_parts, links_are_their_texts, meaning_of_appended_parts,
    nesting_does_not_matter, up_is_never_missing, worked_paths,
};
pub use plain::resolve_whole;
pub use trail_laws::{links_add_up, quiet_trails_mean, trails_append, trails_split};
pub use walk::{Root, Turn, Walk, like_held};
pub use walk_plan::Goal;
