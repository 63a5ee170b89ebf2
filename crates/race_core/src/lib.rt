//! A tree that several actors take steps on, and the history of all their steps; and worlds, in which actors make
//! planned calls by a schedule.
//!
//! A `Book` takes one step at a time and keeps it, with its actor and its answer, as the next line of a history that
//! is legal at every moment: its tree is always the one that the events lead to from the opening tree. Each open
//! handle has a line kept for its Close, which takes no memory, so that whoever opened it can close it. The layers
//! above use `Book::step`, which tells exactly which refusal comes first, and else makes the step and books it.
//!
//! An `ActorPlan` is what an actor is to do before there is a world: a root, by names from the top, and the planned
//! calls below the root, in order. A planned call is an operation, a single step, or the release of what an earlier
//! call opened. `Plans::push` adds exactly one call, or changes nothing.
//!
//! A `World` has actors with planned calls below their roots, and takes one due step of an actor's call a turn,
//! through its book. What a turn is, with memory as luck has it, is computed in `specs/Turns.antt`; `World::run`
//! gives the report on a run of such turns (`specs/Worlds.antt`): those of the schedule, and then each actor's to
//! its end.
//!
//! A search over schedules merges worlds that differ in the numbers of handles alone: `World::is_like` compares the
//! actors of two worlds but for these numbers, `World::push_handles` lists them, and `like_seats_agree` says that
//! these two settle an actor (`specs/Renamed.antt`).
#![tactic(auto)]

mod advance;
mod book;
mod copy;
mod copy_tree;
mod laws;
mod ledger;
mod like;
mod like_laws;
mod opening;
mod plan;
mod report;
mod run_laws;
mod seat;
mod world;
mod world_laws;

pub use book::{Book, LINES_MAX, OpenRefusal};
pub use copy_tree::CopyTree;
pub use laws::{free_lines_never_rise, world_limits_are_numbers};
pub use like::{is_like_outcome, like_outcomes};
pub use like_laws::like_seats_agree;
pub use opening::ACTORS_MAX;
pub use plan::{ActorPlan, Planned, Plans, Ref};
pub use report::{Outcome, Outcomes, Report, WorldFault};
pub use run_laws::{reports_with_memory_are_one, turns_join_runs};
pub use seat::Seat;
pub use world::World;
pub use world_laws::{
    actors_calls_stand_in_order, calls_have_windows, calls_tell_in_reports,
    four_handles_are_enough_in_reports, handles_at_end, kept_is_released, resolve_tells_in_reports,
    roots_stay_open, single_resolve_tells, undisturbed_resolve_is_worked, walks_tell_in_reports,
};
