//! Every schedule of actors' planned calls.
//!
//! `explore` tells what all full lists of turns of a world come to, those with at most so many cuts: the outcomes,
//! of each how many lists lead to it, and the least of them with its report (`IsMerged` of `specs/Promise.antt`). It
//! may be asked for those alone that begin with some turns.
//! The layer above uses that contract alone.
//!
//! A world is a system of actors who take turns, whose schedules `layered_search` goes through (`system.rt`;
//! `specs/WorldLaws.antt` says that the laws of a system hold of it). A state is known by its *key*: the places of the
//! world's nodes and of each actor's part (`local_states`). `src/` has, by subject:
//!
//! - `worlds`: where each schedule begins, and runs from there (`replayed.rt`). Whoever lacked memory says so at the
//!   end of a run.
//! - `turns`: what turns come to. That depends on the nodes, the actor's part, and how full the book is
//!   (`world_counts.rt`); so the search remembers it by these (`memo.rt`, `specs/Effects.antt`). It finds a turn that
//!   it doesn't know by a run from the beginning, and the turns after it that aren't known by the same run
//!   (`known_turns.rt`).
//! - `outcomes`: what is found, and which worlds come to the same.
//! - `search.rt` puts these together. What is asked for, and what is found, is as of any system (`Limits`, `Findings`).
//!
//! Where it is asked for, what an actor changes outside of its root is a part of an outcome: worlds are taken for one
//! then only where each actor has made as many such changes.
#![tactic(auto)]

mod laws;
mod outcomes;
mod search;
mod system;
mod turns;
mod worlds;

pub use laws::chosen_lists_stand_for_all;
pub use layered_search::{Class, Findings, Limits, Progress, Scope, SearchFault, Silent};
pub use outcomes::end::End;
pub use search::explore;
pub use worlds::beginnings::Beginnings;
pub use worlds::scene::Scene;
