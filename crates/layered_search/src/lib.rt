//! Every schedule of a system of actors who take turns.
//!
//! A `TransitionSystem` says what a state is, and which one each actor's turn leads to. `search` finds what all full
//! lists of turns come to, those with at most so many cuts: the outcomes, of each how many lists lead to it, and the
//! least of them (`IsMerged` of `specs/Promise.antt`). It may be asked for those alone that begin with some turns.
//! The layer above uses that contract alone.
//!
//! The search knows a state by its key, and goes on from one of the states that have one key, layer by layer
//! (`specs/Layers.antt`). It keeps the key and a list of turns that leads there. What the layers come to is a layered
//! graph, whose words are the lists (`specs/Merged.antt`); `schedule_graph` counts them.
//!
//! - `system.rt`: what a system gives. `specs/System.antt` says what keys and outcomes have to mean.
//! - `cost.rt`: what counts in a list of turns, and who may have the next one.
//! - `frontier`: the layer that the search goes on from, and the next one: states, the configurations of lists on them,
//!   transitions and edges.
//! - `searching.rt` puts these together; `limits.rt` has what is asked for, `found.rt` what is found.
#![tactic(auto)]

mod begin;
mod cost;
mod found;
mod frontier;
mod laws;
mod limits;
mod progress;
mod searching;
mod system;

pub use found::{Class, Findings};
pub use laws::{chosen_lists_stand_for_all, counts_conclude, words_are_lists};
pub use limits::{Limits, Scope, SearchFault};
pub use progress::{Progress, Silent};
pub use searching::search;
pub use system::TransitionSystem;
