//! Further laws of walks, on which no other crate stands.
//!
//! A walk and its headline are `step_resolver`'s: the laws here speak of the same walks in the same histories
//! (`IsWalkInHistory`, `LeadsTo`), and of the trails of which `headline` tells. They stand on the contract of its law
//! `walks_tell`, and on the lemmas with which it is proved. `steps_by_trail` says how many steps a walk makes for the
//! parts that its trail passes. `retries_need_changes` says what it takes to have walk after walk end in EAGAIN.
#![tactic(auto)]

mod laws;

pub use laws::{retries_need_changes, steps_by_trail};
