//! The local states of a world: what of a world is an actor's own, and what a turn makes of it.
//!
//! A world is its nodes and each actor's *part*: what the actor has to do, to report and to hold, but for the numbers
//! of handles (`specs/Local.antt`). A turn is local: it reads and changes the nodes and its own actor's part alone
//! (`turns_are_local`). Worlds with the same nodes and parts take the same turns (`same_parts_go_alike`).
//!
//! Nodes and parts are the *components* of worlds. `Components` keeps each that it has met once, by its place. A *key*
//! is the places of a world's components, and how much the world has grown since the beginning (`specs/Keys.antt`).
//! From the key before a turn and the turn's *effect* follows the key after it (`Key::after`), with no run.
//!
//! `Tally` counts what actors change outside of their roots (`specs/Outside.antt`). A call that lacks memory says so in
//! the end (`out_of_memory_is_told`): `tells_out_of_memory` reads that off a report.
//!
//! Nothing here knows which turns somebody goes through, or in which order. The layer above, `explore`, uses `Key` and
//! `Components` by the contracts that name `IsKey`, `Tally` by `IsTally`, and the laws.
#![tactic(auto)]

mod components;
mod fingerprint;
mod handle_tables;
mod keys;
mod local_laws;
mod nodes;
mod out_of_memory;
mod outcome_table;
mod outside;
mod parts;
mod report_laws;

pub use components::Components;
pub use fingerprint::Fingerprint;
pub use keys::{ACTORS_IN_PLACE, Effect, Key, Own};
pub use local_laws::{same_parts_go_alike, turns_are_local};
pub use out_of_memory::tells_out_of_memory;
pub use outside::Tally;
pub use report_laws::{out_of_memory_is_told, reports_without_out_of_memory_are_one};
