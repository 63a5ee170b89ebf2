//! Scripts read whole: a tree's entries, actors with their roots and calls, and a schedule of their turns, as a JSON
//! text.
//!
//! A `Script` is read once. What `read_scenario` reads of it is what the script says, or the first check that fails.
//! Whoever wants the script's tree as a list beside its scenario reads both by `read_scene`; whoever serves its first
//! actor's calls as jobs reads it by `read_as`. A walk looks at less of a script, and opens it by `open_script`. The
//! layers above take from these contracts what is said (`Said`), that it can be played (`IsPlayable`), and by which
//! fault it is told otherwise.
#![tactic(auto)]

mod actors;
mod call_fault;
mod calls;
mod detail;
mod fault;
mod fields;
mod input;
mod keys;
mod labels;
mod laws;
mod nesting;
mod scenario;
mod schedule;
mod script;
mod steps;
mod strict;
mod tree;
mod turns;
mod words;

pub use actors::{ACTOR, ACTORS_MAX, open_root};
pub use call_fault::{CallFault, Field};
pub use calls::{CALLS_MAX, Purpose};
pub use detail::Detail;
pub use fault::{Cause, JsonFault, Loose, RunFault, ScriptFault};
pub use input::{READS_MAX, SCRIPT_MAX, Script, read_script};
pub use keys::Keys;
pub use laws::{each_refusal_is_told, first_refused_entry_is_told, reads_limit_is_a_number};
pub use nesting::is_too_deep;
pub use scenario::{LINES_MAX, Scenario, read_as, read_scenario, read_scene};
pub use schedule::TURNS_MAX;
pub use script::{OpenedScript, open_script};
pub use strict::check_strictly;
pub use tree::ENTRIES_MAX;
pub use turns::{TurnOrder, Turns, number_of, read_turns};
