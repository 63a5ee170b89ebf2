//! Scripts explored: what all schedules of a script's world come to, told as text.
//!
//! `survey_scene` has all full lists of a scene gone through, and tells of them as `outcome_text` says;
//! `explore_script` reads the scene, and writes that. `explore_part` does so for the lists that begin with some turns,
//! and writes the line of a part, which `explore_parts` reads and merges. A `Waiter` hears that a search is over before
//! its answer is written.
#![tactic(auto)]

mod classes;
mod gauge;
mod laws;
mod part;
mod parts;
mod script;
mod search;
mod waiter;

pub use explore::{Progress, Silent};
pub use gauge::{Gauge, peak_in};
pub use laws::{outcomes_without_cuts_are_of_whole_calls, written_schedules_lead_there};
pub use part::part_of_scene;
pub use parts::explore_part;
pub use script::explore_script;
pub use search::survey_scene;
pub use waiter::Waiter;
