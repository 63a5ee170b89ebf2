//! Scripts explored, as a page that a browser shows: what `inroot explore --html` writes.
//!
//! `explore_page` reads a script, has all schedules of its world gone through as `explore_command` says, and writes a
//! page of `pages`: the text that `explore` writes, and of each outcome that is played the run by its least schedule,
//! with the report that `replay --json` writes of it. The program takes its statuses from these faults.
#![tactic(auto)]

mod chosen;
mod fault;
mod laws;
mod page;
mod runs;

pub use chosen::PLAYED_MAX;
pub use fault::ExplorePageFault;
pub use laws::played_limit_is_a_number;
pub use page::explore_page;
