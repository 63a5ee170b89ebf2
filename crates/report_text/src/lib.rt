//! The text of a report: the events of a run, how its calls ended, the entries of its tree, and how many handles each
//! actor has open.
//!
//! Every call adds to an `Output` exactly the text that `specs/Report.antt` states, or answers NoMemory, and then
//! nothing is said of what was added. The layers above use `report`.
//!
//! `json_words` adds texts and commas as JSON has them.
#![tactic(auto)]

mod history;
pub mod json_words;
mod laws;
mod outcomes;
mod state;
mod whole;
mod words;

pub use history::{event_words, events};
pub use laws::rows_have_lines;
pub use outcomes::{replies, replies_of, reply_words};
pub use state::{held, rows};
pub use whole::report;
pub use words::numbered;
