//! A run as JSON, and runs as a page that a browser shows.
//!
//! `report_json` adds the report of a run as a line of JSON: the tree as the run begins, and each event with what it
//! changed, so that a reader has the tree of each moment. `runs_page` adds a page of HTML that needs nothing beside
//! itself: a fixed beginning, a text, of each run the report and the picture as JSON (`Played`), and a fixed end. No
//! byte of a report can end the element that it stands in. The layers above use these two.
#![tactic(auto)]

mod changes;
mod embedded;
mod fixed;
mod history;
mod laws;
mod page;
mod picture;
mod played;
mod report;

pub use fixed::{BEGINNING, END, PICTURE, REPORT, RUN_END, RUNS};
pub use laws::embedded_text_opens_no_tag;
pub use page::runs_page;
pub use played::Played;
pub use report::report_json;
