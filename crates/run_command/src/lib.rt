//! What the program does with a script alone: a path resolved over the script's tree below its first actor's root; the
//! script's run replayed or drawn, as text, as SVG, as JSON or within a page that a browser shows; and the first
//! actor's calls served as jobs by workers on threads of their own.
//!
//! What `walk` writes is a stated function of what the reader has left and of the call. What `replay` writes is the
//! text of the report on a run of the script's world, whatever reader and writer it is given; `replay_json` writes that
//! report as JSON, `draw` the picture of such a run, which as SVG is well-formed XML, and `draw_page` a page with both.
//! What `run_jobs` writes is how each job ended, in a service that is opened over the script's tree, serves them all
//! and is closed. Or each is told why not; the program takes its statuses from these faults.
//!
//! Whoever plays runs of a script on a page of its own grants the roots by `grant_roots`, and tells by `told_of` why
//! there is no picture.
#![tactic(auto)]

mod drawing;
mod jobs;
mod laws;
mod page;
mod play;
mod run;

pub use drawing::{DrawFault, Form, Style, draw, grant_roots, told_of};
pub use jobs::{JobsFault, ServiceFault, run_jobs};
pub use laws::json_limits_are_numbers;
pub use page::{EVENTS_MAX, JsonFault, draw_page, replay_json};
pub use play::{replay, report_of, report_on};
pub use run::{line_of, walk};
pub use workers::WORKERS_MAX;
