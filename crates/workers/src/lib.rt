//! Workers: a list of jobs, served by sessions on threads of their own.
//!
//! `serve` gives each session a worker. The workers take the numbers of the jobs from a channel, and answer each by
//! a call of their own session. Of a channel nothing is proved, so what the workers were told is counted: where
//! `serve` is Ok each job has exactly one reply. The layers above use that contract, and by it those of
//! `Session::call`.
#![tactic(auto)]

mod laws;
mod room;
mod serving;
mod tally;
mod told;
mod worker;

pub use laws::workers_limit_is_a_number;
pub use serving::{ServeCause, ServeRefusal, Served, WORKERS_MAX, serve};
pub use told::{Numbered, Told};
