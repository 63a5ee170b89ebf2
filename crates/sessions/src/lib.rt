//! Threads over one locked book, and closing it.
//!
//! A `Service` holds a tree's `Book` under one lock, and hands out a `Session` for each root. A session's `call` makes
//! the steps of one operation, each in a lock hold of its own, and keeps its own log of them. What was done under the
//! lock no contract can tell, so `Stopped::close` compares: where it is Ok the book's history is legal from the
//! opening, and each session's log is exactly its own events there. The layers above use these three contracts, and
//! the laws of `laws.rt`, which say what a call's reply tells in the closed history.
#![tactic(auto)]

mod call;
mod close;
mod gate;
mod laws;
mod open;
mod service;
mod session;
mod shared;

pub use close::{CloseCause, CloseRefusal, Closed, Stopped};
pub use gate::{Gate, NoGate, Pause};
pub use laws::{
    calls_stand_in_order, each_call_tells_in_threads, services_tell, sessions_limit_is_a_number,
    walks_tell_in_threads,
};
pub use open::{OpenCause, OpenRefusal, SESSIONS_MAX};
pub use service::Service;
pub use session::Session;
