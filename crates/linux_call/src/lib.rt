//! Calls of the C library, each from its request to its reply: a system call with its arguments comes out, and what
//! it gave goes in. The kernel walks a path by one openat2(2); where it doesn't, single steps make the call.
//!
//! A call is ordinary code over the answers so far (`dialogue`). Single steps, and calls that are made up of several,
//! keep what they have come to beside. The layer above uses `turn`.
#![tactic(auto)]

mod attributes;
mod by_steps;
mod calls;
mod due;
mod first;
mod inner;
mod kept;
mod make_all;
mod makes;
mod open_at;
mod path;
mod proc_files;
mod progress;
mod request;
mod run;
mod several;
mod steps;
mod turns;
mod walk;

pub use due::Due;
pub use kept::{Kept, State};
pub use request::Request;
pub use turns::turn;
