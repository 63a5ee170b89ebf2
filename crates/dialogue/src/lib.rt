//! Code that asks for system calls, over the answers that have come so far.
//!
//! A part of a call is written as ordinary code, from the answers to what is due: a system call with its arguments, or
//! the end. It asks by `ask`, and leaves by `?` where the answers run out. Whoever drives it runs it anew, from its
//! beginning, with one answer more each time. So it has no state but the list of answers.
#![tactic(auto)]

mod asking;
mod calls;
mod laws;

pub use asking::{Asked, ask};
pub use calls::{Answer, How, Question};
pub use laws::{checkpoints_are_kept, driving_is_talking, signals_may_be_left_out};
