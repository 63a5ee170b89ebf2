//! A call by single steps: its driver, which keeps between two turns what the system calls so far have given.
//!
//! The proved rooms say which one thing comes next: `root_ops` of a call's steps, `linux_steps` of a step's system
//! calls, `find_place` of an object's place, `list_directory` of a listing, `call_course` of a call's tries,
//! `remove_by_calls` of a removal. Here each of these is asked for by its system calls.
mod answers;
mod attempt;
mod changing;
mod course;
mod listing;
mod name;
mod passed;
mod place;
mod removal;
mod search;
mod slots;
mod state;
mod step;
mod talk;
mod there;
mod tries;
mod witnesses;
mod work;

pub(crate) use state::{Ended, Part, Steps};
