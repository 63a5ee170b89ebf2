//! Single steps on a tree by system calls of Linux, each as a dialogue: which system call comes next, with all its
//! arguments, and how the step ends by what those before gave. And how a change ends by its one system call.
//!
//! No function makes a system call or takes memory.
#![tactic(auto)]

mod asks;
mod changes;
mod ended;
mod laws;
mod links;
mod opens;
mod parents;

pub use asks::look_error;
pub use changes::change_ended;
pub use ended::{Ended, There};
pub use laws::{
    changes_stood, closes_stood, dups_stood, links_were_read, opens_stood, parents_stood,
    steps_keep_rules, there_stood,
};
pub use links::{LinkEntry, read_link_step};
pub use opens::{close_step, dup_step, open_step};
pub use parents::{is_there, parent_step};
