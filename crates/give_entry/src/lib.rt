//! How a call opens the entry that it has just made, and sees that it is that one; as a dialogue.
//!
//! The layer above uses `give`. No function makes a system call or takes memory.
#![tactic(auto)]

mod giving;
mod laws;

pub use giving::{Made, give};
pub use laws::{
    calls_are_few, each_descriptor_is_closed_once_or_given, what_fits_is_given,
    what_is_given_was_seen_to_be_the_one, why_it_fails,
};
