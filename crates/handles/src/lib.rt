//! Handles on objects that a walk opened, as types of what is known of them.
//!
//! A `Reached` was opened, and where it stands isn't checked. It can't be copied and can't be let go, so that a
//! program can't forget to check it or to close it. A `Standing` was checked. The layers above use that it comes
//! only from `Reached::judge`, by an answer of the very names that were expected, and that any other answer hands
//! the same `Reached` back. Both keep the owner that `Reached::of` was given. That the answer is one of the tree, to a
//! step of this owner's, is up to whoever asks. `Standing::copy` alone takes memory.
#![tactic(auto)]

mod owner;
mod states;

pub use owner::Owner;
pub use states::{Reached, Standing};
