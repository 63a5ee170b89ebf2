//! Which call comes next as all missing parts of a path are made, through links: the directories of a path (`mkdir
//! -p`), or a file and all directories above it.
//!
//! A pass over the path is a dialogue: it asks to find what is at a path, to take its last name apart, to make
//! directories, to open as much of a path as is there, to make a file, or to read a link. Behind it comes the reply, or
//! another pass. No function makes a call or takes memory.
#![tactic(auto)]

mod asking;
mod laws;
mod making;
mod passes;

pub use asking::{Asked, Question};
pub use laws::{calls_hold, links_are_followed_in_turn};
pub use making::{Came, Making, begin};
pub use passes::pass;
