//! A path of which as much is opened as is there: how many pieces of the path are tried and how, which descriptor is
//! closed, and where what is left of the path begins.
//!
//! A try is a dialogue: it asks to open so many pieces, and to close a descriptor. Behind it comes the reply, or
//! another try. No function makes a call or takes memory.
#![tactic(auto)]

mod asking;
mod beginnings;
mod laws;
mod search;
mod trials;

pub use asking::{Asked, Outcome, Question};
pub use beginnings::beginning;
pub use laws::tries_hold;
pub use search::{Came, Search, a_try, begin};
pub use trials::{Trial, trial_of};
