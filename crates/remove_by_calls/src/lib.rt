//! Which call comes next as an entry is removed with all that is below it, where one call makes a bounded number of
//! steps and goes to a bounded depth.
//!
//! A call and what follows it are a dialogue: it asks for the call, at the root or in a place that a call came to, and
//! to keep or close such places in a table. Behind it comes the reply, or another call. No function makes a call or
//! takes memory.
#![tactic(auto)]

mod answers;
mod asking;
mod laws;
mod removal;

pub use answers::{Answer, Met};
pub use asking::{Asked, Question};
pub use laws::{removals_hold, what_is_busy_is_no_bound};
pub use removal::{Came, Removal, a_call, begin};
