//! What a call of the library does from its beginning to its result, as a dialogue of a driver's things; and which
//! descriptor it hands out.
//!
//! A driver does these things, one at a time: it makes a try of the call, closes what was opened. The code asks for the
//! thing that is due, over what those before gave. No function does any of them, or takes memory.
#![tactic(auto)]

mod laws;
mod runs;
mod taking;
mod things;
mod tries;

pub use laws::{calls_hold, what_is_taken_is_the_calls_own};
pub use runs::Run;
pub use taking::{Taking, take};
pub use things::{Answer, Asked, Facts, Thing, ask};
pub use tries::{LAST, Tried, a_try, pause_before};
