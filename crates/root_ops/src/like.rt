//! What is the same but for the numbers of its handles, and which handles these are.
mod aims;
mod answers;
mod calls;
mod requests;
mod steps;

pub use answers::{like_answers, like_standings, push_answer_handles};
pub use calls::like_roots;
