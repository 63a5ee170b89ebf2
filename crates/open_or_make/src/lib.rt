//! Which call comes next as a file is opened, or made, or made where it is missing, through links, by flags of open(2);
//! and what each call is asked for.
//!
//! A pass over the path is a dialogue: it asks to find what is at the path, to create a file there, or to read the link
//! that is there. Behind it comes the reply, or another pass. No function makes a call or takes memory.
#![tactic(auto)]

mod asking;
mod course;
mod laws;
mod paths;
mod requests;

pub use asking::{Asked, Outcome, Question};
pub use course::{Came, Course, begin, pass};
pub use laws::{calls_hold, links_are_followed_in_turn, one_call_is_all};
pub use paths::{behind, front, front_length, joined_length, lay_link, rest_at};
pub use requests::{Request, request_of};
