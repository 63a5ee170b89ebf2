//! At which names an object stands below a root, as a dialogue: which question a driver asks the kernel next, and what
//! follows from the answers. Linux has no system call for this.
//!
//! `place` is what a walk asks, and `ask_place` what a program does of a descriptor, as often as `next_question` says.
//! Each question is about one system call or two. Before them `before_questions` says whether the names are enough by
//! which a walk has come to the object. No function makes a system call, or takes memory. `specs/Witness.antt` says
//! what the kernel has answered wherever a place is told.
#![tactic(auto)]

mod again;
mod asking;
mod held;
mod laws;
mod places;
mod questions;

pub use again::{NextQuestion, next_question};
pub use asking::ask_place;
pub use held::{
    ASK, AT_NAMES, AT_ROOT, BY_NAME, BY_PARENT, BY_ROOT, Held, LOOK_UP, SEEN_BELOW,
    before_questions, behind_look_up,
};
pub use laws::{
    agreeing_witnesses_are_told, calls_hold, names_are_looked_up_first,
    names_are_told_by_the_kernels_check, names_lie_in_the_text, only_the_root_is_at_itself,
    places_are_witnessed, places_stood, places_were_passed, questions_are_few,
    questions_come_to_an_end,
};
pub use places::{Facts, Told, finds_object, place};
pub use questions::{Answer, Asked, Question};
