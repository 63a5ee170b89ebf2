//! Steps, answers and events as text and as records.
//!
//! A line of a transcript is made of words with a blank between two. A byte of a name, a path or a text that could be
//! taken for a blank or for the end of a line is written in hexadecimal, so each step has one line, and `read_step`
//! finds a step only in the line that it is written as.
//!
//! An `EventLog` keeps each event as a record of a few words, with the names and texts of all of them in one buffer.
//! Contracts see it as the list of its events, and the room that it has got already. The layers above use `push`, which
//! adds exactly one event at the end or nothing, `push_close`, which takes no memory where there is room, and `event`,
//! `is` and `same_at`, which read a log back and compare it. That what is read is what was added follows from the one
//! invariant of the type, `IsLog` of `specs/Records.antt`.
#![tactic(auto)]

mod compare;
mod head;
mod laws;
mod log;
mod output;
mod print;
mod read;
mod reader;
mod shape;
mod words;
mod write;

pub use head::AnswerHead;
pub use laws::names_are_told_apart;
pub use log::EventLog;
pub use output::Output;
pub use reader::read_step;
