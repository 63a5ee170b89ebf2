//! A directory that is listed: which system call comes next, and how many bytes of names the directory gets.
//!
//! A part of a listing is a dialogue: it asks to open, read and close the directory, and to sort the names. Behind it
//! comes the end, or another part. The names of the records that were read are taken here. No function makes a system
//! call or takes memory.
#![tactic(auto)]

mod asking;
mod laws;
mod parts;
mod reading;
mod taking;

pub use asking::{Asked, Outcome, Question};
pub use laws::{
    a_part_is_bounded, all_levels_are_bounded, listings_hold, names_are_those_of_the_records,
};
pub use parts::part_size;
pub use reading::{Came, Listing, a_part};
pub use taking::take_read;
