//! Path texts, the names and parts that they are made of, and the errors of path resolution.
//!
//! A path text is read as a list of parts: what stands between its slashes, as `.`, `..` or a name
//! (POSIX.1, Pathname Resolution; path_resolution(7)). The layers above use `Path::parse`, whose
//! contract is that reading, and `Path::split_last`, which takes the last name off. The laws say what
//! the reading is in POSIX.1's words: each text is slashes and pieces in one way, and is read as that.
#![tactic(auto)]

mod bytes;
mod errno;
mod flags;
mod laws;
mod lent;
mod name;
mod names;
mod parse;
mod part;
mod parts;
mod path;
mod places;
mod split;
mod texts;

pub use bytes::Bytes;
pub use errno::{Errno, NoMemory};
pub use flags::Flags;
pub use laws::{
    printed_names_are_read, spellings_are_read, spellings_are_unique, text_limits_are_numbers,
    texts_are_spelled,
};
pub use lent::{LentBytes, LentName};
pub use name::{NAME_MAX, Name, SLASH};
pub use names::Names;
pub use part::{Component, Part};
pub use parts::Parts;
pub use path::{PARTS_MAX, Path, Rule, Split, TEXT_MAX};
pub use texts::{
    before_piece, before_slashes, begins_with_slash, count_pieces, ends_with_slash,
    has_final_slash, name_length,
};
