//! What is asked of a search of schedules, and the parts of its answer as lines of text. Nothing is searched here.
//!
//! `read_asked` reads what is asked off the texts of a command line's options. A *part* is what was found of the
//! schedules that begin with some turns (`outcome_text`). `part_text` is its line of JSON, which ends with its digest
//! (`sum_of`). `merge_parts` reads such lines and writes the one text that they make.
//!
//! `explore_command` writes the lines of parts by the contract of `part_text`; `merge_laws` says by that of
//! `merge_parts` what merged lines say. None of it depends on `explore`, so it is proved beside it.
#![tactic(auto)]

mod asked;
mod laws;
mod lists;
mod merge;
mod options;
mod part_lines;
mod part_read;
mod seal;

pub use asked::{Asked, MEGABYTE, MEMORY_MAX, TURNS_MAX};
pub use laws::{explore_limits_are_numbers, lines_say_their_parts, values_say_one_part};
pub use merge::{LINE_BYTES_MAX, MERGED_BYTES_MAX, MERGED_MAX, merge_parts};
pub use options::{CUTS_MAX, STATES, STATES_MAX, read_asked};
pub use part_lines::part_text;
pub use seal::sum_of;
