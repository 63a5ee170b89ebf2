//! What the merge of parts writes, and what the one search writes: laws, each the contract of a function without a
//! body.
#![tactic(auto)]

mod laws;

pub use laws::{
    agreeing_lists_are_told_alike, merged_lines_are_the_whole, merged_parts_are_the_whole,
    merged_parts_of_a_script_are_the_whole, parts_without_gaps_are_all, replies_say_no_handles,
};
