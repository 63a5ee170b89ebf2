//! How to call this repository's crates: three callers, small and proved, to be copied.
//!
//! `lookup` opens what a path means on a tree on which nobody else acts, and closes it again. `among_others` drives a
//! walk step by step while others change the tree between its steps, and tells what `specs/AmongOthers.antt` says of
//! its end. `counting` is a tree of one's own: it meets the contract of `Tree` by handing each step on. Which contract
//! to cite for what, and in which order the calls come, is in docs/USING.md, which quotes the three.
#![tactic(auto)]

mod among_others;
mod counting;
mod lookup;

pub use among_others::{EachTurn, Others, resolve_among};
pub use counting::Counting;
pub use lookup::{look_up, node_at};
