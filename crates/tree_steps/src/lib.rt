//! How a tree that is kept as two tables answers the steps: `TableTree` is a `Tree`, whatever its tables.
//!
//! `NodeTable` and `HandleTable` say what a table looks up and changes; here is what is asked of them for each step, in
//! the order of the step table. The trees above give their tables, and use the contract of `Tree`.
#![tactic(auto)]

mod below;
mod entries;
mod read;
mod step;
mod tables;
mod tree;

pub use entries::make_fault;
pub use read::{directory_at, is_within, names_below};
pub use tables::{HandleTable, NodeTable, copy_nodes};
pub use tree::TableTree;
