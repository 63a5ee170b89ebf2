//! A plain tree of two lists: the nodes and the open handles, each at the place of its number.
//!
//! The steps (`tree_steps`) find everything by a scan from the front, so that the tree is slow and easily seen to be
//! right. Only where it is built of a list of entries an index stands beside the nodes. The layers above use it as a
//! `Tree`, whose contract is the step table. `add_all` adds a list of entries to nodes that are kept in another way
//! (`GrowingNodes`), by the same rule.
#![tactic(auto)]

mod build;
mod entries;
mod growing;
mod handles;
mod indexed;
mod read;
mod tree;

pub use build::{BuildFault, Entry, New, add_all};
pub use entries::put_at;
pub use growing::GrowingNodes;
pub use tree::ListTree;
pub use tree_steps::{copy_nodes, directory_at, is_within, names_below};
