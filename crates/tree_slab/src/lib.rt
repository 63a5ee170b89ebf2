//! The indexed tree: nodes and handles in tables by their numbers, the entries of each standing directory in
//! an ordered map of its own, and the maps in a slab. What was looked up last in large
//! directories is remembered in front of them.
//!
//! It is a `Tree`, exactly as the plain one is. Entries are found, made, removed and renamed in a time that is
//! logarithmic in the directory, and an actor's open handles are counted. `SlabTree::add_all` builds it of a list of
//! entries.
//!
//! A `DentryCache` remembers of an entry, which is a directory and a name in it, the node to which it leads, or that
//! there is no such entry (a negative dentry of the kernel's dcache, path_resolution(7)). It is a list, the most
//! recently used entry first, none twice, and at most as many as its cap: each call says which list it leaves. So what
//! a look-up finds is what was noted last of that entry and not forgotten since (the law `hits_are_noted_last`).
#![tactic(auto)]

mod cache;
mod cached;
mod directories;
mod entry_map;
mod handles;
mod held;
mod key;
pub mod laws;
mod nodes;
mod tree;

pub use cache::{CAP_MAX, DentryCache};
pub use tree::SlabTree;
