//! Trees that can be copied.
ghost use Rattle.std.specs.Prelude.{◌≡◌, IfOk};

use path_text::NoMemory;
use std::alloc::Global;
use tree_list::ListTree;
use tree_model::Tree;

/// A tree that can be copied.
pub trait CopyTree: Tree {
    /// A tree in the same state: equal nodes and the same open handles, by the same numbers. NoMemory where its room
    /// was refused.
    fn copy_tree(&self, alloc: Global) -> Result<Self, NoMemory>
        ensures { IfOk result (λ copy. Self.state copy ≡ Self.state self.now) };
}

impl CopyTree for ListTree {
    fn copy_tree(&self, alloc: Global) -> Result<ListTree, NoMemory> {
        self.copy(alloc)
    }
}
