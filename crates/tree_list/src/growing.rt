//! Nodes to which entries are added one by one.
ghost use Rattle.std.specs.Prelude.{◌≡◌, List};
ghost use Rattle.tree_model.specs.declared.inode.Inode.{Inode};
ghost use Rattle.tree_model.specs.State.{child};
ghost use Rattle.tree_model.specs.Entries.{makes};
ghost use Rattle.tree_model.specs.Trees.{HasPathText};
ghost use Rattle.tree_steps.specs.Changes.{IsGrowth};

use path_text::{Errno, LentName, NoMemory};
use std::alloc::Global;
use tree_model::{Node, Object, Place};

/// Nodes to which entries are added one by one, however they are kept and found.
pub trait GrowingNodes {
    /// The nodes by their numbers.
    ghost inodes: { Self → List Inode };

    /// The node at the entry of that name in a directory; there is none in what isn't one.
    fn node_at(&self, parent: Node, name: &LentName<'_>) -> Option<Node>
        ensures { result ≡ child (inodes self.now) parent name.now };

    /// Makes a node at an entry that wasn't there. NoMemory where its room was refused, which changes nothing.
    fn grow(
        &mut self,
        alloc: Global,
        at: Place,
        object: Object,
    ) -> Result<Result<(), Errno>, NoMemory>
        requires { HasPathText object }
        ensures { IsGrowth (inodes self.old) (inodes self.new)
            (makes (inodes self.old) at.parent at.name object) result };
}
