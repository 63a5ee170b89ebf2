//! A copy of a book.
ghost use Rattle.std.specs.Prelude.{◌≡◌, IfOk};

use super::Book;
use crate::copy_tree::CopyTree;
use path_text::NoMemory;
use std::alloc::Global;
use tree_list::copy_nodes;
use tree_model::Snapshot;

// An equal snapshot.
fn copy_snapshot(alloc: Global, snapshot: &Snapshot) -> Result<Snapshot, NoMemory>
    ensures { IfOk result (λ copy. copy ≡ snapshot.now) }
{
    let nodes = copy_nodes(alloc, snapshot.nodes())?;
    let handles = Vec::from_slice(alloc, snapshot.handles())?;
    Ok(Snapshot::new(nodes, handles))
}

impl<T: CopyTree> Book<T> {
    /// An equal book over a copy of the tree. NoMemory where room was refused.
    pub fn copy(&self, alloc: Global) -> Result<Book<T>, NoMemory>
        ensures { IfOk result (λ copy. copy ≡ self.now) }
    {
        let opening = copy_snapshot(alloc, &self.opening)?;
        let events = self.events.copy(alloc, self.open_handles)?;
        // The tree comes last, since it may not be one that can be let go.
        Ok(Book {
            tree: self.tree.copy_tree(alloc)?,
            opening,
            events,
            lines: self.lines,
            open_handles: self.open_handles,
        })
    }
}
