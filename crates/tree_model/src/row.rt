//! The rows of a tree's table of entries.
ghost use Rattle.std.specs.Prelude.{◌≡◌, IfOk};
ghost use Rattle.tree_model.specs.Rows.{rows_of, rows_in_order};

use crate::inode::Inode;
use crate::number::Node;
use path_text::{Name, NoMemory};
use std::alloc::Global;

/// A directory entry: the directory, the name, and the node that stands there. Rows are in the order of the
/// directory's number, then of the name's bytes.
#[derive(Debug, Drop, PartialEq, Eq, PartialOrd, Ord)]
pub struct Row {
    pub parent: Node,
    pub name: Name,
    pub child: Node,
}

// The row of each node that stands somewhere, as the nodes are numbered.
fn rows_of(alloc: Global, nodes: &[Inode]) -> Result<Vec<Row>, NoMemory>
    ensures { IfOk result (λ rows. rows.items ≡ rows_of nodes.now) }
{
    let mut rows = Vec::new(alloc);
    for (x, inode) in nodes.iter().enumerate() {
        if let Some(place) = &inode.place {
            let name = place.name.copy(alloc)?;
            rows.push(Row {
                parent: place.parent,
                name,
                child: Node::new(x as u64),
            })?;
        }
    }
    Ok(rows)
}

// The same in order.
pub(crate) fn rows_in_order(alloc: Global, nodes: &[Inode]) -> Result<Vec<Row>, NoMemory>
    ensures { IfOk result (λ rows. rows.items ≡ rows_in_order nodes.now) }
{
    let mut rows = rows_of(alloc, nodes)?;
    rows.sort_unstable();
    Ok(rows)
}
