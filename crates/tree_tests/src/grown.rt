//! Nodes in a plain list, to which entries are added one by one.
use fixtures::{BASE, base_tree, entries};
use path_text::{Errno, LentName, NoMemory};
use std::alloc::Global;
use std::test::Fail;
use tree_list::{BuildFault, GrowingNodes, add_all};
use tree_model::{
    Inode, NUMBERS_MAX, Node, Object, Place, Tree, child, is_dir, is_gone, same_nodes,
};

/// Nodes by their numbers, in which a name is found by a scan.
#[derive(Drop)]
pub struct Listed {
    nodes: Vec<Inode>,
}

impl GrowingNodes for Listed {
    ghost inodes = { λ listed. listed.nodes.items };

    fn node_at(&self, parent: Node, name: &LentName<'_>) -> Option<Node> {
        child(&self.nodes, parent, name.bytes())
    }

    fn grow(
        &mut self,
        _alloc: Global,
        at: Place,
        object: Object,
    ) -> Result<Result<(), Errno>, NoMemory> {
        if !is_dir(&self.nodes, at.parent) {
            return Ok(Err(Errno::NotDir));
        }
        if is_gone(&self.nodes, at.parent) {
            return Ok(Err(Errno::NotFound));
        }
        if self.node_at(at.parent, &at.name.lend()).is_some() {
            return Ok(Err(Errno::Exists));
        }
        if self.nodes.len() >= NUMBERS_MAX {
            return Ok(Err(Errno::TooMany));
        }
        self.nodes.push(Inode {
            object,
            place: Some(at),
        })?;
        Ok(Ok(()))
    }
}

/// The top alone.
fn top_alone(alloc: Global) -> Result<Listed, NoMemory> {
    let mut nodes = Vec::new(alloc);
    nodes.push(Inode {
        object: Object::Dir,
        place: None,
    })?;
    Ok(Listed { nodes })
}

/// Why a list of entries is refused, and the nodes then.
pub fn grown(alloc: Global, rows: &str) -> Result<(Option<BuildFault>, Vec<Inode>), Errno> {
    let entries = entries(alloc, rows)?;
    let mut listed = top_alone(alloc)?;
    let fault = add_all(&mut listed, alloc, &entries).err();
    Ok((fault, listed.nodes))
}

/// Whether the base tree's entries make its nodes, and an entry that stands there already is refused after them.
fn are_grown(alloc: Global) -> Result<bool, Errno> {
    let base = base_tree(alloc)?.snapshot(alloc)?;
    let (fault, nodes) = grown(alloc, BASE)?;
    let (twice, kept) = grown(alloc, "/c/, /l -> c, /c")?;
    let is_twice = matches!(twice, Some(fault) if fault.at == 2 && fault.cause == Errno::Exists);
    Ok(fault.is_none() && same_nodes(&nodes, base.nodes()) && is_twice && kept.len() == 3)
}

#[test]
fn entries_are_added_to_listed_nodes(rt: HostRuntime) -> Result<(), Fail> {
    assert!(rt; are_grown(rt.alloc())?);
    Ok(())
}
