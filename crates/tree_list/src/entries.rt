//! The nodes as a plain list, in which all is found by a scan from the front.
ghost use Rattle.std.specs.Prelude.{◌≡◌};
ghost use Rattle.tree_model.specs.State.{put_at};

use crate::read::{names_in, sorted};
use path_text::{LentName, Names, NoMemory};
use std::alloc::Global;
use std::marker::Model;
use tree_model::{Inode, Node, Object, Place, child, has_entries};
use tree_steps::NodeTable;

/// Gives a node another place. Every number that comes here is a node's; the definition leaves the nodes at another.
#[tactic(auto, using(crate::proofs::Nodes::put_at_from_set, crate::proofs::Nodes::put_at_past))]
pub fn put_at(nodes: &mut [Inode], x: Node, place: Option<Place>)
    ensures { nodes.new ≡ put_at nodes.old x place }
{
    let at = x.number() as usize;
    if at < nodes.len() {
        nodes[at].place = place;
    }
}

/// The nodes, each at the place of its number. Contracts see them as the list.
#[derive(Debug, Drop)]
pub(crate) struct ListNodes {
    pub(crate) inodes: Vec<Inode>,
}

impl Model for ListNodes {
    ghost use Rattle.std.specs.Prelude.{List};
    ghost use Rattle.tree_model.specs.declared.inode.Inode.{Inode};

    ghost Value = { List Inode };

    ghost view = { λ n. n.inodes.items };
}

impl NodeTable for ListNodes {
    ghost inodes = { λ nodes. nodes };

    fn as_slice(&self) -> &[Inode] {
        self.inodes.as_slice()
    }

    fn find(&mut self, dir: Node, name: &LentName<'_>) -> Option<Node> {
        child(&self.inodes, dir, name.bytes())
    }

    fn has_entries(&self, dir: Node) -> bool {
        has_entries(&self.inodes, dir)
    }

    fn names(&self, alloc: Global, dir: Node) -> Result<Names, NoMemory> {
        let names = names_in(alloc, &self.inodes, dir)?;
        sorted(alloc, names)
    }

    fn add(&mut self, _alloc: Global, place: Place, object: Object) -> Result<(), NoMemory> {
        let inode = Inode {
            object,
            place: Some(place),
        };
        self.inodes.push(inode)?;
        Ok(())
    }

    fn take_out(&mut self, _dir: Node, _name: &LentName<'_>, x: Node) {
        put_at(self.inodes.as_mut_slice(), x, None);
    }

    fn move_to(
        &mut self,
        _alloc: Global,
        _from: &Place,
        to: Place,
        moved: Node,
    ) -> Result<(), NoMemory> {
        put_at(self.inodes.as_mut_slice(), moved, Some(to));
        Ok(())
    }

    fn replace(&mut self, _from: &Place, to: Place, moved: Node, there: Node) {
        put_at(self.inodes.as_mut_slice(), there, None);
        put_at(self.inodes.as_mut_slice(), moved, Some(to));
    }

    fn exchange(&mut self, from: Place, to: Place, moved: Node, there: Node) {
        put_at(self.inodes.as_mut_slice(), moved, Some(to));
        put_at(self.inodes.as_mut_slice(), there, Some(from));
    }
}
