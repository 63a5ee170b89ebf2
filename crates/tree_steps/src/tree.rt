//! A tree of two tables, and that it is a `Tree`.

use crate::read::directory_at;
use crate::tables::{HandleTable, NodeTable, copy_nodes};
use path_text::{Errno, Names, NoMemory};
use std::alloc::Global;
use std::marker::Model;
use tree_model::{Actor, Answer, HandleNo, LentStep, Object, Snapshot, StepOf, Tree};

/// A tree that is kept as these tables. Contracts see it as its state.
#[derive(Debug, Drop)]
pub struct TableTree<N: NodeTable, H: HandleTable> {
    pub nodes: N,
    pub handles: H,
}

impl<N: NodeTable, H: HandleTable> Model for TableTree<N, H> {
    ghost use Rattle.tree_model.specs.State.{State};

    ghost Value = { State };

    ghost view = { λ t. record { nodes = N.inodes t.nodes; handles = H.places t.handles } };
}

impl<N: NodeTable, H: HandleTable> Tree for TableTree<N, H> {
    ghost state = { λ tree. tree };

    fn step(
        &mut self,
        alloc: Global,
        actor: Actor,
        step: &LentStep<'_>,
    ) -> Result<Answer, NoMemory> {
        match step {
            StepOf::Open(dir, name) => self.open(actor, *dir, name),
            StepOf::Dup(handle) => self.dup(actor, *handle),
            StepOf::Parent(handle) => self.open_parent(actor, *handle),
            StepOf::ReadLink(handle) => self.read_link(alloc, actor, *handle),
            StepOf::NameBelow(root, handle) => self.name_below(alloc, actor, *root, *handle),
            StepOf::List(handle) => self.list(alloc, actor, *handle),
            StepOf::Close(handle) => Ok(self.close(actor, *handle)),
            StepOf::MakeDir(dir, name) => self.make(alloc, actor, *dir, name, Object::Dir),
            StepOf::MakeFile(dir, name) => self.make(alloc, actor, *dir, name, Object::File),
            StepOf::MakeLink(dir, name, text) => self.make_link(alloc, actor, *dir, name, text),
            StepOf::RemoveFile(dir, name) => Ok(self.remove_file(actor, *dir, name)),
            StepOf::RemoveDir(dir, name) => Ok(self.remove_dir(actor, *dir, name)),
            StepOf::Rename(from, old, to, new, mode) => {
                self.rename(alloc, actor, (*from, old), (*to, new), *mode)
            }
        }
    }

    fn grant(&mut self, _alloc: Global, actor: Actor, names: &Names) -> Result<HandleNo, Errno> {
        let dir = directory_at(self.nodes.as_slice(), names)?;
        if self.is_full(actor) {
            return Err(Errno::TooMany);
        }
        Ok(self.handles.open(actor, dir)?)
    }

    fn held(&self, actor: Actor) -> usize {
        self.handles.held(actor)
    }

    fn snapshot(&self, alloc: Global) -> Result<Snapshot, NoMemory> {
        let nodes = copy_nodes(alloc, self.nodes.as_slice())?;
        let handles = Vec::from_slice(alloc, self.handles.as_slice())?;
        Ok(Snapshot::new(nodes, handles))
    }
}
