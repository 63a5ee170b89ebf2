//! The handles as a plain list.

use path_text::NoMemory;
use std::alloc::Global;
use std::marker::Model;
use tree_model::{Actor, HandleNo, Node, OpenHandle};
use tree_steps::HandleTable;

/// The handles, each at the place of its number, a closed one as None. Contracts see them as the list.
#[derive(Debug, Drop)]
pub(crate) struct ListHandles {
    pub(crate) places: Vec<Option<OpenHandle>>,
}

impl Model for ListHandles {
    ghost use Rattle.std.specs.Prelude.{List, Option};
    ghost use Rattle.tree_model.specs.declared.inode.OpenHandle.{OpenHandle};

    ghost Value = { List (Option OpenHandle) };

    ghost view = { λ h. h.places.items };
}

impl HandleTable for ListHandles {
    ghost places = { λ handles. handles };

    fn as_slice(&self) -> &[Option<OpenHandle>] {
        self.places.as_slice()
    }

    fn held(&self, actor: Actor) -> usize {
        self.places
            .iter()
            .filter(|place| matches!(place, Some(open) if open.actor == actor))
            .count()
    }

    fn open(&mut self, actor: Actor, node: Node) -> Result<HandleNo, NoMemory> {
        let handle = HandleNo::new(self.places.len() as u64);
        self.places.push(Some(OpenHandle { actor, node }))?;
        Ok(handle)
    }

    fn close(&mut self, _actor: Actor, handle: HandleNo) {
        let at = handle.number() as usize;
        self.places[at] = None;
    }
}
