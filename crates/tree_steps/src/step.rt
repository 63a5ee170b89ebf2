//! The single steps, each in the order of the step table.
ghost use Rattle.std.specs.Prelude.{◌≡◌};
ghost use Rattle.tree_model.specs.Steps.{outcome, held, is_full, opens, changes, on_handle};
ghost use Rattle.tree_model.specs.Entries.{makes};
ghost use Rattle.tree_model.specs.Trees.{HasPathText};
ghost use Rattle.tree_steps.specs.Changes.{IsStep, IsStepOr, answer_of};

use crate::below::names_down;
use crate::entries::{make, remove_dir, remove_file, rename};
use crate::tables::{HandleTable, NodeTable};
use crate::tree::TableTree;
use path_text::{Errno, LentBytes, LentName, NoMemory, Path};
use std::alloc::Global;
use tree_model::{
    Actor, Answer, HANDLES_MAX, HandleNo, Mode, NUMBERS_MAX, Node, Object, Place, StepOf, is_dir,
    object_at, parent,
};

// The answer to a change of the entries.
fn answer_of(change: Result<(), Errno>) -> Answer
    ensures { result ≡ answer_of change }
{
    match change {
        Ok(()) => Answer::Done,
        Err(error) => Answer::Refused(error),
    }
}

impl<N: NodeTable, H: HandleTable> TableTree<N, H> {
    // The node of a handle that is open and the actor's.
    fn node_held(&self, actor: Actor, handle: HandleNo) -> Option<Node>
        ensures { result ≡ held self.now actor handle }
    {
        match self.handles.as_slice().get(handle.number() as usize) {
            Some(Some(open)) if open.actor == actor => Some(open.node),
            _ => None,
        }
    }

    /// Whether the actor can open no more, or the numbers are used up.
    pub(crate) fn is_full(&self, actor: Actor) -> bool
        ensures { result ≡ is_full self.now actor }
    {
        self.handles.held(actor) >= HANDLES_MAX || self.handles.as_slice().len() >= NUMBERS_MAX
    }

    // Opens a node.
    fn open_node(&mut self, actor: Actor, x: Node) -> Result<Answer, NoMemory>
        ensures { IsStepOr self.old (opens self.old actor x) self.new result }
    {
        if self.is_full(actor) {
            return Ok(Answer::Refused(Errno::TooMany));
        }
        // Never missing in a well-formed tree (`lookups_lead_to_nodes`); the step table answers so.
        let Some(object) = object_at(self.nodes.as_slice(), x) else {
            return Ok(Answer::Refused(Errno::NotFound));
        };
        let kind = object.kind();
        let handle = self.handles.open(actor, x)?;
        Ok(Answer::Opened {
            handle,
            node: x,
            kind,
        })
    }

    /// Opens the child of that name, whatever it is (openat(2) with O_PATH and O_NOFOLLOW).
    pub(crate) fn open(
        &mut self,
        actor: Actor,
        dir: HandleNo,
        name: &LentName<'_>,
    ) -> Result<Answer, NoMemory>
        ensures { IsStepOr self.old (outcome self.old actor (StepOf.Open dir name.now)) self.new result }
    {
        let Some(dir) = self.node_held(actor, dir) else {
            return Ok(Answer::Refused(Errno::BadHandle));
        };
        if !is_dir(self.nodes.as_slice(), dir) {
            return Ok(Answer::Refused(Errno::NotDir));
        }
        let Some(there) = self.nodes.find(dir, name) else {
            return Ok(Answer::Refused(Errno::NotFound));
        };
        self.open_node(actor, there)
    }

    /// Opens the same node again (dup(2)).
    pub(crate) fn dup(&mut self, actor: Actor, handle: HandleNo) -> Result<Answer, NoMemory>
        ensures { IsStepOr self.old (outcome self.old actor (StepOf.Dup handle)) self.new result }
    {
        let Some(x) = self.node_held(actor, handle) else {
            return Ok(Answer::Refused(Errno::BadHandle));
        };
        self.open_node(actor, x)
    }

    /// Opens the directory in which a directory stands.
    pub(crate) fn open_parent(&mut self, actor: Actor, handle: HandleNo) -> Result<Answer, NoMemory>
        ensures { IsStepOr self.old (outcome self.old actor (StepOf.Parent handle)) self.new result }
    {
        let Some(x) = self.node_held(actor, handle) else {
            return Ok(Answer::Refused(Errno::BadHandle));
        };
        if !is_dir(self.nodes.as_slice(), x) {
            return Ok(Answer::Refused(Errno::NotDir));
        }
        let Some(dir) = parent(self.nodes.as_slice(), x) else {
            return Ok(Answer::Refused(Errno::NotFound));
        };
        self.open_node(actor, dir)
    }

    /// A link's text (readlinkat(2)).
    pub(crate) fn read_link(
        &self,
        alloc: Global,
        actor: Actor,
        handle: HandleNo,
    ) -> Result<Answer, NoMemory>
        ensures { IsStepOr self.now (outcome self.now actor (StepOf.ReadLink handle)) self.now result }
    {
        let Some(x) = self.node_held(actor, handle) else {
            return Ok(Answer::Refused(Errno::BadHandle));
        };
        match object_at(self.nodes.as_slice(), x) {
            Some(Object::Link(text)) => Ok(Answer::Text(text.copy(alloc)?)),
            // A directory or a file; in a well-formed tree never None (`lookups_lead_to_nodes`).
            _ => Ok(Answer::Refused(Errno::Invalid)),
        }
    }

    /// The names from the one handle's node down to the other's, if it stands below.
    pub(crate) fn name_below(
        &self,
        alloc: Global,
        actor: Actor,
        root: HandleNo,
        handle: HandleNo,
    ) -> Result<Answer, NoMemory>
        ensures { IsStepOr self.now (outcome self.now actor (StepOf.NameBelow root handle)) self.now result }
    {
        let Some(top) = self.node_held(actor, root) else {
            return Ok(Answer::Refused(Errno::BadHandle));
        };
        let Some(x) = self.node_held(actor, handle) else {
            return Ok(Answer::Refused(Errno::BadHandle));
        };
        match names_down(alloc, self.nodes.as_slice(), top, x)? {
            Some(names) => Ok(Answer::Names(names)),
            None => Ok(Answer::NotBelow),
        }
    }

    /// The names of a directory's entries by their bytes (getdents(2)).
    pub(crate) fn list(
        &self,
        alloc: Global,
        actor: Actor,
        handle: HandleNo,
    ) -> Result<Answer, NoMemory>
        ensures { IsStepOr self.now (outcome self.now actor (StepOf.List handle)) self.now result }
    {
        let Some(dir) = self.node_held(actor, handle) else {
            return Ok(Answer::Refused(Errno::BadHandle));
        };
        if !is_dir(self.nodes.as_slice(), dir) {
            return Ok(Answer::Refused(Errno::NotDir));
        }
        Ok(Answer::Listed(self.nodes.names(alloc, dir)?))
    }

    /// Closes a handle (close(2)). Takes no memory.
    pub(crate) fn close(&mut self, actor: Actor, handle: HandleNo) -> Answer
        ensures { IsStep (outcome self.old actor (StepOf.Close handle)) self.new result }
    {
        if self.node_held(actor, handle).is_none() {
            return Answer::Refused(Errno::BadHandle);
        }
        self.handles.close(actor, handle);
        Answer::Done
    }

    /// Makes a directory or a file (mkdirat(2), openat(2) with O_CREAT and O_EXCL).
    pub(crate) fn make(
        &mut self,
        alloc: Global,
        actor: Actor,
        dir: HandleNo,
        name: &LentName<'_>,
        object: Object,
    ) -> Result<Answer, NoMemory>
        requires { HasPathText object }
        ensures { IsStepOr self.old
            (on_handle self.old actor dir
            (λ d. changes self.old (makes self.old.nodes d name.now object))) self.new result }
    {
        let Some(dir) = self.node_held(actor, dir) else {
            return Ok(Answer::Refused(Errno::BadHandle));
        };
        let made = make(&mut self.nodes, alloc, dir, name, object)?;
        Ok(answer_of(made))
    }

    /// Makes a link (symlinkat(2)).
    pub(crate) fn make_link(
        &mut self,
        alloc: Global,
        actor: Actor,
        dir: HandleNo,
        name: &LentName<'_>,
        text: &LentBytes<'_>,
    ) -> Result<Answer, NoMemory>
        ensures { IsStepOr self.old (outcome self.old actor (StepOf.MakeLink dir name.now text.now)) self.new result }
    {
        let Some(dir) = self.node_held(actor, dir) else {
            return Ok(Answer::Refused(Errno::BadHandle));
        };
        if let Some(fault) = Path::fault_of(text.as_slice()) {
            return Ok(Answer::Refused(fault));
        }
        let object = Object::Link(text.copy(alloc)?);
        let made = make(&mut self.nodes, alloc, dir, name, object)?;
        Ok(answer_of(made))
    }

    /// Removes the entry of what is no directory (unlinkat(2)). Takes no memory.
    pub(crate) fn remove_file(&mut self, actor: Actor, dir: HandleNo, name: &LentName<'_>) -> Answer
        ensures { IsStep (outcome self.old actor (StepOf.RemoveFile dir name.now)) self.new result }
    {
        let Some(dir) = self.node_held(actor, dir) else {
            return Answer::Refused(Errno::BadHandle);
        };
        let removed = remove_file(&mut self.nodes, dir, name);
        answer_of(removed)
    }

    /// Removes the entry of an empty directory (unlinkat(2) with AT_REMOVEDIR). Takes no memory.
    pub(crate) fn remove_dir(&mut self, actor: Actor, dir: HandleNo, name: &LentName<'_>) -> Answer
        ensures { IsStep (outcome self.old actor (StepOf.RemoveDir dir name.now)) self.new result }
    {
        let Some(dir) = self.node_held(actor, dir) else {
            return Answer::Refused(Errno::BadHandle);
        };
        let removed = remove_dir(&mut self.nodes, dir, name);
        answer_of(removed)
    }

    /// Renames an entry (renameat2(2)).
    pub(crate) fn rename(
        &mut self,
        alloc: Global,
        actor: Actor,
        from: (HandleNo, &LentName<'_>),
        to: (HandleNo, &LentName<'_>),
        mode: Mode,
    ) -> Result<Answer, NoMemory>
        ensures { IsStepOr self.old
            (outcome self.old actor
            (StepOf.Rename from.entry.0 from.entry.1.now to.entry.0 to.entry.1.now mode)) self.new result }
    {
        let Some(dir) = self.node_held(actor, from.0) else {
            return Ok(Answer::Refused(Errno::BadHandle));
        };
        let Some(to_dir) = self.node_held(actor, to.0) else {
            return Ok(Answer::Refused(Errno::BadHandle));
        };
        let old_place = Place {
            parent: dir,
            name: from.1.copy(alloc)?,
        };
        let new_place = Place {
            parent: to_dir,
            name: to.1.copy(alloc)?,
        };
        let renamed = rename(&mut self.nodes, alloc, old_place, new_place, mode)?;
        Ok(answer_of(renamed))
    }
}
