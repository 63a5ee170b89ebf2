//! What a try of a call holds, and what is known of it.
use crate::by_steps::name::Name;
use crate::by_steps::passed::Passed;
use crate::by_steps::slots::{Handles, Slot};
use crate::by_steps::state::Stage;
use crate::request::{REMOVE_ALL, Request};
use crate::steps::parts_of;
use crate::walk::{EXACT, has};
use find_proc::Proc;
use std::alloc::Global;
use system_calls::errors::ENOMEM;
use tree_model::LentStep;

// So many levels deep goes one proved call that removes a tree: it holds a descriptor of each directory above.
const LEVELS: u32 = 20;

#[derive(Drop)]
pub(crate) struct Attempt {
    pub handles: Handles,
    pub passed: Passed,
    /// The names of the directory that was listed last.
    pub names: Vec<u8>,
    /// The directory from which another call is to go on, and the entry there. Of a tree that is removed, the entry
    /// that was opened last.
    pub deepest: Option<u32>,
    pub deepest_name: Name,
    /// The /proc that was found to be one.
    pub proc: Option<Proc>,
    /// What was made and opened.
    pub made: Option<u32>,
    /// So many entries were removed; and so many bytes of names the call holds.
    pub removed: u64,
    pub listed: usize,
    /// Of a tree that is removed: the directory that was opened last, in that one.
    pub entered: u64,
    pub above: u64,
    /// Why a step wasn't made: the call ends by this; and why what was made couldn't be opened. Or 0.
    pub unmade: u32,
    pub unopened: u32,
    /// The step that was asked for last, but for Close, and what that was about.
    pub step: u8,
    pub step_name: Name,
    /// A step was due, but for Close: each walk's first one opens the root anew.
    pub stepped: bool,
    /// A tree is removed; and its first entry's turn has come.
    pub counts: bool,
    pub begun: bool,
    /// An entry was changed.
    pub changed: bool,
    /// The last check is the kernel's alone.
    pub below: bool,
}

impl Attempt {
    pub(crate) fn new(alloc: Global) -> Attempt {
        Attempt {
            handles: Handles::new(alloc),
            passed: Passed::new(alloc),
            names: Vec::new(alloc),
            deepest: None,
            deepest_name: Name::empty(),
            proc: None,
            made: None,
            removed: 0,
            listed: 0,
            entered: 0,
            above: 0,
            unmade: 0,
            unopened: 0,
            step: 0,
            step_name: Name::empty(),
            stepped: false,
            counts: false,
            begun: false,
            changed: false,
            below: false,
        }
    }

    /// Nothing is known, and nothing is open.
    pub(crate) fn reset(&mut self, request: &Request) {
        self.handles.clear();
        self.passed.clear();
        self.names.clear();
        self.deepest = None;
        self.proc = None;
        self.made = None;
        self.removed = 0;
        self.listed = 0;
        self.entered = 0;
        self.above = 0;
        self.unmade = 0;
        self.unopened = 0;
        self.step = 0;
        self.step_name.clear();
        self.stepped = false;
        self.begun = false;
        self.changed = false;
        self.counts = request.what == REMOVE_ALL;
        self.below = !has(request.flags, EXACT);
    }

    /// A step is due, but for Close. It and its name are kept, in case the call fails.
    pub(crate) fn note(&mut self, step: &LentStep<'_>) {
        let (number, _, name) = parts_of(step);
        self.stepped = true;
        self.step = number;
        self.step_name.keep(name);
    }

    // ---- what is opened

    /// Room for one more handle comes before what is opened.
    pub(crate) fn reserve(&mut self) -> Stage {
        if self.handles.reserve() {
            Stage::Step
        } else {
            Stage::Unmade(ENOMEM)
        }
    }

    /// Notes which entry of a tree that is removed is opened. A tree that is too deep for the call is left there.
    pub(crate) fn enter(&mut self, dir: u64, name: &[u8]) -> Stage {
        self.deepest_name.keep(name);
        if self.handles.at(dir).depth >= LEVELS {
            self.leave(dir)
        } else {
            self.reserve()
        }
    }

    /// The call ends, and leaves the entry whose turn it is in this directory, which it hands over: another goes on
    /// from there.
    pub(crate) fn leave(&mut self, dir: u64) -> Stage {
        let slot = self.handles.at(dir);
        self.deepest = slot.fd;
        self.handles.set(dir, Slot { fd: None, ..slot });
        Stage::Unmade(ENOMEM)
    }

    /// A handle on what was opened by a name. Keeps by which names the walk has come there, or how deep that is in a
    /// tree that is removed.
    pub(crate) fn opened(&mut self, dir: u64, name: &[u8], slot: Slot) -> u64 {
        if !self.begun {
            let handle = self.handles.put(slot);
            let handles = &self.handles;
            self.passed.keep_name(handles, dir, name, handle, slot.kind);
            return handle;
        }
        let depth = self.handles.at(dir).depth.saturating_add(1);
        let handle = self.handles.put(Slot { depth, ..slot });
        self.entered = handle;
        self.above = dir;
        handle
    }

    pub(crate) fn owns_proc(&self) -> bool {
        match self.proc {
            Some(proc) => proc.own,
            None => false,
        }
    }
}
