//! At which names below the root an object stands: as a walk asks, and as a program does.
use crate::by_steps::search::Found;
use crate::by_steps::slots::{ROOT, Slot};
use crate::by_steps::state::{Ended, Part, Stage, Steps};
use crate::by_steps::witnesses::look_up;
use dialogue::{Answer as Gave, Asked};
use find_place::{
    ASK, AT_ROOT, BY_NAME, Held, LOOK_UP, SEEN_BELOW, before_questions, behind_look_up,
};
use find_proc::Known;
use std::alloc::Global;

const DIRECTORY: u8 = 1;

impl Steps {
    /// What comes before the questions. The text behind that look-up says what is gone.
    pub(crate) fn before_due<'s>(
        &'s self,
        known: &mut Known,
        answers: &mut &[Gave],
        handle: u64,
    ) -> Asked<'s, Part> {
        let handles = &self.attempt.handles;
        let slot = handles.at(handle);
        let names = self.attempt.passed.names_of(handle);
        let held = Held {
            way: slot.way,
            above: false,
            directory: slot.kind == DIRECTORY,
            named: names.is_some(),
            below: self.attempt.below,
        };
        let first = before_questions(&held);
        match names {
            Some(names) if first == LOOK_UP => {
                let root = handles.fd(ROOT);
                let fd = handles.fd(handle);
                let found = look_up(answers, known, root, fd, names)?.opened;
                Ok(Part::Before(behind_look_up(&held, found.is_some()), found))
            }
            _ => Ok(Part::Before(first, None)),
        }
    }

    /// The walk goes on from a directory by the names that were found.
    pub(crate) fn before_asked(&mut self, alloc: Global, next: u8, found: Option<u32>) {
        let handle = self.talk.handle();
        let mut slot = self.attempt.handles.at(handle);
        if found.is_some() {
            slot.fd = found;
            slot.way = SEEN_BELOW;
            self.attempt.handles.set(handle, slot);
        }
        if next == ASK {
            self.search.begin(self.attempt.handles.fd(ROOT), slot, None);
            self.stage = Stage::Place;
            return;
        }
        if next == AT_ROOT && slot.kind == DIRECTORY {
            self.attempt.passed.keep_place(handle, b"/");
        }
        self.stands_passed(alloc, next == AT_ROOT);
    }

    /// Takes the answer to a question about a place. READ: the text that was read last.
    pub(crate) fn place_asked(
        &mut self,
        alloc: Global,
        found: Found,
        read: &mut [u8],
    ) -> Option<Ended> {
        if let Found::Link(link) = found {
            self.attempt.proc = link.proc;
        }
        self.search.take(found, read);
        let (error, length) = match self.search.told() {
            None => return None,
            Some(Ok(length)) => (0, length),
            Some(Err(error)) => (error, 0),
        };
        if self.course.next == call_course::Thing::Place {
            return self.placed(error, length as u64, read);
        }
        self.place_found(alloc, error);
        None
    }

    fn place_found(&mut self, alloc: Global, error: u32) {
        let handle = self.talk.handle();
        let held = self.search.held();
        self.attempt.handles.set(handle, held);
        if error != 0 {
            self.unmade(error);
            return;
        }
        if held.kind == DIRECTORY {
            self.attempt.passed.keep_place(handle, self.search.names());
        }
        self.stands_found(alloc);
    }

    /// A program asks: the object isn't looked at yet.
    pub(crate) fn begin_to_ask(&mut self) {
        let unheld = Slot::new(None, 0, BY_NAME);
        self.search.begin(self.root, unheld, Some(self.request.fd));
        self.stage = Stage::Place;
    }
}
