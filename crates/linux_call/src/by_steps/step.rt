//! Each step that a proved call asks for: what comes before its system calls, and what its end is to the call.
use crate::by_steps::answers::{LINK, listed, names, number_of, opened, text, unmade};
use crate::by_steps::attempt::Attempt;
use crate::by_steps::listing::Names;
use crate::by_steps::slots::Slot;
use crate::by_steps::state::{Part, Stage, Steps};
use crate::by_steps::work::{Work, make};
use crate::path::piece;
use dialogue::{Answer, Asked, Question, ask};
use find_place::{BY_NAME, BY_PARENT, BY_ROOT};
use find_proc::Known;
use linux_steps::{Ended, LinkEntry};
use list_directory::Came;
use std::alloc::Global;
use system_calls::errors::{EMFILE, ENFILE};
use tree_model::{Answer as Answered, Kind, LentStep, StepOf};

// What comes before the system calls of a step.
fn stage_of(attempt: &mut Attempt, listing: &mut Names, step: &LentStep<'_>) -> Stage {
    if let StepOf::Close(_) = step {
        return Stage::Step;
    }
    attempt.note(step);
    match step {
        StepOf::Open(dir, name) if attempt.begun => attempt.enter(dir.number(), name.bytes()),
        StepOf::Open(_, _) | StepOf::Dup(_) | StepOf::Parent(_) => attempt.reserve(),
        StepOf::List(_) => {
            listing.begin(attempt.listed);
            Stage::Listing
        }
        _ => Stage::Step,
    }
}

impl Steps {
    /// What is due by the proved call: a step, or the end.
    pub(crate) fn tell(&mut self) {
        let Steps {
            talk,
            attempt,
            listing,
            stage,
            ..
        } = self;
        *stage = match talk.step() {
            Some(step) => stage_of(attempt, listing, &step),
            None => Stage::Replied,
        };
    }

    // ---- the system calls

    // A link's text. Its entry is where it was opened last, if that directory is open still.
    fn read_text_of(&self, handle: u64) -> Work<'_> {
        let handles = &self.attempt.handles;
        let entry = match self.attempt.passed.entry_of(handle) {
            Some((dir, name)) => match handles.at(dir).fd {
                Some(dir) => Some(LinkEntry { dir, name }),
                None => None,
            },
            None => None,
        };
        let is_link = handles.at(handle).kind == LINK;
        Work::ReadLink(handles.fd(handle), is_link, entry)
    }

    fn handle_closed<'s>(&'s self, answers: &mut &[Answer], handle: u64) -> Asked<'s, Part> {
        if let Some(fd) = self.attempt.handles.at(handle).fd {
            ask(answers, Question::Close(fd))?;
        }
        Ok(Part::Closed)
    }

    /// The system call of the step that is due; or what the step came to.
    pub(crate) fn step_due<'s>(
        &'s self,
        known: &mut Known,
        answers: &mut &[Answer],
        read: &'s [u8],
    ) -> Asked<'s, Part> {
        let (handles, flags) = (&self.attempt.handles, self.request.flags);
        let step = match self.talk.step() {
            Some(step) => step,
            None => return Ok(Part::Replied),
        };
        let work = match &step {
            StepOf::Open(dir, name) => Work::Open(handles.fd(dir.number()), name.bytes()),
            StepOf::Dup(dir) => Work::Dup(handles.fd(dir.number())),
            StepOf::Parent(dir) => Work::Parent(handles.fd(dir.number())),
            StepOf::ReadLink(link) => self.read_text_of(link.number()),
            StepOf::NameBelow(_, handle) => {
                return self.before_due(known, answers, handle.number());
            }
            StepOf::Close(handle) => return self.handle_closed(answers, handle.number()),
            _ => return self.change_due(known, answers, &step, read),
        };
        Ok(Part::Made(make(answers, known, flags, work)?))
    }

    // ---- what came of it

    fn opened(&mut self, fd: u32, kind: Kind) -> Answered {
        let Steps { talk, attempt, .. } = self;
        let slot = Slot::new(Some(fd), number_of(kind), BY_NAME);
        let handle = match talk.step() {
            Some(StepOf::Open(dir, name)) => attempt.opened(dir.number(), name.bytes(), slot),
            Some(StepOf::Dup(_)) => attempt.handles.put(Slot {
                way: BY_ROOT,
                ..slot
            }),
            _ => attempt.handles.put(Slot {
                way: BY_PARENT,
                ..slot
            }),
        };
        opened(handle, kind)
    }

    /// A step ended so. READ: the text that was read last.
    pub(crate) fn made(&mut self, alloc: Global, ended: Ended, read: &[u8]) {
        match ended {
            Ended::Opened(fd, kind) => {
                let answer = self.opened(fd, kind);
                self.answer(answer);
            }
            Ended::Text(length) => self.answer(text(alloc, piece(read, 0, length as usize))),
            Ended::Done => self.answer(Answered::Done),
            Ended::Refused(error) => self.answer(Answered::Refused(error)),
            Ended::Unmade(error) => self.unmade(error),
        }
    }

    pub(crate) fn answer(&mut self, answer: Answered) {
        self.talk.take(answer);
        self.tell();
    }

    /// A step that wasn't made, for this error. The caller gets the error itself.
    pub(crate) fn unmade(&mut self, error: u32) {
        self.attempt.unmade = error;
        self.answer(unmade());
    }

    pub(crate) fn closed(&mut self) {
        let handle = self.talk.handle();
        let listed = self.attempt.handles.at(handle).listed;
        self.attempt.listed = self.attempt.listed.saturating_sub(listed);
        self.attempt.handles.close(handle);
        self.answer(Answered::Done);
    }

    /// The names at which what the step is about stands: those that were passed, or a slash alone.
    pub(crate) fn stands_passed(&mut self, alloc: Global, at_root: bool) {
        let handle = self.talk.handle();
        let answer = match self.attempt.passed.names_of(handle) {
            _ if at_root => names(alloc, b"/"),
            Some(passed) => names(alloc, passed),
            None => names(alloc, b""),
        };
        self.answer(answer);
    }

    /// The same: those that were found.
    pub(crate) fn stands_found(&mut self, alloc: Global) {
        let answer = names(alloc, self.search.names());
        self.answer(answer);
    }

    // ---- a listing

    // If no descriptor is left to read the directory by that was just entered, the tree is as if it were too deep
    // here.
    fn unlisted(&mut self, error: u32) {
        let above = self.attempt.above;
        let is_crowded = error == EMFILE || error == ENFILE;
        let is_entered = self.attempt.entered == self.talk.handle();
        if is_crowded && is_entered && self.attempt.handles.at(above).depth != 0 {
            self.stage = self.attempt.leave(above);
        } else {
            self.unmade(error);
        }
    }

    /// A system call of a listing was made.
    pub(crate) fn listed(&mut self, alloc: Global, error: u32, value: u32, read: &[u8]) {
        self.listing
            .take(alloc, error, value, read, &mut self.attempt.names);
        match self.listing.came {
            Ok(Came::Listed(length)) => {
                let handle = self.talk.handle();
                let slot = self.attempt.handles.at(handle);
                self.attempt.handles.set(
                    handle,
                    Slot {
                        listed: length,
                        ..slot
                    },
                );
                self.attempt.listed = self.attempt.listed.saturating_add(length);
                let answer = listed(alloc, self.attempt.names.as_slice());
                self.answer(answer);
            }
            Ok(Came::Failed(error)) => self.unlisted(error),
            _ => {}
        }
    }
}
