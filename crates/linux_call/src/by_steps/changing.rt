//! A step that changes an entry: the same system calls as where the kernel walks.
use crate::by_steps::slots::Handles;
use crate::by_steps::state::{Part, Steps};
use crate::progress::Progress;
use crate::request::{RENAME as RENAMES, Reply};
use crate::steps;
use dialogue::{Answer, Asked};
use find_proc::{Known, has_floor};
use kernel_calls::Change;
use linux_steps::{Ended, change_ended};
use std::alloc::Global;
use system_calls::errors::{EIO, ENOSYS};
use tree_model::{LentStep, StepOf};

// RENAME_NOREPLACE and RENAME_EXCHANGE.
const MODES: u32 = 3;

fn change_of<'s>(step: &LentStep<'s>, handles: &Handles) -> Change<'s> {
    let (number, dir, name) = steps::parts_of(step);
    let (other, text) = match step {
        StepOf::MakeLink(_, _, text) => (0, text.as_slice()),
        StepOf::Rename(_, _, to, new, _) => (handles.fd(to.number()), new.bytes()),
        _ => (0, b"".as_slice()),
    };
    Change {
        step: number,
        dir: handles.fd(dir.number()),
        name,
        other,
        text,
    }
}

impl Steps {
    /// The mode of a rename.
    pub(crate) fn rename_mode(&self) -> u8 {
        if self.request.what == RENAMES {
            (self.request.how & MODES) as u8
        } else {
            0
        }
    }

    // What was made and opened is the call's to give, if it gives that.
    fn changed_by(&self, reply: Reply<'_>) -> Part {
        let gives = self.request.gives || self.request.opens;
        match reply {
            Reply::Value(fd, _) if gives => { Part::Changed(0, Some((fd & 0xffff_ffff) as u32), 0) }
            Reply::Value(_, _) => Part::Changed(0, None, 0),
            Reply::Fails(error, steps::GIVE, _) => Part::Changed(0, None, error),
            Reply::Fails(error, _, _) | Reply::Failed(error, _) => Part::Changed(error, None, 0),
            Reply::Steps => Part::Changed(EIO, None, 0),
        }
    }

    /// The change of the step that is due.
    pub(crate) fn change_due<'s>(
        &'s self,
        known: &mut Known,
        answers: &mut &[Answer],
        step: &LentStep<'s>,
        read: &'s [u8],
    ) -> Asked<'s, Part> {
        let change = change_of(step, &self.attempt.handles);
        let mut now = Progress::new(*answers, *known, false);
        let reply = now.make_change(&self.request, &change, read)?;
        *answers = now.answers;
        *known = now.known;
        match reply {
            Reply::Fails(ENOSYS, step, _) if step != steps::GIVE => {
                has_floor(answers, known)?;
            }
            _ => (),
        }
        Ok(self.changed_by(reply))
    }

    /// A change was made, or wasn't, for this error.
    pub(crate) fn changed(&mut self, alloc: Global, error: u32, made: Option<u32>, unopened: u32) {
        let what = self.attempt.step;
        let ended = match self.talk.step() {
            Some(step) => change_ended(&step, self.request.linked, error),
            None => Ended::Unmade(error),
        };
        let is_done = error == 0;
        let removes = what == steps::REMOVE_FILE || what == steps::REMOVE_DIR;
        if self.attempt.counts {
            self.attempt.begun = true;
        }
        if removes && is_done {
            self.attempt.removed = self.attempt.removed.saturating_add(1);
        }
        self.attempt.made = made;
        self.attempt.unopened = unopened;
        if unopened != 0 {
            self.attempt.step = steps::GIVE;
        }
        if is_done {
            self.attempt.changed = true;
        }
        self.made(alloc, ended, b"");
    }
}
