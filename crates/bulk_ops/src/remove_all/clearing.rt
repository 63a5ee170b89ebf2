//! The steps that clear a directory, one entry after another.
ghost use Rattle.std.specs.Prelude.{◌≡◌, ◌<◌, ◌≤◌, ◌+◌, suc, [], ◌∷◌, ◌++◌, Bool, length};
ghost use Rattle.tree_model.specs.declared.answer.Answer.TheVariants.{Listed};
ghost use Rattle.bulk_ops.specs.RemoveAllOrder.{closes, is_due, gives_up, finished, listed, opened, file_removed, dir_removed, removes_file, due_at};
ghost use Rattle.bulk_ops.specs.declared.remove_all.clearing.TheConstants.{CLEARING_STEPS_MAX};

use crate::remove_all::frame::Frame;
use crate::remove_all::phase::Phase;
use handles::Reached;
use path_text::{Errno, Names, NoMemory};
use std::alloc::{AllocFailed, Global};
use step_resolver::refusal_of;
use tree_model::{Answer, Kind, LentStep, StepOf};

/// The most steps of clearing that one call makes; the closings of a call that fails, and that of the directory of its
/// walk, aside.
pub const CLEARING_STEPS_MAX: u64 = 600_000;

/// What is due for the entry under way. What was opened by its name is held, and can't be let go.
#[derive(Debug)]
pub(crate) enum Stage {
    /// It is removed as what is no directory.
    RemoveFile,
    /// It is opened, since a directory stood there.
    Open,
    /// The directory that was opened is listed.
    List(Reached),
    /// What was opened is closed, since it is no directory.
    Shut(Reached),
    /// The directory that was opened is closed, since it was cleared.
    Leave(Reached),
    /// It is removed as a directory.
    RemoveDir,
}

/// What comes once all that is held is closed.
#[derive(Clone, Copy, Debug)]
pub(crate) enum End {
    /// The call fails.
    Fails(Errno),
    /// So many entries were removed.
    Removes(u64),
}

/// How far the clearing has come: the directory with the entry under way, those above it, the innermost last, how many
/// entries were removed, and how many steps of clearing are left.
#[derive(Debug)]
pub(crate) struct Progress {
    pub(crate) here: Frame,
    pub(crate) above: Vec<Frame>,
    pub(crate) removed: u64,
    pub(crate) left: u64,
    ghost few: { removed + left ≤ CLEARING_STEPS_MAX },
}

/// A step of clearing that is due.
#[derive(Debug)]
pub(crate) struct Clearing {
    pub(crate) stage: Stage,
    pub(crate) progress: Progress,
    ghost one_left: { 0 < progress.left },
}

/// A closing that is due: of the first, then of the second, then of the directories from the last on.
#[derive(Debug)]
pub(crate) struct Closing {
    pub(crate) first: Reached,
    pub(crate) second: Option<Reached>,
    pub(crate) above: Vec<Frame>,
    pub(crate) end: End,
}

impl Stage {
    ghost use Rattle.bulk_ops.specs.RemoveAllView.{opened_of};

    // What was opened by the name under way.
    fn into_opened(self) -> Option<Reached>
        ensures { result ≡ opened_of self }
    {
        match self {
            Stage::List(child) | Stage::Shut(child) | Stage::Leave(child) => Some(child),
            Stage::RemoveFile | Stage::Open | Stage::RemoveDir => None,
        }
    }
}

impl Closing {
    ghost use Rattle.step_resolver.specs.View.{numbers_of};
    ghost use Rattle.bulk_ops.specs.RemoveAllView.{to_close, dirs_of, phase_turn, end_of};

    /// What was opened is closed, where something was, then the directory, then those above it.
    pub(crate) fn of(opened: Option<Reached>, dir: Reached, above: Vec<Frame>, end: End) -> Phase
        ensures { phase_turn result ≡ closes (numbers_of opened ++ dir.handle ∷ dirs_of above.items) (end_of end) }
    {
        Phase::Closing(match opened {
            Some(first) => Closing {
                first,
                second: Some(dir),
                above,
                end,
            },
            None => Closing {
                first: dir,
                second: None,
                above,
                end,
            },
        })
    }

    /// The step that is due.
    pub(crate) fn due(&self) -> LentStep<'_>
        ensures { result ≡ StepOf.Close self.now.first.handle }
    {
        StepOf::Close(self.first.handle())
    }

    /// The first is closed, whatever was answered.
    pub(crate) fn closed(self) -> Phase
        ensures { phase_turn result ≡ closes (to_close self) (end_of self.end) }
    {
        let Closing {
            first,
            second,
            mut above,
            end,
        } = self;
        // The driver has made the Close that was due.
        let _ = first.into_close();
        match second {
            Some(next) => Closing::of(None, next, above, end),
            None => match above.pop() {
                Some(frame) => Closing::of(None, frame.into_dir(), above, end),
                None => {
                    above.destroy_empty();
                    Phase::Over(end)
                }
            },
        }
    }
}

impl Progress {
    ghost use Rattle.bulk_ops.specs.RemoveAllView.{phase_turn, stage_of, level_of, levels_of};

    // A step of clearing, if one is left; else all that is held is closed, and the call fails with Busy.
    fn due(self, stage: Stage) -> Phase
        ensures { phase_turn result
            ≡ is_due (stage_of stage) (level_of self.here) (levels_of self.above.items) self.removed self.left }
    {
        if self.left == 0 {
            return self.fail(stage, Errno::Busy);
        }
        Phase::Clearing(Clearing {
            stage,
            progress: self,
        })
    }

    // All that is held is closed, and the call fails.
    fn fail(self, stage: Stage, error: Errno) -> Phase
        ensures { phase_turn result
            ≡ gives_up (stage_of stage) (level_of self.here) (levels_of self.above.items) error }
    {
        let Progress {
            here,
            above,
            removed: _,
            left: _,
        } = self;
        Closing::of(
            stage.into_opened(),
            here.into_dir(),
            above,
            End::Fails(error),
        )
    }

    // The entry under way is cleared: the next one's turn; or the directory's own removal, once it is closed; or the
    // end.
    fn finished(self) -> Phase
        ensures { phase_turn result
            ≡ finished (level_of self.here) (levels_of self.above.items) self.removed self.left }
    {
        let Progress {
            here,
            mut above,
            removed,
            left,
        } = self;
        match here.next() {
            Ok(here) => Progress {
                here,
                above,
                removed,
                left,
            }
            .due(Stage::RemoveFile),
            Err(cleared) => match above.pop() {
                Some(here) => Progress {
                    here,
                    above,
                    removed,
                    left,
                }
                .due(Stage::Leave(cleared)),
                None => Closing::of(None, cleared, above, End::Removes(removed)),
            },
        }
    }

    // The directory that was opened has these entries.
    fn entered(self, child: Reached, names: Names) -> Phase
        ensures { (room : Bool)
            × (phase_turn result
            ≡ listed room child.handle (level_of self.here)
            (levels_of self.above.items) self.removed self.left (Listed names)) }
    {
        let Progress {
            here,
            mut above,
            removed,
            left,
        } = self;
        match Frame::first(child, names) {
            Err(empty) => Progress {
                here,
                above,
                removed,
                left,
            }
            .due(Stage::Leave(empty)),
            Ok(inner) => match above.push(here) {
                Ok(()) => Progress {
                    here: inner,
                    above,
                    removed,
                    left,
                }
                .due(Stage::RemoveFile),
                Err(AllocFailed { value }) => Progress {
                    here: value,
                    above,
                    removed,
                    left,
                }
                .fail(Stage::List(inner.into_dir()), Errno::NoMemory),
            },
        }
    }

    // One more entry is removed.
    fn counted(mut self) -> Phase
        requires { self.removed + self.left < CLEARING_STEPS_MAX }
        ensures { phase_turn result
            ≡ finished (level_of self.here) (levels_of self.above.items) (suc self.removed) self.left }
    {
        self.removed += 1;
        self.finished()
    }

    // What the answer to the removal as what is no directory comes to.
    fn file_removed(self, answer: &Answer) -> Phase
        requires { self.removed + self.left < CLEARING_STEPS_MAX }
        ensures { phase_turn result
            ≡ file_removed (level_of self.here) (levels_of self.above.items) self.removed self.left answer.now }
    {
        match answer {
            Answer::Done => self.counted(),
            Answer::Refused(Errno::NotFound) => self.finished(),
            Answer::Refused(Errno::IsDir) => self.due(Stage::Open),
            other => self.fail(Stage::RemoveFile, refusal_of(other)),
        }
    }

    // What the answer to opening the entry under way comes to. Only a directory is entered, and no link is.
    fn opened(self, answer: &Answer) -> Phase
        ensures { phase_turn result
            ≡ opened (level_of self.here) (levels_of self.above.items) self.removed self.left answer.now }
    {
        match Reached::of(self.here.dir.owner(), answer) {
            Some(child) => match child.kind() {
                Kind::Dir => self.due(Stage::List(child)),
                Kind::File | Kind::Link => self.due(Stage::Shut(child)),
            },
            None => match refusal_of(answer) {
                Errno::NotFound => self.finished(),
                error => self.fail(Stage::Open, error),
            },
        }
    }

    // What the answer to listing the directory that was opened comes to.
    fn listed(self, child: Reached, answer: Answer) -> Phase
        ensures { (room : Bool)
            × (phase_turn result
            ≡ listed room child.handle (level_of self.here)
            (levels_of self.above.items) self.removed self.left answer) }
    {
        match answer {
            Answer::Listed(names) => self.entered(child, names),
            other => self.fail(Stage::List(child), refusal_of(&other)),
        }
    }

    // What the answer to the removal as a directory comes to.
    fn dir_removed(self, answer: &Answer) -> Phase
        requires { self.removed + self.left < CLEARING_STEPS_MAX }
        ensures { phase_turn result
            ≡ dir_removed (level_of self.here) (levels_of self.above.items) self.removed self.left answer.now }
    {
        match answer {
            Answer::Done => self.counted(),
            Answer::Refused(Errno::NotFound) => self.finished(),
            Answer::Refused(Errno::NotEmpty) => self.due(Stage::Open),
            Answer::Refused(Errno::NotDir) => self.due(Stage::RemoveFile),
            other => self.fail(Stage::RemoveDir, refusal_of(other)),
        }
    }
}

impl Clearing {
    ghost use Rattle.bulk_ops.specs.RemoveAllView.{phase_turn, stage_of, level_of, name_at, clearing_of, TakesOn};

    /// The first step of clearing: the target's, in this directory.
    pub(crate) fn begin(alloc: Global, dir: Reached, target: Names) -> Phase
        requires { length target ≡ 1 }
        ensures { phase_turn result
            ≡ is_due removes_file
            (record { dir = dir.handle; name = name_at target 0; others = [] }) [] 0 CLEARING_STEPS_MAX }
    {
        Progress {
            here: Frame {
                dir,
                names: target,
                at: 0,
            },
            above: Vec::new(alloc),
            removed: 0,
            left: CLEARING_STEPS_MAX,
        }
        .due(Stage::RemoveFile)
    }

    /// The step that is due.
    pub(crate) fn due(&self) -> LentStep<'_>
        ensures { result ≡ due_at (stage_of self.now.stage) (level_of self.now.progress.here) }
    {
        let here = &self.progress.here;
        match &self.stage {
            Stage::RemoveFile => StepOf::RemoveFile(here.dir.handle(), here.name()),
            Stage::Open => StepOf::Open(here.dir.handle(), here.name()),
            Stage::List(child) => StepOf::List(child.handle()),
            Stage::Shut(child) | Stage::Leave(child) => StepOf::Close(child.handle()),
            Stage::RemoveDir => StepOf::RemoveDir(here.dir.handle(), here.name()),
        }
    }

    /// What the answer to the step that was due comes to. The answer to a Close isn't looked at.
    pub(crate) fn taken(self, answer: Answer) -> Phase
        ensures { TakesOn (clearing_of self) answer result }
    {
        let Clearing {
            stage,
            mut progress,
        } = self;
        progress.left -= 1;
        match stage {
            Stage::RemoveFile => progress.file_removed(&answer),
            Stage::Open => progress.opened(&answer),
            Stage::List(child) => progress.listed(child, answer),
            Stage::Shut(child) => {
                let _ = child.into_close();
                progress.due(Stage::RemoveFile)
            }
            Stage::Leave(child) => {
                let _ = child.into_close();
                progress.due(Stage::RemoveDir)
            }
            Stage::RemoveDir => progress.dir_removed(&answer),
        }
    }
}
