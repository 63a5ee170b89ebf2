//! What a call does once a walk of it has found an object.
ghost use Rattle.std.specs.Prelude.{◌≡◌};

use path_text::{Bytes, Name, Path};
use tree_model::{HandleNo, Mode, Step, StepOf};
use walk_plan::Goal;

/// What is done to the entry of a name in a directory.
#[derive(Debug, Drop)]
pub enum Change {
    MakeFile,
    MakeDir,
    MakeLink(Bytes),
    RemoveFile,
    RemoveDir,
}

/// A rename between two directories, by the entries' names.
#[derive(Debug, Drop)]
pub struct Renaming {
    pub old: Name,
    pub new: Name,
    pub mode: Mode,
    /// Whether one of the paths ended in a slash, so that what is renamed is to be a directory.
    pub slash: bool,
}

/// What is done with the object that a walk found.
#[derive(Debug, Drop)]
pub enum Aim {
    /// It is the reply, of a walk that follows the last link or not.
    Opens(Goal),
    /// It is a link, whose text is the reply.
    Reads,
    /// In it an entry is changed.
    Changes(Change, Name),
    /// It is the old directory of a rename. The path of the new one is walked next.
    WalksOn(Path, Renaming),
    /// It is the new directory of a rename. The old one is held.
    Renames(HandleNo, Renaming),
}

/// What the answer to a call's own step is to be: Done, a link's text, or any but a refusal.
#[derive(Clone, Copy, Debug, PartialEq, Eq)]
pub enum Wanted {
    Done,
    Text,
    Any,
}

impl Change {
    ghost use Rattle.root_ops.specs.Order.{change_step};

    /// The step that makes the change.
    pub(crate) fn step(self, dir: HandleNo, name: Name) -> Step
        ensures { result ≡ change_step self dir name }
    {
        match self {
            Change::MakeFile => StepOf::MakeFile(dir, name),
            Change::MakeDir => StepOf::MakeDir(dir, name),
            Change::MakeLink(text) => StepOf::MakeLink(dir, name, text),
            Change::RemoveFile => StepOf::RemoveFile(dir, name),
            Change::RemoveDir => StepOf::RemoveDir(dir, name),
        }
    }
}

impl Renaming {
    ghost use Rattle.root_ops.specs.Order.{rename_step};

    /// The step that renames, between these directories.
    pub(crate) fn step(self, old: HandleNo, new: HandleNo) -> Step
        ensures { result ≡ rename_step self old new }
    {
        StepOf::Rename(old, self.old, new, self.new, self.mode)
    }
}

impl Aim {
    ghost use Rattle.root_ops.specs.Order.{goal_of};

    /// What the walk is after.
    pub(crate) fn goal(&self) -> Goal
        ensures { result ≡ goal_of self.now }
    {
        match self {
            Aim::Opens(goal) => *goal,
            Aim::Reads => Goal::NoFollow,
            Aim::Changes(_, _) | Aim::WalksOn(_, _) | Aim::Renames(_, _) => Goal::Follow,
        }
    }
}
