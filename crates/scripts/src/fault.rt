//! Why a run ends without its answer.
ghost use Rattle.std.specs.Prelude.{◌≡◌};
ghost use Rattle.scripts.specs.declared.fault.RunFault.TheVariants.{Script, NoMemory as OutOfMemory};

use crate::call_fault::CallFault;
use crate::keys::Keys;
use path_text::{Errno, NoMemory};
use std::alloc::{AllocError, AllocFailed};
use thiserror::Error;

/// Where a text stops being JSON, as serde_json tells it: the line and the column, from 1.
#[derive(Clone, Copy, Debug, PartialEq, Eq)]
pub struct JsonFault {
    /// The text ends where more should follow.
    pub is_cut_short: bool,
    pub line: usize,
    pub column: usize,
}

/// Why an entry of the tree, or an actor, is refused.
#[derive(Clone, Copy, Debug, PartialEq, Eq)]
pub enum Cause {
    /// It isn't written as one.
    Shape,
    /// It has no place in the tree.
    Refused(Errno),
}

/// What nobody looks at, in a script that is read strictly.
#[derive(Clone, Copy, Debug, PartialEq, Eq, Error)]
pub enum Loose {
    /// The script has a key that isn't a script's.
    #[error("unknown key")]
    Key,
    /// The first actor that has a key which isn't an actor's.
    #[error("actor {0}: unknown key")]
    ActorKey(usize),
    /// The first call that has a key which isn't of what it asks for, and what that is.
    #[error("call {0} {1}: unknown key")]
    CallKey(usize, usize, Keys),
    /// The first call that has a restriction, at which version 1 doesn't look.
    #[error("call {0} {1}: restriction in version 1")]
    Restriction(usize, usize),
    /// The first call that gives a label which no call after it uses.
    #[error("call {0} {1}: unused label")]
    Label(usize, usize),
}

/// Why a script is refused: the first check that fails. Its `Display` is the check's words; `detail` tells more.
#[derive(Clone, Copy, Debug, PartialEq, Eq, Error)]
pub enum ScriptFault {
    /// More bytes than a script may have.
    #[error("too long")]
    TooLong,
    /// More lists and objects in one another than there may be.
    #[error("not json")]
    TooDeep,
    /// No JSON text (RFC 8259), or no UTF-8.
    #[error("not json")]
    NotJson(JsonFault),
    #[error("not an object")]
    NotObject,
    #[error("version")]
    Version,
    /// No number of lines that a book may have.
    #[error("lines")]
    Lines,
    /// No list of entries.
    #[error("tree")]
    Tree,
    /// More entries than a tree may have.
    #[error("tree")]
    TooManyEntries,
    /// The first entry whose shape, place or link text is refused, and why.
    #[error("tree {0}")]
    TreeEntry(usize, Cause),
    /// No list of actors, or none in it.
    #[error("actors")]
    Actors,
    /// More actors than a script may have.
    #[error("actors")]
    TooManyActors,
    /// The first actor that is refused, and why.
    #[error("actor {0}")]
    Actor(usize, Cause),
    /// The first actor that is refused, for more calls than an actor may have.
    #[error("actor {0}")]
    TooManyCalls(usize),
    /// The first call that is refused, by its actor and its number, and what is wrong with it.
    #[error("call {0} {1}")]
    Call(usize, usize, Option<CallFault>),
    /// The first call of the first actor that is a step or a release, where its calls are jobs.
    #[error("call 0 {0}")]
    NoJob(usize),
    /// No list of turns.
    #[error("schedule")]
    Schedule,
    /// More turns than a schedule may have.
    #[error("schedule")]
    TooManyTurns,
    /// The first turn that is no actor's number.
    #[error("schedule {0}")]
    Turn(usize),
    /// The first thing that nobody looks at, where the script is read strictly.
    #[error("{0}")]
    Loose(Loose),
}

/// Why a run failed. Nothing was written before it, but by a writer that failed.
#[derive(Clone, Copy, Debug, PartialEq, Eq, Error)]
pub enum RunFault {
    #[error("script: {0}")]
    Script(ScriptFault),
    #[error("read failed")]
    ReadFailed,
    #[error("write failed")]
    WriteFailed,
    #[error("no memory")]
    NoMemory,
    /// The script's book has fewer lines than there are actors, each of which has its root open.
    #[error("book full")]
    BookFull,
}

impl From<NoMemory> for RunFault {
    ghost from_gives = { λ _ fault. fault ≡ OutOfMemory };

    fn from(_error: NoMemory) -> RunFault {
        RunFault::NoMemory
    }
}

impl From<AllocError> for RunFault {
    ghost from_gives = { λ _ fault. fault ≡ OutOfMemory };

    fn from(_error: AllocError) -> RunFault {
        RunFault::NoMemory
    }
}

impl<T: Drop> From<AllocFailed<T>> for RunFault {
    ghost from_gives = { λ _ fault. fault ≡ OutOfMemory };

    fn from(_error: AllocFailed<T>) -> RunFault {
        RunFault::NoMemory
    }
}

impl From<ScriptFault> for RunFault {
    ghost from_gives = { λ fault told. told ≡ Script fault };

    fn from(fault: ScriptFault) -> RunFault {
        RunFault::Script(fault)
    }
}
