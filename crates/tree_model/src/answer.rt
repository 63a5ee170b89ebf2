//! What a step is answered, and the events of a history.
ghost use Rattle.std.specs.Prelude.{◌≡◌, IsTrue, ◌↔◌, IfOk};

use crate::number::{Actor, HandleNo, Node};
use crate::step::{Kind, Step};
use path_text::{Bytes, Errno, Names, NoMemory};
use std::alloc::Global;

/// The answer to a step.
#[derive(Debug, Drop)]
pub enum Answer {
    /// A new handle, the node that it was opened on, and what that is.
    Opened {
        handle: HandleNo,
        node: Node,
        kind: Kind,
    },
    /// A link's text.
    Text(Bytes),
    /// The names from one node down to another.
    Names(Names),
    /// The one node doesn't stand below the other.
    NotBelow,
    /// The names of a directory's entries.
    Listed(Names),
    Done,
    Refused(Errno),
}

impl Answer {
    /// An equal answer. NoMemory where its room was refused.
    pub fn copy(&self, alloc: Global) -> Result<Answer, NoMemory>
        ensures { IfOk result (λ copy. copy ≡ self.now) }
    {
        Ok(match self {
            Answer::Opened { handle, node, kind } => Answer::Opened {
                handle: *handle,
                node: *node,
                kind: *kind,
            },
            Answer::Text(text) => Answer::Text(text.copy(alloc)?),
            Answer::Names(names) => Answer::Names(names.copy(alloc)?),
            Answer::NotBelow => Answer::NotBelow,
            Answer::Listed(names) => Answer::Listed(names.copy(alloc)?),
            Answer::Done => Answer::Done,
            Answer::Refused(error) => Answer::Refused(*error),
        })
    }

    /// Whether the two are equal. Takes no memory.
    pub fn same(&self, other: &Answer) -> bool
        ensures { IsTrue result ↔ (self.now ≡ other.now) }
    {
        match (self, other) {
            (
                Answer::Opened { handle, node, kind },
                Answer::Opened {
                    handle: h,
                    node: n,
                    kind: k,
                },
            ) => handle == h && node == n && kind == k,
            (Answer::Text(text), Answer::Text(t)) => text.same(t),
            (Answer::Names(names), Answer::Names(n)) => names.same(n),
            (Answer::NotBelow, Answer::NotBelow) => true,
            (Answer::Listed(names), Answer::Listed(n)) => names.same(n),
            (Answer::Done, Answer::Done) => true,
            (Answer::Refused(error), Answer::Refused(e)) => error == e,
            _ => false,
        }
    }
}

/// One step of one actor, as it was made and answered.
#[derive(Debug, Drop)]
pub struct Event {
    pub actor: Actor,
    pub step: Step,
    pub answer: Answer,
}
