//! What a world comes to.
ghost use Rattle.std.specs.Prelude.{◌≡◌, [], ◌∷◌, ◌++◌, length, IsTrue, ◌↔◌, OnOk, OnErr};

use event_log::EventLog;
use handles::Standing;
use path_text::{Bytes, Errno, Names, NoMemory};
use std::alloc::Global;
use std::marker::Model;
use thiserror::Error;
use tree_model::{Answer, Kind, Node};

/// How a call of a world ended.
#[derive(Debug, Drop)]
pub enum Outcome {
    /// An object was opened, and stood below the actor's root at these names when that was asked.
    Opened {
        node: Node,
        kind: Kind,
        names: Names,
    },
    /// A link's text.
    Text(Bytes),
    /// The change was made, or the handle closed.
    Done,
    /// How many entries were removed.
    Count(u64),
    /// The answer to a single step.
    Stepped(Answer),
    /// The call failed.
    Fault(Errno),
}

/// The outcomes of an actor's calls, in their order. Contracts see them as their list.
#[derive(Debug, Drop)]
pub struct Outcomes {
    outcomes: Vec<Outcome>,
}

impl Model for Outcomes {
    ghost use Rattle.std.specs.Prelude.{List};
    ghost use Rattle.race_core.specs.declared.report.Outcome.{Outcome};

    ghost Value = { List Outcome };

    ghost view = { λ o. o.outcomes.items };
}

impl Outcomes {
    /// No outcomes. Takes no memory.
    pub fn new(alloc: Global) -> Outcomes
        ensures { result ≡ [] }
    {
        Outcomes {
            outcomes: Vec::new(alloc),
        }
    }

    /// How many calls have ended.
    pub fn len(&self) -> usize
        ensures { result ≡ length self.now }
    {
        self.outcomes.len()
    }

    /// Whether no call has ended.
    pub fn is_empty(&self) -> bool
        ensures { IsTrue result ↔ (self.now ≡ []) }
    {
        self.outcomes.is_empty()
    }

    /// The outcomes in order.
    pub fn as_slice(&self) -> &[Outcome]
        ensures { result.now ≡ self.now }
    {
        self.outcomes.as_slice()
    }

    /// Adds an outcome at the end. NoMemory where its room was refused; the outcomes are then unchanged, and that
    /// one is dropped.
    pub fn push(&mut self, outcome: Outcome) -> Result<(), NoMemory>
        ensures ok { OnOk result (self.new ≡ self.old ++ outcome ∷ []) }
        ensures err { OnErr result (self.new ≡ self.old) }
    {
        self.outcomes.push(outcome)?;
        Ok(())
    }
}

/// What a world came to once its schedule was run and each actor had gone to its end.
#[derive(Debug, Drop)]
pub struct Report<T> {
    /// The steps of all actors, each with its answer, in the order in which they were made.
    pub events: EventLog,
    /// The outcomes of each actor's calls, by the actors' numbers.
    pub replies: Vec<Outcomes>,
    /// What was to be released and was another owner's.
    pub kept: Vec<Standing>,
    /// The tree as the events left it.
    pub tree: T,
}

/// Why a world couldn't be made, or didn't go on.
#[derive(Clone, Copy, Debug, PartialEq, Eq, Error)]
pub enum WorldFault {
    /// There are more than 64 actors.
    #[error("more than 64 actors")]
    TooManyActors,
    /// The root of the actor of that number isn't there.
    #[error("the root of actor {0} isn't there")]
    RootNotFound(usize),
    /// The root of the actor of that number, or what it stands in, is no directory.
    #[error("the root of actor {0} is no directory")]
    RootNotDir(usize),
    /// The numbers of handles are used up for the root of the actor of that number, or the tree has it hold as many
    /// as it may.
    #[error("no handle is left for the root of actor {0}")]
    TooMany(usize),
    /// There is no actor of that number.
    #[error("there is no actor {0}")]
    NoSuchActor(u32),
    /// The book would have more than 1,000,000 lines.
    #[error("too many lines")]
    Invalid,
    /// The book would have fewer lines than there are roots.
    #[error("too few lines")]
    BookFull,
    /// Room was refused.
    #[error("out of memory")]
    NoMemory,
}
