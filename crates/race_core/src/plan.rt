//! What each actor of a world is to do.
ghost use Rattle.std.specs.Prelude.{◌≡◌, [], ◌∷◌, ◌++◌, length, IsTrue, ◌↔◌, OnOk, OnErr};

mod copy;

use path_text::{Names, NoMemory};
use root_ops::Request;
use std::alloc::Global;
use std::collections::VecDeque;
use std::marker::Model;
use tree_model::StepOf;

/// What a planned step names in place of a handle's number.
#[derive(Clone, Copy, Debug, PartialEq, Eq)]
pub enum Ref {
    /// The actor's root.
    Root,
    /// What the actor's call of that number, counted from 0, opened and still keeps.
    Call(usize),
}

/// One call of an actor's plan.
#[derive(Debug, Drop)]
pub enum Planned {
    /// An operation below the actor's root.
    Call(Request),
    /// One single step, but none that opens or closes a handle.
    Single(StepOf<Ref>),
    /// Closes what the actor's call of that number, counted from 0, opened (close(2)).
    Release(usize),
}

/// Planned calls in order. Contracts see them as their list.
#[derive(Debug, Drop)]
pub struct Plans {
    calls: Vec<Planned>,
}

impl Model for Plans {
    ghost use Rattle.std.specs.Prelude.{List};
    ghost use Rattle.race_core.specs.declared.plan.Planned.{Planned};

    ghost Value = { List Planned };

    ghost view = { λ p. p.calls.items };
}

impl Plans {
    /// No calls. Takes no memory.
    pub fn new(alloc: Global) -> Plans
        ensures { result ≡ [] }
    {
        Plans {
            calls: Vec::new(alloc),
        }
    }

    /// How many calls there are.
    pub fn len(&self) -> usize
        ensures { result ≡ length self.now }
    {
        self.calls.len()
    }

    /// Whether there is no call.
    pub fn is_empty(&self) -> bool
        ensures { IsTrue result ↔ (self.now ≡ []) }
    {
        self.calls.is_empty()
    }

    /// The calls in order.
    pub fn as_slice(&self) -> &[Planned]
        ensures { result.now ≡ self.now }
    {
        self.calls.as_slice()
    }

    /// Adds a call at the end. NoMemory where its room was refused; the calls are then unchanged, and that one is
    /// dropped.
    pub fn push(&mut self, call: Planned) -> Result<(), NoMemory>
        ensures ok { OnOk result (self.new ≡ self.old ++ call ∷ []) }
        ensures err { OnErr result (self.new ≡ self.old) }
    {
        self.calls.push(call)?;
        Ok(())
    }

    /// The calls, to be taken out one after another. Takes no memory.
    pub fn into_calls(self) -> VecDeque<Planned>
        ensures { result.items ≡ self }
    {
        VecDeque::from(self.calls)
    }
}

/// What an actor does: its root, by the names from the top, and its calls in order.
#[derive(Debug, Drop)]
pub struct ActorPlan {
    pub root: Names,
    pub calls: Plans,
}
