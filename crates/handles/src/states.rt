//! The two states of a handle that a walk opened, and the ways from one to the other.
ghost use Rattle.std.specs.Prelude.{◌≡◌, ◌≢◌, IfOk, IfErr};
ghost use Rattle.handles.specs.Objects.{reached_by, judged, standing_at, unchecked};

use crate::owner::Owner;
use path_text::Names;
use std::marker::Model;
use tree_model::{Answer, HandleNo, Kind, Node, Step, StepOf};

mod checked;
mod copy;
mod unchecked;

/// An object that was opened, by its owner's handle: not checked. It can be judged or closed, and not let go. Contracts
/// see it as a `ReachedObject`: the same four.
#[derive(Debug)]
pub struct Reached {
    owner: Owner,
    handle: HandleNo,
    node: Node,
    kind: Kind,
}

impl Model for Reached {
    ghost use Rattle.handles.specs.Objects.{ReachedObject};

    ghost Value = { ReachedObject };

    ghost view = { λ r. record { owner = r.owner; handle = r.handle; node = r.node; kind = r.kind } };
}

impl Reached {
    /// The object that an answer to a step of this owner's opened, where it opened one. From then on the object keeps
    /// its owner.
    pub fn of(owner: Owner, answer: &Answer) -> Option<Reached>
        ensures { result ≡ reached_by owner answer.now }
    {
        match answer {
            Answer::Opened { handle, node, kind } => Some(Reached {
                owner,
                handle: *handle,
                node: *node,
                kind: *kind,
            }),
            _ => None,
        }
    }

    /// Judges the answer to a NameBelow that the owner made of this object. If the answer has the expected names, all
    /// of them and no more, this gives the same owner's `Standing`; otherwise it gives the same `Reached` back.
    #[tactic(auto, using(crate::proofs::SameNames::same_where_equal, crate::proofs::SameNames::other_where_not))]
    pub fn judge(self, answer: Answer, expected: &Names) -> Result<Standing, Reached>
        ensures exact { result ≡ judged self answer expected.now }
        ensures ok { IfOk result (λ standing.
            (answer ≡ Answer.Names expected.now) × (standing ≡ standing_at self expected.now)) }
        ensures err { IfErr result (λ reached. (answer ≢ Answer.Names expected.now) × (reached ≡ self)) }
    {
        match answer {
            Answer::Names(names) => {
                if names.same(expected) {
                    Ok(self.standing_at(names))
                } else {
                    Err(self)
                }
            }
            _ => Err(self),
        }
    }

    // The same, standing at these names.
    fn standing_at(self, names: Names) -> Standing
        ensures { result ≡ standing_at self names }
    {
        let Reached {
            owner,
            handle,
            node,
            kind,
        } = self;
        Standing {
            owner,
            handle,
            node,
            kind,
            names,
        }
    }

    /// The step that closes the handle (close(2)).
    pub fn into_close(self) -> Step
        ensures { result ≡ StepOf.Close self.handle }
    {
        // taken apart, since it can't be let go
        let Reached {
            owner: _,
            handle,
            node: _,
            kind: _,
        } = self;
        StepOf::Close(handle)
    }
}

/// An object that was opened, and that stood below the root at its names when that was asked. You may drop it; its
/// handle then stays open. Contracts see it as a `StandingObject`: the same five.
#[derive(Debug, Drop)]
pub struct Standing {
    owner: Owner,
    handle: HandleNo,
    node: Node,
    kind: Kind,
    names: Names,
}

impl Model for Standing {
    ghost use Rattle.handles.specs.Objects.{StandingObject};

    ghost Value = { StandingObject };

    ghost view = { λ s. record { owner = s.owner; handle = s.handle; node = s.node; kind = s.kind; names = s.names } };
}

impl Standing {
    /// The step that closes the handle (close(2)).
    pub fn into_close(self) -> Step
        ensures { result ≡ StepOf.Close self.handle }
    {
        StepOf::Close(self.handle)
    }

    /// The same owner's object by the same handle, its place to be checked again: it may have been moved since.
    pub fn onward(self) -> Reached
        ensures { result ≡ unchecked self }
    {
        Reached {
            owner: self.owner,
            handle: self.handle,
            node: self.node,
            kind: self.kind,
        }
    }
}
