//! To whom handles belong.
use tree_model::Actor;

/// An actor, and a tag that tells actors of the same number on two trees apart.
#[derive(Clone, Copy, Debug, PartialEq, Eq, PartialOrd, Ord)]
pub struct Owner {
    pub tag: u64,
    pub actor: Actor,
}
