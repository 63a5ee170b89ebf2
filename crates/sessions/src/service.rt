//! A book that sessions share.
ghost use Rattle.std.specs.Prelude.{◌≡◌};
ghost use Rattle.sessions.specs.Call.{is_of};

use crate::session::Session;
use crate::shared::SharedBook;
use std::marker::Model;
use std::sync::Mutex;
use tree_model::{Snapshot, Tree};

/// A tree's book under one lock, for so many sessions. Contracts see the tag, the number of sessions, the number of
/// lines and the tree as it was opened; of the book they know what its type keeps.
#[derive(Drop)]
pub struct Service<T: Tree> {
    pub(crate) book: Mutex<SharedBook<T>>,
    pub(crate) tag: u64,
    pub(crate) count: u32,
    pub(crate) lines: u32,
    pub(crate) opening: Snapshot,
}

impl<T: Tree> Model for Service<T> {
    ghost use Rattle.sessions.specs.Service.{ServiceView};

    ghost Value = { ServiceView };

    ghost view = { λ s. record { tag = s.tag; count = s.count; lines = s.lines; opening = s.opening } };
}

impl<T: Tree> Service<T> {
    /// Whether the session has the service's tag and one of its numbers.
    pub(crate) fn has(&self, session: &Session) -> bool
        ensures { result ≡ is_of self.now session.now }
    {
        session.owner.tag == self.tag && session.owner.actor.number() < self.count
    }
}
