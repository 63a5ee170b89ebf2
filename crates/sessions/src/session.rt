//! One actor's own side of a service: its root, and the log of its steps.
ghost use Rattle.std.specs.Prelude.{◌≡◌, IfOk};
ghost use Rattle.sessions.specs.Session.{SessionView, begun};

use crate::shared::OwnLog;
use handles::Owner;
use path_text::NoMemory;
use std::alloc::Global;
use std::marker::Model;
use step_resolver::Root;
use tree_model::{HandleNo, Tree};

/// One actor of a service, with the root below which its calls walk and the log of its steps. Contracts see these, and
/// whether a call of it ever found the book full.
#[derive(Debug, Drop)]
pub struct Session {
    pub(crate) owner: Owner,
    pub(crate) root: HandleNo,
    pub(crate) log: OwnLog,
    // How many handles the log leaves open, the root's among them; each has room in the log for its Close.
    pub(crate) open_handles: usize,
    // How many calls were made, up to the largest number there is.
    pub(crate) calls: u64,
    pub(crate) marked: bool,
}

impl Model for Session {
    ghost use Rattle.sessions.specs.Session.{SessionView, IsSession};

    ghost Value = { SessionView };

    ghost view = { λ s. record { owner = s.owner; root = s.root; log = s.log.events; marked = s.marked } };

    ghost invariant = { λ s. IsSession s.log.events s.open_handles s.log.room };
}

impl Session {
    /// A session without a call yet, at a root in the tree. NoMemory where the room for the Close of its root was
    /// refused.
    pub(crate) fn begin<T: Tree>(
        alloc: Global,
        tree: &T,
        owner: Owner,
        root: HandleNo,
    ) -> Result<Session, NoMemory>
        ensures { IfOk result (λ session. session ≡ begun owner root) }
    {
        let mut log = OwnLog::new(alloc, tree);
        log.reserve_one()?;
        Ok(Session {
            owner,
            root,
            log,
            open_handles: 1,
            calls: 0,
            marked: false,
        })
    }

    /// Whose calls these are: the service's tag, and the session's number.
    pub fn owner(&self) -> Owner
        ensures { result ≡ self.now.owner }
    {
        self.owner
    }

    /// The directory below which the calls walk.
    pub fn root(&self) -> Root
        ensures { result ≡ record { owner = self.now.owner; handle = self.now.root } }
    {
        Root {
            owner: self.owner,
            handle: self.root,
        }
    }
}
