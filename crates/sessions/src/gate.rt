//! What runs between the steps of calls.
use tree_model::Actor;

/// Where a session is as it is about to make a step.
#[derive(Clone, Copy, Debug, PartialEq, Eq)]
pub struct Pause {
    /// The session's number.
    pub actor: Actor,
    /// How many calls of this session came before this one.
    pub call: u64,
    /// How many events this call has so far.
    pub step: u64,
}

/// What is done between the steps of a call.
pub trait Gate: Sync {
    /// Is called before each step, while no lock is held.
    fn between(&self, pause: Pause);
}

/// Does nothing.
#[derive(Clone, Copy, Debug, PartialEq, Eq)]
pub struct NoGate;

impl Gate for NoGate {
    fn between(&self, _pause: Pause) {}
}
