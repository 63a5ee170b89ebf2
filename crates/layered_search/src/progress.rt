//! Who follows how far a search has come.

/// Who follows how far a search has come.
pub trait Progress {
    /// So many states have been gone through by now. The search calls this after each layer.
    fn passed(&mut self, states: u64);
}

/// Nobody.
#[derive(Clone, Copy, Debug, Drop)]
pub struct Silent;

impl Progress for Silent {
    fn passed(&mut self, _states: u64) {}
}
