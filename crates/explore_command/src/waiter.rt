//! Whoever waits for an answer.
use explore::{Progress, Silent};

/// Who is told how far a search has come, and then that it is over.
pub trait Waiter: Progress {
    /// The search is over. This is called once, before the first byte of the answer is written.
    fn over(&mut self);
}

impl Waiter for Silent {
    fn over(&mut self) {}
}
