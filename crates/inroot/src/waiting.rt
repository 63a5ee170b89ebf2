//! How far an exploration has come, told on standard error where somebody waits at a terminal.
use explore_command::{Progress, Waiter};
use std::io::IsTerminal;
use std::time::{Duration, Instant};

/// Tells a terminal how far the search has come, once a second, and nothing in the first one. What can't be told is
/// passed over.
#[derive(Drop)]
pub struct Waiting<'a> {
    rt: &'a HostRuntime,
    // How many states are gone through at most.
    most: u64,
    // When the wait began; none where nobody is told.
    begun: Option<Instant>,
    // After how many seconds it was told last.
    told: u64,
    // How many turns of all schedules were gone through.
    turns: u64,
}

impl<'a> Waiting<'a> {
    /// Whoever waits at standard error, if that is a terminal, for a search of so many states at most.
    pub fn new(rt: &'a HostRuntime, most: u64) -> Waiting<'a> {
        let begun = if rt.stderr().is_terminal() {
            Instant::now(rt).ok()
        } else {
            None
        };
        Waiting {
            rt,
            most,
            begun,
            told: 0,
            turns: 0,
        }
    }
}

impl Progress for Waiting<'_> {
    fn passed(&mut self, states: u64) {
        self.turns = self.turns.saturating_add(1);
        let Some(begun) = self.begun else {
            return;
        };
        let Ok(waited) = begun.elapsed(self.rt) else {
            return;
        };
        let seconds = waited.as_secs();
        if seconds <= self.told {
            return;
        }
        let (most, turns) = (self.most, self.turns);
        let _ = eprint!(self.rt;
            "\rinroot: {states} of at most {most} states, turn {turns}, {seconds} seconds\x1b[K"
        );
        self.told = seconds;
    }
}

impl Waiter for Waiting<'_> {
    /// Wipes off what was told.
    fn over(&mut self) {
        if self.told > 0 {
            let _ = eprint!(self.rt; "\r\x1b[K");
        }
    }
}
