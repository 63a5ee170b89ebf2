//! A copy of a log.
ghost use Rattle.std.specs.Prelude.{◌≡◌, ◌≤◌, IfOk};

use super::EventLog;
use path_text::NoMemory;
use std::alloc::Global;

impl EventLog {
    /// The same events, with room for that many more. NoMemory where room was refused.
    pub fn copy(&self, alloc: Global, more: usize) -> Result<EventLog, NoMemory>
        ensures events { IfOk result (λ copy. copy.events ≡ self.now.events) }
        ensures room { IfOk result (λ copy. more ≤ copy.room) }
    {
        // Room for all of it at once.
        let room = self.records.len().saturating_add(more);
        let mut records = Vec::with_capacity(alloc, room)?;
        records.extend_from_slice(self.records.as_slice())?;
        let bytes = Vec::from_slice(alloc, self.bytes.as_slice())?;
        let mut copy = EventLog { records, bytes };
        copy.reserve(more)?;
        Ok(copy)
    }
}
