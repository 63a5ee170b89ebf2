//! How much memory the program has taken, as Linux says it.
use explore_command::{Gauge, peak_in};
use std::fs::File;
use std::io::Read;

// Where Linux says it (proc_pid_status(5)).
const STATUS: &str = "/proc/self/status";

// The most bytes of it that are read. The line stands behind one that has the process's groups.
const STATUS_BYTES: usize = 16_384;

/// The most memory that was resident at once.
#[derive(Drop)]
pub struct Taken<'a> {
    rt: &'a HostRuntime,
}

impl<'a> Taken<'a> {
    /// That of this process.
    pub fn new(rt: &'a HostRuntime) -> Taken<'a> {
        Taken { rt }
    }
}

impl Gauge for Taken<'_> {
    ghost use Rattle.std.specs.Prelude.{⊤};

    ghost may_say = { λ _ _. ⊤ };

    /// It allocates nothing.
    fn most_taken(&self) -> Option<u64> {
        let mut room = [0u8; STATUS_BYTES];
        let mut file = File::open(self.rt, STATUS).ok()?;
        // One read gives as much of this file as there is room for.
        let read = file.read(&mut room).ok()?;
        peak_in(str::from_utf8(&room[..read]).ok()?)
    }
}
