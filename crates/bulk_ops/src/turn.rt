//! What a bulk call has come to.
use handles::Standing;
use path_text::Errno;

/// What a bulk call has come to.
#[derive(Debug)]
pub enum BulkTurn<C> {
    /// It goes on: a step is due.
    More(C),
    /// The last directory of the path, open, with the names at which it stood.
    Made(Standing),
    /// How many entries were taken away.
    Removed(u64),
    /// It failed, and all that it had opened is closed.
    Failed(Errno),
}
