//! What a call replies.
use handles::Standing;
use path_text::{Bytes, Errno};
use tree_model::Answer;

/// The end of a call.
#[derive(Debug, Drop)]
pub enum Reply {
    /// What the path means, open, with the names at which it stood below the root. Its handle stays open until it is
    /// released.
    Opened(Standing),
    /// A link's text.
    Text(Bytes),
    /// The change was made, or the handle closed.
    Done,
    /// How many entries were removed.
    Count(u64),
    /// The answer to a single step.
    Stepped(Answer),
    /// What was to be released is another owner's, and comes back.
    Kept(Standing),
    /// The call failed, and all that it had opened is closed.
    Fault(Errno),
}
