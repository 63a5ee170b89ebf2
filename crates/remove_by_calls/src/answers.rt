//! What a call gave, and what that means.
ghost use Rattle.std.specs.Prelude.{◌≡◌};
ghost use Rattle.remove_by_calls.specs.Answers.{met_of};

use system_calls::errors::{EBUSY, EMFILE, ENFILE};

/// What a call gave. Of a place that is kept or closed it isn't looked at.
#[derive(Clone, Copy, Debug, Default, PartialEq, Eq)]
pub struct Answer {
    /// So many entries were removed by it.
    pub removed: u64,
    /// 0, or the number of the error that it ended by (errno(3)).
    pub error: u32,
    /// 0, or the number of the kernel's error for which a step was not made.
    pub unmade: u32,
    /// It came to the depth where it ends: to a directory, and an entry in it, from which another call can go on.
    pub deeper: bool,
}

/// What that means.
#[derive(Clone, Copy, Debug, PartialEq, Eq)]
pub enum Met {
    /// The entry is gone, with all that was below it.
    Gone,
    /// It came to a place from which another call goes on.
    Deeper,
    /// It made as many steps as a call may, and removed something.
    Bound,
    /// No descriptor was left for it: EMFILE or ENFILE.
    Crowded(u32),
    /// It ended by another error.
    Failed(u32),
}

pub(crate) fn met_of(answer: &Answer) -> Met
    ensures { result ≡ met_of answer.now }
{
    if answer.deeper {
        Met::Deeper
    } else if answer.error == 0 {
        Met::Gone
    } else if answer.error == EBUSY && answer.unmade == 0 && answer.removed > 0 {
        Met::Bound
    } else if answer.error == EMFILE || answer.error == ENFILE {
        Met::Crowded(answer.error)
    } else {
        Met::Failed(answer.error)
    }
}
