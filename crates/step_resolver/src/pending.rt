//! What is due in a walk, and what the answer comes to.
ghost use Rattle.std.specs.Prelude.{◌≡◌};
ghost use Rattle.step_resolver.specs.View.{HoldsNoLink, is_ending};

use handles::{Reached, Standing};
use path_text::Errno;
use tree_model::HandleNo;

/// The step that is due. What is held lies beside it: the place, and none is the root itself, which has no handle of
/// the walk's own. What is to be closed is its handle alone.
#[derive(Debug)]
pub(crate) enum Pending {
    /// The name at the plan's next part is opened, from the place.
    Opening,
    /// The text of this link is read, which stands in the place at the plan's next part, and is followed.
    Reading(Reached),
    /// The parent of what is held is opened. The plan has gone up already.
    Rising,
    /// The place of a parent that was opened is asked.
    Judging,
    /// The root is opened again, to hold it at the end.
    Duping,
    /// The place of what is held at the end is asked.
    Ending,
    /// The first is closed, then the second.
    Closing {
        first: HandleNo,
        second: Option<HandleNo>,
        after: AfterClose,
    },
}

impl Pending {
    /// Whether the last check is due.
    pub(crate) fn is_ending(&self) -> bool
        ensures { result ≡ is_ending self.now }
    {
        matches!(self, Pending::Ending)
    }

    /// Lets go of a step that holds no link.
    pub(crate) fn let_go(self)
        requires { HoldsNoLink self }
    {
        match self {
            Pending::Opening
            | Pending::Rising
            | Pending::Judging
            | Pending::Duping
            | Pending::Ending => {}
            Pending::Closing {
                first: _,
                second: _,
                after: _,
            } => {}
            // A link is to be closed.
            _ => unreachable!(),
        }
    }
}

/// What comes once all that is due to be closed is closed.
#[derive(Clone, Copy, Debug)]
pub(crate) enum AfterClose {
    /// The walk fails.
    Gives(Errno),
    /// It goes on from the place.
    Onward,
    /// The place of a parent that was opened is asked.
    Judges,
}

/// What comes after an answer: the next step, or the failure.
#[derive(Debug)]
pub(crate) enum Next {
    /// This step is due.
    Due(Pending),
    /// All that was opened is closed.
    Failed(Errno),
}

/// What comes after the last check. The rest of a partial end stays in the plan.
#[derive(Debug)]
pub(crate) enum End {
    /// The object that the whole path means.
    Found(Standing),
    /// The deepest directory on the way.
    Partial(Standing),
    /// It stands elsewhere, and this step is due.
    Due(Pending),
}
