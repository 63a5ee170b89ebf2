//! What a call holds while the step that is due is made, and what its answer comes to.
ghost use Rattle.std.specs.Prelude.{◌≡◌, true};
ghost use Rattle.root_ops.specs.declared.below.Below.{Below};
ghost use Rattle.root_ops.specs.View.{HoldsNoCall, IsOurs, is_aimed, aim_of};

use crate::aim::{Aim, Renaming, Wanted};
use crate::reply::Reply;
use bulk_ops::{MkdirAll, RemoveAll};
use path_text::NoMemory;
use std::alloc::Global;
use std::mem;
use step_resolver::Walk;
use tree_model::{HandleNo, LentStep, Step, StepOf};

/// Handles that are closed in their order: just opened first.
#[derive(Clone, Copy, Debug, PartialEq, Eq)]
pub(crate) enum Handles {
    Empty,
    One(HandleNo),
    Two(HandleNo, HandleNo),
    Three(HandleNo, HandleNo, HandleNo),
}

/// The step that is due, by what is held while it is made.
#[derive(Debug)]
pub(crate) enum Doing {
    /// That of a walk, which lies beside the box: what is done with the object that it finds.
    Aimed(Aim),
    /// The call's own step, whose answer gives the reply; then the handles are closed.
    Acting {
        wanted: Wanted,
        step: Step,
        held: Handles,
    },
    /// Open of the entry to be renamed, to see that it is a directory. The old directory and the new one are held.
    Checking {
        old: HandleNo,
        new: HandleNo,
        renaming: Renaming,
    },
    /// The first is closed, then the others.
    Closing {
        first: HandleNo,
        others: Handles,
        after: After,
    },
    /// That of a call that makes all that is missing of a path.
    Making(MkdirAll),
    /// That of a call that removes an entry with all that is below it.
    Removing(RemoveAll),
}

/// What comes once all that is due to be closed is closed.
#[derive(Debug, Drop)]
pub(crate) enum After {
    /// The call ends.
    Gives(Reply),
    /// Its own step is due.
    Acts {
        wanted: Wanted,
        step: Step,
        held: Handles,
    },
}

/// What comes after an answer: the next step, or the end.
#[derive(Debug)]
pub(crate) enum Next {
    Walks(Walk, Aim),
    Due(Doing),
    Over(Reply),
}

/// A call under way: a walk, with its aim in the box; what is due in the box, which is changed in place; or the
/// release of a handle, which takes no memory.
#[derive(Debug)]
pub(crate) enum Stage {
    Walking(Walk, Box<Doing>),
    Boxed(Box<Doing>),
    Releasing(HandleNo),
}

impl Doing {
    ghost use Rattle.root_ops.specs.Order.{due};
    ghost use Rattle.root_ops.specs.View.{doing_view};

    /// Holds no call, and stands in a box from which what was there is moved.
    pub(crate) fn stand_in(handle: HandleNo) -> Doing
        ensures { HoldsNoCall result }
    {
        Doing::Acting {
            wanted: Wanted::Done,
            step: StepOf::Dup(handle),
            held: Handles::Empty,
        }
    }

    /// The step that is due.
    pub(crate) fn due(&self) -> LentStep<'_>
        requires { (below : Below) × IsOurs below self.now }
        ensures { (below : Below) → IsOurs below self.now → result ≡ due below (doing_view self.now) }
    {
        match self {
            // A walk's step is the walk's.
            Doing::Aimed(_) => unreachable!(),
            Doing::Acting {
                wanted: _,
                step,
                held: _,
            } => step.lend(),
            Doing::Checking {
                old,
                new: _,
                renaming,
            } => StepOf::Open(*old, renaming.old.lend()),
            Doing::Closing {
                first,
                others: _,
                after: _,
            } => StepOf::Close(*first),
            Doing::Making(call) => call.due(),
            Doing::Removing(call) => call.due(),
        }
    }

    /// A walk's aim.
    pub(crate) fn aim(&self) -> &Aim
        requires { is_aimed self.now ≡ true }
        ensures { result.now ≡ aim_of self.now }
    {
        match self {
            Doing::Aimed(aim) => aim,
            _ => unreachable!(),
        }
    }

    /// Takes a walk's aim out of the box.
    pub(crate) fn take_aim(&mut self, handle: HandleNo) -> Aim
        requires { is_aimed self.old ≡ true }
        ensures aim { result ≡ aim_of self.old }
        ensures stand_in { HoldsNoCall self.new }
    {
        // Nothing can be moved out of a box: a step stands in until the next one is known.
        match mem::replace(self, Doing::stand_in(handle)) {
            Doing::Aimed(aim) => aim,
            _ => unreachable!(),
        }
    }

    /// Lets go of what holds no call.
    pub(crate) fn let_go(self)
        requires { HoldsNoCall self }
    {
        match self {
            Doing::Aimed(_) => {}
            Doing::Acting {
                wanted: _,
                step: _,
                held: _,
            } => {}
            Doing::Checking {
                old: _,
                new: _,
                renaming: _,
            } => {}
            Doing::Closing {
                first: _,
                others: _,
                after: _,
            } => {}
            // No bulk call can be let go.
            _ => unreachable!(),
        }
    }
}
