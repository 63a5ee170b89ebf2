//! What holds of every call to `MkdirAll`: laws, each the contract of a function without a body.
ghost use Rattle.bulk_ops.specs.MakeAllTells.{MakesTell};
ghost use Rattle.bulk_ops.specs.MakeAllSteps.{StepsAfterTheWalk};
ghost use Rattle.bulk_ops.specs.MakeAllQuiet.{QuietMakesMean};
ghost use Rattle.bulk_ops.specs.MakeAllWorked.{MakesAreWorked};
ghost use Rattle.bulk_ops.specs.RacedCalls.{RacedMakesNeedAChange};
ghost use Rattle.bulk_ops.specs.MakeAllQuietWorked.{MakeIsWorked};

/// After its walk a call takes at most three steps for each part of the rest of the path, and two more; and one
/// where the walk found what the whole path means.
pub fn steps_after_the_walk()
    ensures { StepsAfterTheWalk }
{}

/// For every interleaving of actors' single steps, a call makes entries only in the deepest directory that its walk
/// came to and in directories that it then opened by the names of the rest, in order and never through a link; each
/// by one of its own events, and its other events leave the nodes. Made, the last directory was reached by all these
/// names, and stood under the root at the names of the deepest one followed by them, at the call's last event; or
/// the whole path led to a directory that was there, and nothing was made. Each failure was true at moments of the
/// call. After a failure the actor's open handles are those from before the call; after the other end these and one
/// more, which names the directory.
pub fn makes_tell()
    ensures { MakesTell }
{}

/// A call that ends in Raced met a step of another in its window that made, removed or renamed an entry, if the
/// root's directory stands as the window begins. Below a root that is gone nothing can be made (openat2(2), EAGAIN).
pub fn raced_makes_need_a_change()
    ensures { RacedMakesNeedAChange }
{}

/// Where no other actor's event stands in the call's window, the call's end and the nodes after it are those that
/// the path means in the tree as the window begins: the directory that is there; `NotDir` for anything else; the
/// first fault of the rest; `Raced` where the directory that lacks a name is gone; else a chain of new directories
/// below it, the last of them the reply, which stands at the names told. Or memory, room in a book or handles ran
/// short, which is the error, and what was made is a part of that chain, from its first directory on. mkdir(2),
/// path_resolution(7).
pub fn quiet_makes_mean()
    ensures { QuietMakesMean }
{}

/// What the definition comes to on a small tree.
pub fn worked_makes()
    ensures { MakesAreWorked }
{}

/// One call where nobody else acts, with its ten steps, computed: what it ends with, and the nodes then.
pub fn worked_make_call()
    ensures { MakeIsWorked }
{}
