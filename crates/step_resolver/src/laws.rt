//! What the end of every walk tells, in every history, and what its steps do: laws, each the contract of a function
//! without a body.
ghost use Rattle.step_resolver.specs.Headline.{EveryWalk, WalksTell};
ghost use Rattle.step_resolver.specs.OwnSteps.{DueStepsLeaveEntries, OwnEventsLeaveNodes};
ghost use Rattle.step_resolver.specs.Renamed.{LikeWalksAgree};
ghost use Rattle.step_resolver.specs.StepCount.{StepsByPartsPassed};
ghost use Rattle.step_resolver.specs.WorkedRace.{RaceIsWorked};

/// For every interleaving of actors' single steps, a resolution that succeeds opens an object reached by its path's
/// parts, each passed as the tree stood at rising moments of the call, and at its last check the object stood under
/// the root at the names passed; where no entry that it reads is changed meanwhile, its object or error is what
/// in-root resolution of the whole path means (openat2(2), RESOLVE_IN_ROOT). Each failure was true at moments of the
/// call.
pub fn headline()
    ensures { EveryWalk }
{}

/// For every interleaving of actors' single steps, a walk that finds its object reached it by its path's parts,
/// each passed as the tree stood at rising moments of the walk, with at most 40 links, and at a later moment of
/// the walk the object stood under the root at the names passed. A partial end is the same of the parts before
/// the rest, whose first name was missing in between. Each failure was true at moments of the walk. After a
/// failure the actor's open handles are those from before the walk; after the other ends these and one more,
/// which names the object.
pub fn walks_tell()
    ensures { WalksTell }
{}

/// No step that a walk asks for makes, removes or renames an entry, and each of its events leaves the nodes as they
/// were, whatever others do in between.
pub fn own_steps_leave_entries()
    ensures steps { DueStepsLeaveEntries }
    ensures nodes { OwnEventsLeaveNodes }
{}

/// A walk takes at most four steps for each part that it passes, of its path and of the links' texts that it
/// follows, and four more.
pub fn steps_by_parts_passed()
    ensures { StepsByPartsPassed }
{}

/// A walk along `a/b/..` whose directory is moved out of the root meanwhile: a legal history, computed, in which it
/// ends in EAGAIN, and what that tells.
pub fn worked_race()
    ensures { RaceIsWorked }
{}

/// Two walks that are the same but for the numbers of their handles, each of which gets one number in both, are the
/// same with these numbers.
pub fn like_walks_agree()
    ensures { LikeWalksAgree }
{}
