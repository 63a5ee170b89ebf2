//! What a report tells of each actor's calls, and of the walks in them: laws, each the contract of a function
//! without a body. They begin from what `World::new` and `World::run` ensure, over a tree that was given. A plan
//! that closes only what its calls opened (`ReleasesOwn` of `specs/WorldCalls.antt`) names what it releases by the
//! call's number; it hands in no Standing from elsewhere that has the actor's own owner.
ghost use Rattle.race_core.specs.EndHandles.{HandlesAtEnd, RootsStayOpen, KeptIsReleased};
ghost use Rattle.race_core.specs.WorkedRun.{UndisturbedIsMeant};
ghost use Rattle.race_core.specs.WorldLaws.{CallsHaveWindows, CallsInOrder, CallsInReports, FourAreEnoughInReports, ResolvesAlone, ResolvesInReports, WalksInReports};

use root_ops::{calls_tell, each_call_tells, four_handles_are_enough};
use step_resolver::headline;

/// In a report each actor's own events are those of its planned calls, one after another. Each call asked for what
/// is planned with what those before it keep; its lines lead, by the order of its operation's steps, from its first
/// turn to its reply, some of them booked and some refused without an event; and the replies in the report are their
/// outcomes. The history is legal from the tree with the roots granted, and the actor's root is open there on a
/// directory. Where the plan closes only what its calls opened, none of its events closes the root, and each Release
/// of what is kept is done.
pub fn actors_calls_stand_in_order()
    ensures { CallsInOrder }
{}

/// Each call of an actor has a window in the report's history: events in a row, among which the actor's own are just
/// the call's, after those of its calls before. It begins with the call's first event. And it has a reply.
pub fn calls_have_windows()
    ensures { CallsHaveWindows }
{}

/// The headline for reports: each walk of an actor, alone or inside a call, tells what a walk among others tells,
/// for every schedule and in each window that has just the walk's own events: what was found was reached part by part
/// at rising own moments, and stood under the root at its names at the last check; each failure was true; and where no
/// entry that the walk reads is changed by others in the window, the end is what the path means as the window begins.
/// The actor's plan closes only what its calls opened.
pub fn walks_tell_in_reports()
    ensures { WalksInReports }
{
    headline();
}

/// Each call of an actor, in each window that has just its own events, is one of which the law `each_call_tells` of
/// `root_ops` speaks, and tells all that this says: which handles it leaves open; where nobody else acts in the window,
/// that the reply and the nodes are those of the operation done whole, from the tree as the window begins; of the walk
/// with which it begins the headline; the step after its walks; and what a bulk call did. The actor's plan closes only
/// what its calls opened.
pub fn calls_tell_in_reports()
    ensures { CallsInReports }
{
    each_call_tells();
}

/// With four free handles as its window begins, a call that walks ends in EMFILE only where the numbers of handles or
/// of nodes are used up, whoever acts meanwhile; but for a RemoveAll. The actor's plan closes only what its calls
/// opened.
pub fn four_handles_are_enough_in_reports()
    ensures { FourAreEnoughInReports }
{
    each_call_tells();
    four_handles_are_enough();
}

/// A Resolve or ResolveNoFollow among an actor's calls, outright, in each window that has just its own events: what its
/// outcome in the report says was opened was reached by its path's parts at rising moments of the call and stood under
/// the root at the names passed at its last check; a fault is the text's, or NoMemory where the call's first turn found
/// none, and then no step was made, or was true at moments of the call; and where no entry that the path reads is
/// changed by another actor in the window, the object or the error is what the path means in the tree as the window
/// begins (openat2(2), RESOLVE_IN_ROOT). The actor's plan closes only what its calls opened.
pub fn resolve_tells_in_reports()
    ensures { ResolvesInReports }
{
    headline();
}

/// The same of an actor that makes one such call and nothing else, from what `World::new` and `World::run` ensure:
/// its one reply in the report.
pub fn single_resolve_tells()
    ensures { ResolvesAlone }
{
    headline();
}

/// An actor renames a directory, and then another resolves its new name: a run of a world, computed. In the window from
/// the resolve's first event to its last nobody else acts, so the law says what it comes to: the directory, though the
/// path meant nothing as the history began. No other outcome tells what a resolve tells there, but for want.
pub fn undisturbed_resolve_is_worked()
    ensures { UndisturbedIsMeant }
{}

/// At the end an actor's open handles are those from the opening, its root among them, and those that its calls
/// opened, less those that a Release of its own closed, each on its node; and nothing else. A step of a plan opens
/// and closes none. The actor's plan closes only what its calls opened.
pub fn handles_at_end()
    ensures { HandlesAtEnd }
{
    calls_tell();
}

/// At each moment of a report an actor's root is open, its own, and on the node on which it was granted, where the
/// actor's plan closes only what its calls opened: its calls close what they opened, and a step of a plan closes
/// nothing.
pub fn roots_stay_open()
    ensures { RootsStayOpen }
{}

/// What a call opened and still keeps is open, and its Release is done (close(2)), where the actor's plan closes
/// only what its calls opened. A Close takes neither memory nor a line that others could take.
pub fn kept_is_released()
    ensures { KeptIsReleased }
{}
