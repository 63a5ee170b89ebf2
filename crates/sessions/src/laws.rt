//! What the calls of sessions tell in a closed history: laws, each the contract of a function without a body.
ghost use Rattle.std.specs.Prelude.{◌≡◌};
ghost use Rattle.sessions.specs.Course.{RootsStand, ServicesTell};
ghost use Rattle.sessions.specs.EachCall.{EachCallTells};
ghost use Rattle.sessions.specs.declared.open.TheConstants.{SESSIONS_MAX};
ghost use Rattle.sessions.specs.Threads.{CallsStandInOrder, WalksInThreads};

use root_ops::each_call_tells;
use step_resolver::headline;

/// What a session logged by a call stands in the history after all that it had logged before, and before all that it
/// logs later: a session's calls have one order in the history.
pub fn calls_stand_in_order()
    ensures { CallsStandInOrder }
{}

/// The headline for threads: each walk inside each call of each session tells, in the history that a closed service
/// gives, what a walk among others tells: what was found was reached part by part at rising own moments, and stood
/// under the root at its names at the last check; each failure was true; and where no entry that the walk reads is
/// changed by others meanwhile, the end is what the path means. So it is in each window that has just the walk's own
/// events, the shortest too. The root's handle isn't released before.
pub fn walks_tell_in_threads()
    ensures { WalksInThreads }
{
    headline();
}

/// One session's call, outright: it has a window in the closed history, and in each that begins after what the session
/// had logged before and has just the call's own events of it, the call tells what it tells in any history. Which
/// handles it leaves open; where no other session's event falls in the window, that the reply and the nodes after it
/// are those of the operation done whole, also of a Release. Whoever acts meanwhile: of the walk with which it begins
/// the headline, and of a Resolve or ResolveNoFollow that this walk's end is the reply (openat2(2), RESOLVE_IN_ROOT);
/// of the step after its walks which own event it is, on what they found, and why it was refused; of a MkdirAll and a
/// RemoveAll which entries it made or took away and why it failed (mkdir(2), unlink(2), rmdir(2)).
pub fn each_call_tells_in_threads()
    ensures { EachCallTells }
{
    each_call_tells();
}

/// A service from its opening to its closing: what `Service::open`, `Session::call`, `Service::stop` and
/// `Stopped::close` ensure is what the laws above ask for. Over a tree, each session's root is open in the closed
/// history, the session's own, and on the directory at the root's names; and of each call that a session made while
/// it had not released its root, the reply tells there what `each_call_tells_in_threads` says.
pub fn services_tell()
    ensures roots { RootsStand }
    ensures calls { ServicesTell }
{
    each_call_tells();
}

/// A service has at most 64 sessions.
pub fn sessions_limit_is_a_number()
    ensures { SESSIONS_MAX ≡ 64 }
{}
