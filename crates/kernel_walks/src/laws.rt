//! What a call tells whose walks the kernel makes: laws, each the contract of a function without a body.
ghost use Rattle.kernel_walks.specs.AtOnce.{FailsAtOnceTell};
ghost use Rattle.kernel_walks.specs.Behind.{EntriesAreChangedBehindWalks};
ghost use Rattle.kernel_walks.specs.Resolves.{ResolvesSeenBelow};
ghost use Rattle.kernel_walks.specs.Tells.{KernelWalksTell};

use root_ops::each_call_tells;

/// A call of any operation, each of whose walks may be one system call (openat2(2), RESOLVE_IN_ROOT or
/// RESOLVE_BENEATH): whatever its lines are, they lead it to its reply, where the history has whatever names as the
/// answer to the question at the end of a walk. It tells what each call tells, or else this: each walk reached its
/// object by the path's parts at rising moments, and the object stood below the root at that question; where others
/// leave alone the entries that the path reads, it is what the path means. A create, a remove or a rename that is Done
/// has one own event after its walks that changes entries, through the handles that the walks found, open then on what
/// they found; the entries after the event are those of the step table. A link's text is the one that was there as it
/// was read. A fault is the refusal of that own event, as the step table gives it there, or a want; of a rename also
/// the second walk's. After a fault the actor's open handles are those from before the call, after Opened these and one
/// more. Where nobody else acts in the window, the call tells what each call tells, and so what the operation means.
pub fn kernel_walks_tell()
    ensures { KernelWalksTell }
{
    each_call_tells();
}

/// A resolve that one system call walks as a whole, whatever lines it stands for: if they and the question where the
/// object stands lead it to the reply that this was opened, then in each legal history with whatever names as the
/// answer there the object was reached by the path's parts, and stood below the root at that question.
pub fn resolves_seen_below()
    ensures { ResolvesSeenBelow }
{}

/// Of no history: a create or a remove makes its change behind a walk, a resolve's of the directory part of its path.
/// It asks for one step behind that, on the last name by the handle that the walk found, whose answer is the reply;
/// then it closes the handle.
pub fn entries_are_changed_behind_walks()
    ensures { EntriesAreChangedBehindWalks }
{}

/// A resolve of a path of which `misses_at_once` is true, by whatever handles each name was opened in the directory
/// before it, up to one that is missing there: the opens, that refusal, and the closes between are the lines of that
/// call. It fails by ENOENT. In each legal history in which these lines are the caller's own events, it tells what each
/// call tells.
pub fn fails_at_once_tell()
    ensures { FailsAtOnceTell }
{
    each_call_tells();
}
