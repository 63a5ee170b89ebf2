//! What holds of every call, in every history: laws, each the contract of a function without a body.
ghost use Rattle.root_ops.specs.Blind.{CallsBeginBlindly, StepsAreDueBlindly, AnswersAreTakenBlindly, LinesLeadBlindly, CallsTellByAnyNumbers};
ghost use Rattle.root_ops.specs.BulkTells.{BulkCallsTell};
ghost use Rattle.root_ops.specs.CallHistory.{CallsTell};
ghost use Rattle.root_ops.specs.EachCall.{EachCallTells};
ghost use Rattle.root_ops.specs.FreeHandles.{FourAreEnough};
ghost use Rattle.root_ops.specs.OwnHandles.{OpenedAreClosed};
ghost use Rattle.root_ops.specs.StepCount.{FiveAfterWalks, BulkAfterWalks};
ghost use Rattle.root_ops.specs.VainCalls.{VainCallsNeedChanges};

use crate::acts_laws::calls_act;
use crate::quiet_laws::quiet_calls_mean;

/// Once its walks are over a call makes at most five steps, if it is no bulk call. After its walk a MkdirAll makes
/// at most three steps for each part of the rest of its path and two more, and a RemoveAll `CLEARING_STEPS_MAX`
/// steps of clearing, after which it only closes what it holds, in all at most two for each of these and one more.
pub fn five_steps_after_walks()
    ensures own { FiveAfterWalks }
    ensures bulk { BulkAfterWalks }
{}

/// After a fault the actor's open handles are those from before the call; after Opened these and one more, which is
/// open on the node that was told; a Release that is done takes its own away; and no other reply changes any. So it
/// is for every interleaving of actors' single steps, where the root's handle is open as the window begins, is the
/// actor's own and is on a directory.
pub fn calls_tell()
    ensures { CallsTell }
{}

/// Of no history, whoever acts and whether the root is open or not: where each answer fits its step, so that only an
/// Open, a Dup or a Parent is answered by a handle, a call's own lines close each handle as often as they opened it;
/// after Opened all but the one that is told. A Release opens nothing.
pub fn opened_are_closed()
    ensures { OpenedAreClosed }
{}

/// The reply to a MkdirAll or a RemoveAll is the end of such a call of `bulk_ops` with the same lines, which tells
/// of the history what the laws `makes_tell` and `remove_all_tells` say: which entries it made or took away, and why
/// it failed, for every interleaving of actors' single steps (mkdir(2), unlink(2), rmdir(2)).
pub fn bulk_calls_tell()
    ensures { BulkCallsTell }
{}

/// One call, outright, in every legal history in which the root's handle is open as the window begins, is the
/// actor's own and is on a directory: which handles it leaves open, as in `calls_tell`; where nobody else acts in
/// its window, what it comes to, as in `quiet_calls_mean`; of the walk with which it begins (the old path's of a
/// Rename), whoever acts meanwhile, the headline (openat2(2), RESOLVE_IN_ROOT); that a resolve replies by the end of
/// this walk; of the step after the walks what `calls_act` says; and of a MkdirAll and a RemoveAll by the reply
/// which entries it made or took away and why it failed (mkdir(2), unlink(2), rmdir(2)).
pub fn each_call_tells()
    ensures { EachCallTells }
{
    calls_tell();
    quiet_calls_mean();
    calls_act();
    bulk_calls_tell();
}

/// Four free handles are enough for a call that walks, but for a RemoveAll, which holds a directory for each level
/// below its target. Where the actor can open four more as the window begins, such a call ends in TooMany only where
/// the numbers of handles or of nodes are used up, whoever acts meanwhile (openat2(2), EMFILE).
pub fn four_handles_are_enough()
    ensures { FourAreEnough }
{
    each_call_tells();
}

/// Where calls that walk are answered EAGAIN, one after another, each met a change of its own: a step of another in the
/// call's window that made, removed or renamed an entry. So with fewer changes meanwhile one of them has another reply
/// (openat2(2), EAGAIN). Below a root that is gone a MkdirAll can make nothing, so its root has to stand as it begins.
pub fn vain_calls_need_changes()
    ensures { VainCallsNeedChanges }
{}

/// A call looks at no number of a handle or a node. With other numbers it begins in the same way, the same steps are
/// due by them, and an answer makes the same of it; so lines lead it there by any numbers.
pub fn calls_are_blind()
    ensures begins { CallsBeginBlindly }
    ensures due { StepsAreDueBlindly }
    ensures takes { AnswersAreTakenBlindly }
    ensures leads { LinesLeadBlindly }
{}

/// A call that somebody drives by his own numbers of handles and nodes tells what each call tells, in every legal
/// history in which it is made by the history's numbers.
pub fn calls_tell_by_any_numbers()
    ensures { CallsTellByAnyNumbers }
{
    each_call_tells();
}
