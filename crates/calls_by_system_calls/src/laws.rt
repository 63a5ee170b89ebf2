//! What calls of `root_ops` tell whose steps are made by system calls.
ghost use Rattle.calls_by_system_calls.specs.Conversations.{ConversationsAreCalls, UnmadeStepsEndCalls};
ghost use Rattle.calls_by_system_calls.specs.Joined.{CallsTellBySystemCalls, LinesHaveHistories};
ghost use Rattle.calls_by_system_calls.specs.Places.{AskedPlacesStood};
ghost use Rattle.calls_by_system_calls.specs.Refusals.{StepsAreRefusedSo};
ghost use Rattle.calls_by_system_calls.specs.WholeCalls.{EntriesAreChangedBySystemCalls, EntriesAreRenamedBySystemCalls, PathsAreOpenedBySystemCalls};
ghost use Rattle.calls_by_system_calls.specs.WorkedRace.{RaceIsMade};
ghost use Rattle.calls_by_system_calls.specs.WorkedWhole.{WholeMkdirIsMade};

use find_place::places_stood;
use kernel_walks::{fails_at_once_tell, kernel_walks_tell, resolves_seen_below};
use root_ops::calls_tell_by_any_numbers;

/// Of no history, from what `Call::start`, `take` and `pass` of `root_ops` say alone, whatever the answers are: each
/// exchange is a line of the call, the step that was due with its answer; or a step other than Close that counts as not
/// made, since its answer was a want of memory. The lines lead from the operation's first turn to the reply. So each
/// law of `root_ops` on a call's lines speaks of them: by `calls_tell` and `each_call_tells`, in each legal history in
/// which they are the caller's own events; and by `opened_are_closed`, in no history.
pub fn conversations_are_calls()
    ensures { ConversationsAreCalls }
{}

/// Of no history: after a step that wasn't made, which is no Close and is answered by ENOMEM, nothing but Closes is
/// due, and the call fails by ENOMEM in the end. So it makes no change after that step and opens nothing. A program
/// answers so where the step table has no word for what a system call gave it, as EACCES, EIO or ENOSPC; then it knows
/// why the call failed (errno(3)).
pub fn unmade_steps_end_calls()
    ensures { UnmadeStepsEndCalls }
{}

/// The step table refuses a step by no other error than those by which `linux_steps` refuses it, in any tree: except
/// for a handle that isn't open or is on no directory, for want of handles or numbers, and for EINVAL of a text with a
/// NUL, or of a directory that can't go into itself (renameat2(2)).
pub fn steps_are_refused_so()
    ensures { StepsAreRefusedSo }
{}

/// A call each of whose Opens, Dups, Parents and ReadLinks is a whole conversation of `linux_steps`, and each change of
/// an entry one system call, while others change the tree between any two of these.
/// What each answer of Linux says of the tree at its moment is a premise (openat2(2), statx(2), readlink(2), rmdir(2),
/// statfs(2), getdents(2), mkdir(2), mknod(2), symlink(2), link(2), unlink(2), renameat2(2); `specs/Linux.antt` and
/// `specs/Changes.antt` of `linux_steps`). So is it that a Close closes. The answer to a NameBelow is a place in
/// which a conversation of `find_place` ended, or the root's own; that any other, and that to a List, was so at
/// one of its moments is a premise. Then there is a history that begins with the tree as the call did: what others
/// did, with the call's steps among it, each at a moment of its own system calls. In this history the call tells what
/// `each_call_tells` of `root_ops` says, by whatever numbers the program gave to handles and nodes: which handles it
/// leaves open; where nobody else acts in the window, that its reply and the nodes after it are those of the operation
/// done whole; of the walk with which it begins the headline (openat2(2), RESOLVE_IN_ROOT); that a resolve replies by
/// the end of this walk; and of the calls that make or remove all which entries they made or took away and why they
/// failed (mkdir(2), unlink(2), rmdir(2)).
pub fn calls_tell_by_system_calls()
    ensures { CallsTellBySystemCalls }
{
    conversations_are_calls();
    calls_tell_by_any_numbers();
}

/// Any lines that are made so have such a history. So what a law on a call in a legal history says, of `root_ops`, of
/// `kernel_walks` or here, holds there. Where one system call walks a path as a whole, that its steps were such lines
/// is a premise (path_resolution(7)).
pub fn lines_have_histories()
    ensures { LinesHaveHistories }
{}

/// A whole call that makes or removes an entry, whose directory the kernel looks up as a whole: the system calls that
/// `change_entry` of `kernel_calls` asks for, and what each answer says of the call's own lines in a history
/// (openat2(2), mkdirat(2), mknodat(2), openat(2), symlinkat(2), unlinkat(2), close(2); the table of
/// `specs/SystemCalls.antt`). In each legal history with these lines the call tells what `kernel_walks_tell` says: the
/// directory was reached by the path's parts and stood below the root at the kernel's check, and one own event changes
/// entries, there. One that fails for its directory does so by ENOENT, since a name of its path is missing.
pub fn entries_are_changed_by_system_calls()
    ensures { EntriesAreChangedBySystemCalls }
{
    kernel_walks_tell();
    fails_at_once_tell();
}

/// The same of a rename (renameat2(2)), each of whose directories the kernel looks up, or is the root itself: one own
/// event renames the entry, from the one directory to the other. Either directory may be missing.
pub fn entries_are_renamed_by_system_calls()
    ensures { EntriesAreRenamedBySystemCalls }
{
    kernel_walks_tell();
    fails_at_once_tell();
}

/// A whole call that opens what a path means, by the same table: the object was reached by the path's parts and stood
/// below the root at the kernel's check (`resolves_seen_below`), and the reply's descriptor is a handle on it. One that
/// fails does so by ENOENT: its last look-up follows no link (RESOLVE_NO_SYMLINKS), and found a name of the path
/// missing (path_resolution(7)). Then the call tells what each call tells (`fails_at_once_tell`).
pub fn paths_are_opened_by_system_calls()
    ensures { PathsAreOpenedBySystemCalls }
{
    resolves_seen_below();
    fails_at_once_tell();
}

/// Where a conversation of `find_place` told a place, and its names are the answer to a NameBelow, this answer was
/// so at the moment of one of its system calls (getcwd(2), proc(5), openat2(2), statx(2)). Of what the kernel had seen
/// below the root right before it is supposed that it isn't removed.
pub fn asked_places_stood()
    ensures { AskedPlacesStood }
{
    places_stood();
}

/// What is supposed can be met: a directory is made at `a/b/../new`, in one that another moves out of the root between
/// two of the call's seventeen system calls.
pub fn worked_race_is_made()
    ensures { RaceIsMade }
{}

/// The same of a whole call, by `entries_are_changed_by_system_calls`: a directory is made by three system calls, in
/// one that the kernel looked up, and that another moves out of the root before the second.
pub fn worked_whole_is_made()
    ensures { WholeMkdirIsMade }
{}
