//! What holds of every conversation: laws, each the contract of a function without a body.
ghost use Rattle.find_proc.specs.Promises.{FindsHold, HandingHolds, LooksHold, MakingHolds, NoneIsMade};

/// A /proc for a call is the one at hand, if the last answer about it says so: it is on the mount that is kept, whose
/// number is known, and of its device; and if it must be the very file, of its inode. Or it is a new one, which was
/// seen to be a proc(5) on a mount that follows links since it was opened, and of which it was asked which file it is.
/// That is the program's, if its place was claimed, and else the call's to close.
///
/// /proc is opened only if the program has handed none in, and only once an answer has said of the one that is kept
/// that it isn't the one. What is closed or kept is open then, and nothing else is open in the end. A place that was
/// claimed is filled. It fails by the last error that it met, or by ENOSYS. There are 11 exchanges at most, except for
/// signals.
pub fn a_proc_is_found()
    ensures { FindsHold }
{}

/// The program's /proc is lost only if the kernel lacks what is needed, or an answer said so. It is not if the last
/// answer about it shows the very file. There are four exchanges at most, except for signals.
pub fn the_kept_one_is_looked_at()
    ensures { LooksHold }
{}

/// What the program hands in is copied once it was seen to be a proc(5) on a mount that follows links. The copy is
/// kept, if the program's place was claimed; and it was asked which file it is. /proc isn't opened.
///
/// If it fails, the copy is closed, and the program's place is free again if it was claimed. It fails by the last
/// error that it met: EINVAL of what is no such proc(5); EBUSY if the place is taken. There are 11 exchanges at most,
/// except for signals.
pub fn a_proc_is_handed_in()
    ensures { HandingHolds }
{}

/// What is handed in was made by fsmount(2) or open_tree(2), is open, and was seen since to be a proc(5) on a mount
/// that follows links, which has the calling thread. A new one was asked to have only what is of processes. /proc is
/// copied only once an error said that there is no new one. Each descriptor is closed, except the copy that is the
/// program's.
///
/// If the program has one already, no system call is made. It fails by the last error that it met, except that of
/// open_tree(2). There are 30 exchanges at most, except for signals.
pub fn a_proc_is_made()
    ensures made { MakingHolds }
    ensures none { NoneIsMade }
{}
