//! What each step comes to, as laws over its exchanges: each function's contract is one, and its body is empty.
ghost use Rattle.linux_steps.specs.Changes.{ChangesStood};
ghost use Rattle.linux_steps.specs.Promises.{ClosesStood, DupsStood, LinksWereRead, OpensStood, ParentsStood, ThereStood};
ghost use Rattle.linux_steps.specs.Rules.{StepsKeepRules};

/// What answers of Linux say of the tree, each at its moment, is a premise (`specs/Linux.antt`). With it: what is
/// opened, the step table opened at a moment of a call, of just that kind. And where the step is refused, the step
/// table refused it so at a moment of a call. Each other descriptor is as it was.
pub fn opens_stood()
    ensures { OpensStood }
{}

/// The same of the directory above. Removal is for good: so the child is asked afterwards whether it is there. Where
/// removed directories keep links (overlayfs, cgroups, btrfs) that can't be asked of one that may not be read.
pub fn parents_stood()
    ensures { ParentsStood }
{}

/// The same of the question whether a directory is there. One that is said to be there was so at a moment of a call;
/// and one that is said to be gone was removed by the last of them.
pub fn there_stood()
    ensures { ThereStood }
{}

/// The same of a link's text.
pub fn links_were_read()
    ensures { LinksWereRead }
{}

/// A directory is opened once more, at a moment of a call.
pub fn dups_stood()
    ensures { DupsStood }
{}

/// What is closed is closed, whatever close(2) gives.
pub fn closes_stood()
    ensures { ClosesStood }
{}

/// The same of what one system call makes, removes or renames (mkdirat(2), mknodat(2), symlinkat(2), openat(2) with
/// O_CREAT and O_EXCL, linkat(2); unlinkat(2); renameat2(2)), in the tree as that call finds it. One case is left: what
/// is no directory is renamed onto a directory with entries that is above it. Linux refuses that by ENOTEMPTY, and the
/// step table by EISDIR.
pub fn changes_stood()
    ensures { ChangesStood }
{}

/// Whatever the system calls of a look give: where the step is made, no error was passed over, but for ENOTDIR of a
/// name that is opened as what it is then, an answer that a link is no magic one (proc(5)), and what could not be asked
/// of a file system, or of a directory of one that keeps links. A link's text is read only where two answers allow that
/// it is followed: its mount has links followed (statfs(2)), and it is no magic one. What is opened of the tree is on
/// the root's mount, if it must be (openat2(2), RESOLVE_NO_XDEV). A step is refused by its own error alone. Nothing is
/// changed; and there are seven system calls at most, except for signals.
pub fn steps_keep_rules()
    ensures { StepsKeepRules }
{}
