//! The single steps on a tree.
ghost use Rattle.std.specs.Prelude.{◌≡◌, IsTrue, ◌↔◌, IfOk};

use crate::number::HandleNo;
use path_text::{Bytes, LentBytes, LentName, Name, NoMemory};
use std::alloc::Global;

/// What a node is, without a link's text.
#[derive(Clone, Copy, Debug, PartialEq, Eq)]
pub enum Kind {
    Dir,
    File,
    Link,
}

/// How a rename treats an entry that is there already (renameat2(2)).
#[derive(Clone, Copy, Debug, PartialEq, Eq)]
pub enum Mode {
    /// It is replaced.
    Plain,
    /// It refuses the rename (RENAME_NOREPLACE).
    NoReplace,
    /// It takes the place of the renamed one (RENAME_EXCHANGE).
    Exchange,
}

/// A single step. Its directories and objects are named by handles `H`, and a name is looked up in one
/// directory alone; no step follows a link. Its names `N` and its text `T` are its own, or they are lent
/// (`LentStep`).
///
/// A step is refused BadHandle (EBADF) first, if a handle that it names isn't open or isn't the actor's. Then come
/// the refusals that are listed at the step. If several hold, the answer is the first of them. A refused step
/// changes nothing. A step that opens is refused TooMany (EMFILE) if the actor has 1,024 handles open or the
/// numbers of handles are used up.
#[derive(Debug, Drop)]
pub enum StepOf<H, N = Name, T = Bytes> {
    /// Opens the child of that name, whatever it is: openat(2) with O_PATH and O_NOFOLLOW.
    ///
    /// Refused: NotDir (ENOTDIR) where the handle is on no directory, NotFound (ENOENT) where it has no such
    /// entry, TooMany (EMFILE).
    Open(H, N),
    /// Opens the same node again: dup(2). Refused: TooMany (EMFILE).
    Dup(H),
    /// Opens the directory in which a directory stands, and for the top the top: openat(2) of `..` with O_PATH.
    ///
    /// Refused: NotDir (ENOTDIR) where the handle is on no directory, NotFound (ENOENT) where the directory was
    /// removed, TooMany (EMFILE).
    Parent(H),
    /// Reads a link's text: readlinkat(2) with an empty path. Refused: Invalid (EINVAL) where the handle is on no
    /// link.
    ReadLink(H),
    /// The names from the first handle's node down to the second's; `NotBelow` where it doesn't stand below it.
    /// Linux has no call for it; a program reads both names in `/proc/self/fd` (proc(5)). Not refused otherwise.
    NameBelow(H, H),
    /// The names of a directory's entries, by their bytes and without `.` and `..`: getdents64(2), which gives them
    /// in any order. Refused: NotDir (ENOTDIR) where the handle is on no directory.
    List(H),
    /// Closes the handle: close(2). Not refused otherwise.
    Close(H),
    /// Makes an empty directory, and opens nothing: mkdirat(2).
    ///
    /// Refused: NotDir (ENOTDIR) where the handle is on no directory, NotFound (ENOENT) where the directory was
    /// removed, Exists (EEXIST) where it has such an entry, TooMany (EMFILE) where the numbers of nodes are used
    /// up.
    MakeDir(H, N),
    /// Makes a file, and opens nothing: openat(2) with O_CREAT and O_EXCL, or mknodat(2). Refused as `MakeDir`.
    MakeFile(H, N),
    /// Makes a link with that text: symlinkat(2).
    ///
    /// Refused: NotFound (ENOENT) where the text is empty, Invalid (EINVAL) where it has a NUL, TooLong
    /// (ENAMETOOLONG) past 4,095 bytes; then as `MakeDir`.
    MakeLink(H, N, T),
    /// Removes the entry of what is no directory: unlinkat(2). The node stays for its open handles.
    ///
    /// Refused: NotDir (ENOTDIR) where the handle is on no directory, NotFound (ENOENT) where it has no such
    /// entry, IsDir (EISDIR) where a directory stands there.
    RemoveFile(H, N),
    /// Removes the entry of an empty directory: unlinkat(2) with AT_REMOVEDIR (rmdir(2)). The node stays for its
    /// open handles, and gets no entries any more.
    ///
    /// Refused: NotDir (ENOTDIR) where the handle is on no directory, NotFound (ENOENT) where it has no such
    /// entry, NotDir where what stands there is no directory, NotEmpty (ENOTEMPTY) where that has entries.
    RemoveDir(H, N),
    /// Renames the first entry to the second: renameat2(2), by the mode.
    ///
    /// Refused: NotDir (ENOTDIR) where the first handle is on no directory, and where the second is; NotFound
    /// (ENOENT) where the first entry isn't there, and where the second directory was removed. Then by the mode:
    /// NoReplace with a second entry Exists (EEXIST), Exchange without one NotFound. Where both entries are one
    /// node, nothing changes. Then Invalid (EINVAL) where the renamed node is the second directory or above it,
    /// and for Exchange where the other node is the first directory or above it. Then for Plain over an entry:
    /// NotDir where a directory would replace what is none, IsDir (EISDIR) where a directory would be replaced by
    /// what is none, NotEmpty (ENOTEMPTY) where the directory to be replaced has entries.
    Rename(H, N, H, N, Mode),
}

/// A step with the handles' numbers.
pub type Step = StepOf<HandleNo>;

/// A step whose names and text lie elsewhere, as in the walk that is to take it. Contracts see it as the step.
pub type LentStep<'a> = StepOf<HandleNo, LentName<'a>, LentBytes<'a>>;

impl<'a> StepOf<HandleNo, LentName<'a>, LentBytes<'a>> {
    /// An equal step with names and a text of its own. NoMemory where their room was refused.
    pub fn copy(&self, alloc: Global) -> Result<Step, NoMemory>
        ensures { IfOk result (λ copy. copy ≡ self.now) }
    {
        Ok(match self {
            StepOf::Open(dir, name) => StepOf::Open(*dir, name.copy(alloc)?),
            StepOf::Dup(handle) => StepOf::Dup(*handle),
            StepOf::Parent(handle) => StepOf::Parent(*handle),
            StepOf::ReadLink(handle) => StepOf::ReadLink(*handle),
            StepOf::NameBelow(root, handle) => StepOf::NameBelow(*root, *handle),
            StepOf::List(handle) => StepOf::List(*handle),
            StepOf::Close(handle) => StepOf::Close(*handle),
            StepOf::MakeDir(dir, name) => StepOf::MakeDir(*dir, name.copy(alloc)?),
            StepOf::MakeFile(dir, name) => StepOf::MakeFile(*dir, name.copy(alloc)?),
            StepOf::MakeLink(dir, name, text) => {
                StepOf::MakeLink(*dir, name.copy(alloc)?, text.copy(alloc)?)
            }
            StepOf::RemoveFile(dir, name) => StepOf::RemoveFile(*dir, name.copy(alloc)?),
            StepOf::RemoveDir(dir, name) => StepOf::RemoveDir(*dir, name.copy(alloc)?),
            StepOf::Rename(from, old, to, new, mode) => {
                StepOf::Rename(*from, old.copy(alloc)?, *to, new.copy(alloc)?, *mode)
            }
        })
    }

    /// Whether the two are equal. Takes no memory.
    pub fn same(&self, other: &LentStep<'_>) -> bool
        ensures { IsTrue result ↔ (self.now ≡ other.now) }
    {
        match (self, other) {
            (StepOf::Open(dir, name), StepOf::Open(d, n)) => dir == d && name.same(n),
            (StepOf::Dup(handle), StepOf::Dup(h)) => handle == h,
            (StepOf::Parent(handle), StepOf::Parent(h)) => handle == h,
            (StepOf::ReadLink(handle), StepOf::ReadLink(h)) => handle == h,
            (StepOf::NameBelow(root, handle), StepOf::NameBelow(r, h)) => root == r && handle == h,
            (StepOf::List(handle), StepOf::List(h)) => handle == h,
            (StepOf::Close(handle), StepOf::Close(h)) => handle == h,
            (StepOf::MakeDir(dir, name), StepOf::MakeDir(d, n)) => dir == d && name.same(n),
            (StepOf::MakeFile(dir, name), StepOf::MakeFile(d, n)) => dir == d && name.same(n),
            (StepOf::MakeLink(dir, name, text), StepOf::MakeLink(d, n, t)) => {
                dir == d && name.same(n) && text.same(t)
            }
            (StepOf::RemoveFile(dir, name), StepOf::RemoveFile(d, n)) => dir == d && name.same(n),
            (StepOf::RemoveDir(dir, name), StepOf::RemoveDir(d, n)) => dir == d && name.same(n),
            (StepOf::Rename(from, old, to, new, mode), StepOf::Rename(f, o, t, n, m)) => {
                from == f && old.same(o) && to == t && new.same(n) && mode == m
            }
            _ => false,
        }
    }
}

impl StepOf<HandleNo> {
    /// The step, lent.
    pub fn lend(&self) -> LentStep<'_>
        ensures { result ≡ self.now }
    {
        match self {
            StepOf::Open(dir, name) => StepOf::Open(*dir, name.lend()),
            StepOf::Dup(handle) => StepOf::Dup(*handle),
            StepOf::Parent(handle) => StepOf::Parent(*handle),
            StepOf::ReadLink(handle) => StepOf::ReadLink(*handle),
            StepOf::NameBelow(root, handle) => StepOf::NameBelow(*root, *handle),
            StepOf::List(handle) => StepOf::List(*handle),
            StepOf::Close(handle) => StepOf::Close(*handle),
            StepOf::MakeDir(dir, name) => StepOf::MakeDir(*dir, name.lend()),
            StepOf::MakeFile(dir, name) => StepOf::MakeFile(*dir, name.lend()),
            StepOf::MakeLink(dir, name, text) => StepOf::MakeLink(*dir, name.lend(), text.lend()),
            StepOf::RemoveFile(dir, name) => StepOf::RemoveFile(*dir, name.lend()),
            StepOf::RemoveDir(dir, name) => StepOf::RemoveDir(*dir, name.lend()),
            StepOf::Rename(from, old, to, new, mode) => {
                StepOf::Rename(*from, old.lend(), *to, new.lend(), *mode)
            }
        }
    }
}
