//! What a call is asked to do.
ghost use Rattle.std.specs.Prelude.{◌≡◌, MatchResult, Err, true, false};
ghost use Rattle.root_ops.specs.Copies.{is_release};

use handles::Standing;
use path_text::{Bytes, Errno, Flags};
use std::alloc::Global;
use tree_model::{Mode, Step};

/// An operation below a root. Its first bytes are a path text. A last part that isn't a name, as `.` and `..`, is
/// Invalid (EINVAL) for each operation on one entry.
#[derive(Debug, Drop)]
pub enum Op {
    /// Opens what the path means: openat2(2) with O_PATH and RESOLVE_IN_ROOT.
    Resolve(Bytes),
    /// The same, where a link at the path's end isn't followed (O_NOFOLLOW of open(2)).
    ResolveNoFollow(Bytes),
    /// Reads the text of the link at the path's end: readlinkat(2).
    ReadLink(Bytes),
    /// Makes an empty file, and opens nothing: mknodat(2). A slash at the path's end is NotDir.
    CreateFile(Bytes),
    /// Makes an empty directory: mkdirat(2). A slash at the path's end is taken away.
    CreateDir(Bytes),
    /// Makes a link with the second text: symlinkat(2). A slash at the path's end is NotDir.
    CreateLink(Bytes, Bytes),
    /// Removes the entry of what is no directory: unlinkat(2). A slash at the path's end is NotDir.
    RemoveFile(Bytes),
    /// Removes the entry of an empty directory: unlinkat(2) with AT_REMOVEDIR. A slash at the path's end is taken
    /// away.
    RemoveDir(Bytes),
    /// Renames the entry of the first path to the second: renameat2(2). A slash at the end of either is taken away,
    /// and demands that what is renamed is a directory.
    Rename(Bytes, Bytes, Mode),
    /// Makes all that is missing of the path, each a directory, and opens the last: mkdir(2), as `mkdir -p` makes
    /// them.
    MkdirAll(Bytes),
    /// Removes the entry with all that is below it: unlink(2) and rmdir(2), as `rm -r` does. A slash at the path's
    /// end is taken away.
    RemoveAll(Bytes),
    /// One single step, but none that opens or closes a handle.
    Single(Step),
    /// Closes what was opened: close(2).
    Release(Standing),
}

/// An operation, and the restrictions of its walks (openat2(2), RESOLVE_BENEATH and RESOLVE_NO_SYMLINKS). A step on a
/// last name isn't touched by them.
#[derive(Debug, Drop)]
pub struct Request {
    pub op: Op,
    pub flags: Flags,
}

impl Op {
    /// An equal operation. Errors: Invalid of a Release, since what it holds can't be copied; NoMemory.
    pub fn copy(&self, alloc: Global) -> Result<Op, Errno>
        ensures release { is_release self.now ≡ true → result ≡ Err Errno.Invalid }
        ensures copy { is_release self.now ≡ false
            → MatchResult result (λ copy. copy ≡ self.now) (λ error. error ≡ Errno.NoMemory) }
    {
        Ok(match self {
            Op::Resolve(path) => Op::Resolve(path.copy(alloc)?),
            Op::ResolveNoFollow(path) => Op::ResolveNoFollow(path.copy(alloc)?),
            Op::ReadLink(path) => Op::ReadLink(path.copy(alloc)?),
            Op::CreateFile(path) => Op::CreateFile(path.copy(alloc)?),
            Op::CreateDir(path) => Op::CreateDir(path.copy(alloc)?),
            Op::CreateLink(path, text) => Op::CreateLink(path.copy(alloc)?, text.copy(alloc)?),
            Op::RemoveFile(path) => Op::RemoveFile(path.copy(alloc)?),
            Op::RemoveDir(path) => Op::RemoveDir(path.copy(alloc)?),
            Op::Rename(old, new, mode) => Op::Rename(old.copy(alloc)?, new.copy(alloc)?, *mode),
            Op::MkdirAll(path) => Op::MkdirAll(path.copy(alloc)?),
            Op::RemoveAll(path) => Op::RemoveAll(path.copy(alloc)?),
            Op::Single(step) => Op::Single(step.lend().copy(alloc)?),
            Op::Release(_) => return Err(Errno::Invalid),
        })
    }
}

impl Request {
    /// An equal request, with equal flags. Errors: those of `Op::copy`.
    pub fn copy(&self, alloc: Global) -> Result<Request, Errno>
        ensures release { is_release self.now.op ≡ true → result ≡ Err Errno.Invalid }
        ensures copy { is_release self.now.op ≡ false
            → MatchResult result (λ copy. copy ≡ self.now) (λ error. error ≡ Errno.NoMemory) }
    {
        let op = self.op.copy(alloc)?;
        Ok(Request {
            op,
            flags: self.flags,
        })
    }
}
