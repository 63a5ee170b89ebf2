//! Which object an answer is about, of which kind it is, and what an error says of it.
ghost use Rattle.std.specs.Prelude.{◌≡◌};
ghost use Rattle.system_calls.specs.Objects.{format, is_elsewhere, is_node, is_same_object, kind_of};

use crate::errors::{EACCES, EAGAIN, ELOOP, ENOENT, ENOTDIR, EXDEV};

const S_IFMT: u32 = 0o170000;

const S_IFIFO: u32 = 0o010000;

const S_IFCHR: u32 = 0o020000;

const S_IFDIR: u32 = 0o040000;

const S_IFBLK: u32 = 0o060000;

const S_IFREG: u32 = 0o100000;

const S_IFLNK: u32 = 0o120000;

const S_IFSOCK: u32 = 0o140000;

/// Which object it is, while it is open, as one system call told it: fstat(2) or statx(2).
#[repr(C)]
#[derive(Clone, Copy, Debug, PartialEq, Eq)]
pub struct Object {
    pub device: u64,
    pub inode: u64,
    /// The number of its mount; 0 where the kernel doesn't tell it.
    pub mount: u64,
}

/// Whether two answers are about the same object, by the same mount; or `by_any_mount`. Takes no memory.
pub fn is_same_object(one: &Object, other: &Object, by_any_mount: bool) -> bool
    ensures { result ≡ is_same_object one.now other.now by_any_mount }
{
    one.device == other.device
        && one.inode == other.inode
        && (by_any_mount || one.mount == other.mount)
}

fn format(mode: u32) -> u32
    ensures { result ≡ format mode }
{
    mode & S_IFMT
}

/// The kind of an object by its mode (inode(7)), as a walk has them: 1 a directory, 3 a link, 2 all else. Takes no
/// memory.
pub fn kind_of(mode: u32) -> u8
    ensures { result ≡ kind_of mode }
{
    match format(mode) {
        S_IFDIR => 1,
        S_IFLNK => 3,
        _ => 2,
    }
}

/// Whether mknod(2) may be asked for an entry of this mode and device: a character or block device; or a regular file,
/// a FIFO or a socket, with the device 0. Beside its kind the mode has permissions alone, up to 07777. Takes no memory.
pub fn is_node(mode: u32, device: u64) -> bool
    ensures { result ≡ is_node mode device }
{
    mode < 0x10000
        && match format(mode) {
            S_IFCHR | S_IFBLK => true,
            S_IFREG | S_IFIFO | S_IFSOCK => device == 0,
            _ => false,
        }
}

/// Whether an error (errno(3)) of a look-up by openat2(2) with RESOLVE_BENEATH and RESOLVE_NO_SYMLINKS says that the
/// names don't lead to the object any more: ENOENT (2), ENOTDIR (20), ELOOP (40), EXDEV (18), EACCES (13) or EAGAIN
/// (11). Any other error says that it could not be asked. Takes no memory.
pub fn is_elsewhere(error: u32) -> bool
    ensures { result ≡ is_elsewhere error }
{
    match error {
        ENOENT | EAGAIN | EACCES | EXDEV | ENOTDIR | ELOOP => true,
        _ => false,
    }
}
