//! System calls of Linux, as questions with their arguments, and what each gave.

/// How openat2(2) opens: with O_CLOEXEC, and these.
#[derive(Clone, Copy, Debug, PartialEq, Eq)]
pub struct How {
    /// O_PATH; else O_RDONLY.
    pub path: bool,
    /// O_DIRECTORY.
    pub directory: bool,
    /// O_NOFOLLOW; else a link is followed, by RESOLVE_BENEATH and RESOLVE_NO_MAGICLINKS.
    pub no_follow: bool,
    /// RESOLVE_NO_XDEV.
    pub no_xdev: bool,
}

/// A system call that is asked for. Descriptors are a program's numbers.
#[derive(Clone, Copy, Debug)]
pub enum Question<'n> {
    /// openat2(2) of the entry of this name in a directory.
    OpenName(u32, &'n [u8], How),
    /// openat2(2) of `.`: the directory once more.
    OpenSame(u32, How),
    /// openat2(2) of `..`: the directory above.
    OpenAbove(u32, How),
    /// openat2(2) of a path, by O_PATH, O_CLOEXEC and these flags, and these bits of RESOLVE.
    LookUp(u32, &'n [u8], u32, u32),
    /// openat2(2) of a path for use: its flags, its mode, and these bits of RESOLVE.
    OpenPath(u32, &'n [u8], u32, u32, u32),
    /// openat(2): flags and mode.
    Open(u32, &'n [u8], u32, u32),
    /// openat(2), in a /proc, of what a descriptor is open on: its flags.
    OpenObject(u32, u32, u32),
    /// statx(2) of what is open: which object it is, mode, number of links and of a device.
    Stat(u32),
    /// statx(2) of the entry of this name.
    StatName(u32, &'n [u8]),
    /// fstatfs(2): type and mount flags.
    FileSystem(u32),
    /// fstat(2) of what is open, for whoever made the request: no code here looks at what it tells.
    Status(u32),
    /// getdents64(2): some entries.
    ReadEntries(u32),
    /// readlinkat(2) with an empty path: the text of the link that is open.
    ReadLink(u32),
    /// readlinkat(2), in a /proc, of this thread's link to what a descriptor is open on: `thread-self/fd/N`.
    ReadObjectLink(u32, u32),
    /// readlinkat(2) of `thread-self` in a /proc.
    ReadThread(u32),
    /// close(2).
    Close(u32),
    /// fcntl(2), F_GETFD: whether it is open.
    IsOpen(u32),
    /// fcntl(2), F_DUPFD_CLOEXEC: a copy above the standard files.
    CopyAbove(u32),
    /// mkdirat(2): the mode.
    MakeDirectory(u32, &'n [u8], u32),
    /// mknodat(2): the mode with the kind, and the device.
    MakeNode(u32, &'n [u8], u32, u64),
    /// symlinkat(2): in that directory, by this name, with that text.
    MakeLink(u32, &'n [u8], &'n [u8]),
    /// linkat(2), in a /proc: what a descriptor is open on gets that name, in that directory.
    Link(u32, u32, u32, &'n [u8]),
    /// unlinkat(2), with AT_REMOVEDIR for a directory.
    Remove(u32, &'n [u8], bool),
    /// renameat2(2): its flags last.
    Rename(u32, &'n [u8], u32, &'n [u8], u32),
    /// fchmodat(2), in a /proc, of what a descriptor is open on.
    ChangeMode(u32, u32, u32),
    /// fchownat(2) of what is open: user and group.
    ChangeOwner(u32, u32, u32),
    /// utimensat(2) of what is open, by the times of the request.
    ChangeTimes(u32),
    /// The system call for extended attributes that the request is for (setxattrat(2) and its kin), in a /proc, of what
    /// a descriptor is open on.
    AttributeAt(u32, u32),
    /// The same by the path of that below /proc (setxattr(2) and its kin).
    Attribute(u32),
    /// The same of no directory (setxattrat(2)), which fails: by EBADF, or by a filter's error.
    NoAttribute,
    /// fsopen(2) of `proc`.
    NewProc,
    /// fsconfig(2) of what that made: `subset` and `pid`; or it is created.
    Configure(u32, bool),
    /// fsmount(2).
    Mount(u32),
    /// open_tree(2): a copy of the mount at /proc.
    CopyProc,
    /// nanosleep(2): so many nanoseconds.
    Wait(u32),
    /// No system call: the program's place for a /proc is claimed, if it is free; to hand one in.
    Claim(bool),
    /// No system call: the place that was claimed is filled, by a descriptor and which file it is of: device, inode and
    /// mount; and one that was handed in.
    Keep(u32, u64, u64, u64, bool),
    /// No system call: the place that was claimed is free again.
    Release,
    /// No system call: this thread knows that the kernel has what the library needs, or doesn't know it any more.
    Know(bool),
    /// No single system call: a call with these texts is made by single steps.
    BySteps(&'n [u8], &'n [u8]),
}

/// What a system call gave. What it doesn't give is 0.
#[repr(C)]
#[derive(Clone, Copy, Debug, PartialEq, Eq)]
pub struct Answer {
    /// The type of a file system (statfs(2), f_type).
    pub file_system: u64,
    /// The flags of its mount (statfs(2), f_flags).
    pub flags: u64,
    /// The device that has an object, and its inode (statx(2)).
    pub device: u64,
    pub inode: u64,
    /// The number of its mount (statx(2), stx_mnt_id).
    pub mount: u64,
    /// The device that a device file stands for (statx(2), stx_rdev).
    pub node: u64,
    /// What was opened; or how many bytes a text has.
    pub value: u32,
    /// 0, or the number of an error (errno(3)).
    pub error: u32,
    /// How many links an object has (statx(2), stx_nlink).
    pub links: u32,
    /// What it is, and its permissions (statx(2), stx_mode).
    pub mode: u16,
    /// The kernel said the number of the mount.
    pub has_mount: bool,
}
