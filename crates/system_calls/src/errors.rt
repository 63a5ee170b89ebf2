//! Errors of system calls (errno(3)), by their numbers in Linux's asm-generic/errno-base.h and asm-generic/errno.h.
//! These are the same on x86-64 and on arm64.

pub const EPERM: u32 = 1;

pub const ENOENT: u32 = 2;

pub const EINTR: u32 = 4;

pub const EIO: u32 = 5;

pub const EBADF: u32 = 9;

pub const EAGAIN: u32 = 11;

pub const ENOMEM: u32 = 12;

pub const EACCES: u32 = 13;

pub const EBUSY: u32 = 16;

pub const EEXIST: u32 = 17;

pub const EXDEV: u32 = 18;

pub const ENOTDIR: u32 = 20;

pub const EISDIR: u32 = 21;

pub const EINVAL: u32 = 22;

pub const ENFILE: u32 = 23;

pub const EMFILE: u32 = 24;

pub const ERANGE: u32 = 34;

pub const ENAMETOOLONG: u32 = 36;

pub const ENOSYS: u32 = 38;

pub const ENOTEMPTY: u32 = 39;

pub const ELOOP: u32 = 40;

pub const EOPNOTSUPP: u32 = 95;

pub const ESTALE: u32 = 116;
