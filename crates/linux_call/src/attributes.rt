//! The mode, the owner, the times and the extended attributes of an object that was found; and that it is opened again.
use crate::progress::{Progress, Said};
use crate::request::{A_LINK, MODE_BITS, Request, SET_ATTRIBUTE, given, refused, told, value};
use crate::steps;
use dialogue::Question;
use kernel_calls::Act;
use linux_steps::look_error;
use system_calls::errors::{EBADF, EINVAL, EOPNOTSUPP, ERANGE};
use system_calls::{kind_of, reopen_flags};

const E2BIG: u32 = 7;

const SECOND: u64 = 1_000_000_000;

const UTIME_NOW: u64 = 0x3fff_ffff;

const UTIME_OMIT: u64 = 0x3fff_fffe;

// XATTR_REPLACE, the last of the flags of setxattr(2).
const LAST_FLAG: u32 = 2;

/// The most bytes that a value has, and all names of an object together (xattr(7)).
pub(crate) const MOST_BYTES: u64 = 65536;

// No descriptor, as AT_FDCWD, names an object that was found.
fn is_none(fd: u32) -> bool {
    fd >= 0x8000_0000
}

fn is_time(nanoseconds: u64) -> bool {
    nanoseconds < SECOND || nanoseconds == UTIME_NOW || nanoseconds == UTIME_OMIT
}

fn attribute_fault(request: &Request) -> u32 {
    if request.what == SET_ATTRIBUTE && request.how > LAST_FLAG {
        EINVAL
    } else if request.what == SET_ATTRIBUTE && request.size > MOST_BYTES {
        E2BIG
    } else if is_none(request.fd) {
        EBADF
    } else {
        0
    }
}

impl Progress<'_> {
    /// Some file systems changed a link's mode before Linux 6.6, and gave an error all the same: so it is looked at
    /// first.
    pub(crate) fn change_mode<'n>(&mut self, request: &Request) -> Said<'n> {
        let fd = request.fd;
        if request.mode > MODE_BITS {
            return Ok(refused(EINVAL));
        }
        if is_none(fd) {
            return Ok(refused(EBADF));
        }
        let about = self.ask(Question::Stat(fd))?;
        let error = look_error(&about);
        let changed = if error != 0 {
            Err(error)
        } else if kind_of(about.mode as u32) == A_LINK {
            Err(EOPNOTSUPP)
        } else {
            self.by_proc(fd, Act::Mode(request.mode))?
        };
        Ok(told(changed, steps::ATTRIBUTE))
    }

    pub(crate) fn change_owner<'n>(&mut self, request: &Request) -> Said<'n> {
        if is_none(request.fd) {
            return Ok(refused(EBADF));
        }
        let change = Question::ChangeOwner(request.fd, request.user, request.group);
        Ok(told(self.gives(change)?, steps::ATTRIBUTE))
    }

    /// If both times stay the kernel doesn't look at the descriptor.
    pub(crate) fn change_times<'n>(&mut self, request: &Request) -> Said<'n> {
        if !is_time(request.accessed) || !is_time(request.changed) {
            return Ok(refused(EINVAL));
        }
        if is_none(request.fd) {
            return Ok(refused(EBADF));
        }
        let stay = request.accessed == UTIME_OMIT && request.changed == UTIME_OMIT;
        let changed = self.gives(if stay {
            Question::IsOpen(request.fd)
        } else {
            Question::ChangeTimes(request.fd)
        })?;
        Ok(match changed {
            Ok(_) => value(0),
            failed => told(failed, steps::ATTRIBUTE),
        })
    }

    /// The kernel may refuse the attribute's name before it looks for the object.
    pub(crate) fn attribute<'n>(&mut self, request: &Request) -> Said<'n> {
        let fault = attribute_fault(request);
        if fault != 0 {
            return Ok(refused(fault));
        }
        let mut done = self.by_proc(request.fd, Act::Attribute)?;
        if done == Err(ERANGE) && self.ask(Question::IsOpen(request.fd))?.error != 0 {
            done = Err(EBADF);
        }
        Ok(told(done, steps::ATTRIBUTE))
    }

    /// Opens what is surely open once more, by its link in /proc.
    pub(crate) fn reopen_object<'n>(&mut self, fd: u32, how: u32) -> Said<'n> {
        let flags = reopen_flags(&self.known.machine, how);
        if flags == 0 {
            return Ok(refused(EINVAL));
        }
        Ok(given(self.by_proc(fd, Act::Open(flags))?, steps::REOPEN))
    }

    /// The same of what may not be open.
    pub(crate) fn reopen<'n>(&mut self, request: &Request) -> Said<'n> {
        if reopen_flags(&self.known.machine, request.how) == 0 {
            return Ok(refused(EINVAL));
        }
        if self.ask(Question::IsOpen(request.fd))?.error != 0 {
            return Ok(refused(EBADF));
        }
        self.reopen_object(request.fd, request.how)
    }
}
