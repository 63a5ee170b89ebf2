//! Files of the /proc by which the library goes. One openat2(2) leads to each, through nothing that is mounted there,
//! and through no link of the kernel's own, which leads to an object: such a one is opened at the end alone, if the
//! caller follows it.
use crate::path::{PathOf, Texts};
use crate::progress::{Number, Progress, Said};
use crate::request::{A_LINK, Request, given, refused};
use crate::steps;
use crate::walk::{
    O_PATH, RESOLVE_BENEATH, RESOLVE_NO_MAGICLINKS, RESOLVE_NO_XDEV, bit, has, openat2, opened,
};
use dialogue::{Asked, Question};
use find_proc::{Known, Proc, find};
use kernel_calls::parts;
use linux_steps::look_error;
use system_calls::errors::{EAGAIN, EINVAL, ELOOP, ENOENT, ENOSYS, EXDEV};
use system_calls::{kind_of, reopen_flags};

// The number of its topmost directory, in each proc(5).
const TOP: u64 = 1;

const O_NOCTTY: u32 = 0o400;

const BELOW: u32 = RESOLVE_BENEATH | RESOLVE_NO_XDEV | RESOLVE_NO_MAGICLINKS;

// INROOT_TRIES of inroot.h.
const TRIES: u32 = 32;

// INROOT_PROC_ROOT, INROOT_PROC_SELF and INROOT_PROC_THREAD_SELF.
const ROOT: u32 = 0xffff_ff37;

const SELF: u32 = 0xffff_ff36;

const THREAD_SELF: u32 = 0xffff_ff35;

fn is_base(base: u32) -> bool {
    (base > 0 && base < 0x8000_0000) || base == ROOT || base == SELF || base == THREAD_SELF
}

fn is_refused(known: &Known, base: u32, how: u32) -> bool {
    reopen_flags(&known.machine, how & !known.machine.nofollow) == 0 || !is_base(base)
}

impl Progress<'_> {
    // Opens by a path below a directory. The kernel gives up `..` while anything is renamed or mounted.
    fn open_below<'n>(&mut self, dir: u32, path: &'n [u8], flags: u32) -> Number<'n> {
        let question = openat2(dir, path, flags, 0, BELOW);
        for _ in 0..TRIES {
            let result = opened(&mut self.answers, &mut self.known, question)?;
            if result != Err(EAGAIN) {
                return Ok(result);
            }
        }
        Ok(Err(EAGAIN))
    }

    // The directory at which a path begins: NUMBER is the decimal of a process.
    fn open_base_in<'n>(&mut self, proc: u32, base: u32, number: &'n [u8]) -> Number<'n> {
        let about = self.ask(Question::Stat(proc))?;
        if about.error != 0 {
            return Ok(Err(about.error));
        }
        if !about.has_mount || about.inode != TOP {
            return Ok(Err(ENOSYS));
        }
        let name = match base {
            ROOT => b".".as_slice(),
            SELF => b"self".as_slice(),
            THREAD_SELF => b"thread-self".as_slice(),
            _ => number,
        };
        let how = O_PATH | self.known.machine.directory;
        let opened = self.open_below(proc, name, how)?;
        // A proc(5) of another pid namespace has no such link.
        Ok(if opened == Err(ENOENT) && base >= 0x8000_0000 {
            Err(ENOSYS)
        } else {
            opened
        })
    }

    fn open_base<'n>(&mut self, base: u32, number: &'n [u8]) -> Number<'n> {
        let Proc { fd, own } = match find(&mut self.answers, &mut self.known, true)? {
            Ok(proc) => proc,
            Err(error) => return Ok(Err(error)),
        };
        let dir = self.open_base_in(fd, base, number)?;
        if own {
            self.close(fd)?;
        }
        Ok(dir)
    }

    // The mount of what is open, or of the entry of a name.
    fn mount_by<'n>(&mut self, question: Question<'n>) -> Asked<'n, Result<u64, u32>> {
        let about = self.ask(question)?;
        Ok(match look_error(&about) {
            0 => Ok(about.mount),
            error => Err(error),
        })
    }

    // Follows a name in a directory, if nothing is mounted over it.
    fn follow<'n>(&mut self, dir: u32, name: &'n [u8], flags: u32) -> Number<'n> {
        let above = match self.mount_by(Question::Stat(dir))? {
            Ok(mount) => mount,
            Err(error) => return Ok(Err(error)),
        };
        match self.mount_by(Question::StatName(dir, name))? {
            Ok(mount) => {
                if mount != above {
                    return Ok(Err(EXDEV));
                }
            }
            Err(error) => return Ok(Err(error)),
        }
        self.gives(Question::Open(dir, name, flags, 0))
    }

    // A link at the end that leads to an object.
    fn follow_last<'n>(&mut self, base: u32, path: PathOf<'n>, flags: u32) -> Number<'n> {
        let parted = match parts(path, true) {
            Some(parted) => parted,
            None => return Ok(Err(ELOOP)),
        };
        let before = path.front_or_here(parted.name).text();
        let directory = self.known.machine.directory;
        let dir = match self.open_below(base, before, O_PATH | directory)? {
            Ok(dir) => dir,
            Err(error) => return Ok(Err(error)),
        };
        let name = path.piece(parted.name, parted.length);
        let followed = self.follow(dir, name, flags | bit(parted.slash, directory))?;
        self.close(dir)?;
        Ok(followed)
    }

    // openat2(2) refuses O_NOCTTY beside O_PATH.
    fn open_from<'n>(
        &mut self,
        base: u32,
        path: PathOf<'n>,
        flags: u32,
        follows: bool,
    ) -> Number<'n> {
        let kept = flags & !bit(has(flags, O_PATH), O_NOCTTY);
        let how = kept | bit(!follows, self.known.machine.nofollow);
        let opened = self.open_below(base, path.text(), how)?;
        if opened == Err(ELOOP) && follows {
            self.follow_last(base, path, flags)
        } else {
            Ok(opened)
        }
    }

    fn open_path<'n>(&mut self, request: &Request, texts: Texts<'n>, how: u32) -> Number<'n> {
        let nofollow = self.known.machine.nofollow;
        let flags = reopen_flags(&self.known.machine, how & !nofollow);
        let dir = match self.open_base(request.fd, texts.target)? {
            Ok(dir) => dir,
            Err(error) => return Ok(Err(error)),
        };
        let opened = self.open_from(dir, texts.first, flags, how & nofollow == 0)?;
        self.close(dir)?;
        Ok(opened)
    }

    /// Opens a file of a /proc.
    pub(crate) fn open_in_proc<'n>(&mut self, request: &Request, texts: Texts<'n>) -> Said<'n> {
        if is_refused(&self.known, request.fd, request.how) {
            return Ok(refused(EINVAL));
        }
        let opened = self.open_path(request, texts, request.how)?;
        Ok(given(opened, steps::PROC))
    }

    // The text of the link that is open. What is no link has no text, of which the kernel says ENOENT.
    fn text_of<'n>(&mut self, fd: u32) -> Number<'n> {
        let about = self.ask(Question::Stat(fd))?;
        if look_error(&about) != 0 {
            return Ok(Err(look_error(&about)));
        }
        Ok(match self.gives(Question::ReadLink(fd))? {
            Err(_) if kind_of(about.mode as u32) != A_LINK => Err(EINVAL),
            read => read,
        })
    }

    /// Reads the text of a link of a /proc.
    pub(crate) fn read_link_of_proc<'n>(
        &mut self,
        request: &Request,
        texts: Texts<'n>,
    ) -> Said<'n> {
        let how = O_PATH | self.known.machine.nofollow;
        if is_refused(&self.known, request.fd, how) {
            return Ok(refused(EINVAL));
        }
        let mut outcome = self.open_path(request, texts, how)?;
        if let Ok(fd) = outcome {
            outcome = self.text_of(fd)?;
            self.close(fd)?;
        }
        Ok(given(outcome, steps::PROC))
    }
}
