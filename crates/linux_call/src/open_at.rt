//! A path opened for use, by flags of open(2): what is there is found, or a file is made. Which call comes next, and
//! what that is asked for, `open_or_make` says.
use crate::inner::fault_of;
use crate::make_all::Gave;
use crate::path::Texts;
use crate::progress::{Progress, Said};
use crate::request::*;
use crate::steps;
use crate::walk::{EXACT, NO_LINKS, NO_RETRY, O_PATH, bit, has, path_below};
use dialogue::{Asked, Question};
use linux_steps::look_error;
use open_or_make::{Course, Question as Opens, begin, request_of};
use system_calls::{
    MachineFlags, Opening, USE_FAILS, USE_GIVES, USE_MAKES, USE_REOPENS, kind_of, opening_of,
    use_of,
};

// The kind of a file (`kind_of`).
const A_FILE: u8 = 2;

pub(crate) fn opening(request: &Request) -> Opening {
    opening_of(&request.known.machine, request.how, request.mode)
}

/// The course of the call.
pub(crate) fn first(request: &Request, opening: &Opening) -> Course {
    let no_links = has(request.flags, NO_LINKS);
    let may_retry = !has(request.flags, NO_RETRY);
    begin(request.length as usize, opening, no_links, may_retry)
}

fn usual_kind(opening: &Opening) -> u8 {
    if opening.directory {
        A_DIRECTORY
    } else {
        A_FILE
    }
}

/// By which flags of open(2) the one look-up opens what is there; or what is found so is the reply.
pub(crate) fn how_of(machine: &MachineFlags, opening: &Opening) -> u32 {
    let now = use_of(opening, usual_kind(opening));
    let flags = if now.what == USE_GIVES {
        O_PATH
    } else {
        now.flags
    };
    let nofollow = bit(!opening.follows, machine.nofollow);
    flags | nofollow | bit(opening.directory, machine.directory)
}

/// And by which mode.
pub(crate) fn mode_of(request: &Request, opening: &Opening) -> u32 {
    let now = use_of(opening, usual_kind(opening));
    bit(now.what == USE_MAKES, request.mode)
}

fn asked_by(request: &Request, opening: &Opening, call: Opens) -> Request {
    let now = request_of(opening, request.mode, call);
    Request {
        what: now.op,
        mode: now.bits,
        how: now.flags,
        opens: now.opens,
        gives: now.gives,
        directory: now.directory,
        asks_kind: now.asks_kind,
        ..*request
    }
}

impl Progress<'_> {
    // A directory that O_CREAT opened to be read is none that the caller wants.
    #[inline(never)]
    fn checked<'n>(&mut self, opening: &Opening, fd: u32) -> Said<'n> {
        if !opening.asks_kind || opening.directory {
            return Ok(value(fd));
        }
        let about = self.ask(Question::Stat(fd))?;
        let mut error = look_error(&about);
        if error == 0 {
            error = use_of(opening, kind_of(about.mode as u32)).error as u32;
        }
        if error == 0 {
            return Ok(value(fd));
        }
        self.close(fd)?;
        self.blamed(Reply::Fails(error, steps::REOPEN, b""))
    }

    // The one thing that is due of what is open.
    #[inline(never)]
    fn used<'n>(&mut self, request: &Request, opening: &Opening, fd: u32, kind: u8) -> Said<'n> {
        let now = use_of(opening, kind);
        match now.what {
            USE_FAILS => Ok(Reply::Fails(now.error as u32, steps::REOPEN, b"")),
            USE_GIVES => Ok(value(fd)),
            USE_REOPENS => self.reopen_object(fd, now.flags),
            _ => {
                let made = self.gives(Question::Open(fd, b".", now.flags, request.mode))?;
                Ok(given(made, steps::REOPEN))
            }
        }
    }

    // What was found is closed, unless it is the reply.
    #[inline(never)]
    fn use_found<'n>(&mut self, request: &Request, opening: &Opening, found: u64) -> Said<'n> {
        let fd = (found % 0x1_0000_0000) as u32;
        let told = (found / 0x1_0000_0000 % 256) as u8;
        let kind = if told != 0 { told } else { usual_kind(opening) };
        let reply = self.used(request, opening, fd, kind)?;
        let is_given = match reply {
            Reply::Value(number, _) => number == fd as u64,
            _ => false,
        };
        if !is_given {
            self.close(fd)?;
        }
        self.blamed(reply)
    }

    #[inline(never)]
    fn call_of<'n>(
        &mut self,
        request: &Request,
        opening: &Opening,
        call: Opens,
        texts: Texts<'n>,
    ) -> Said<'n> {
        self.carry_out(&asked_by(request, opening, call), texts)
    }

    // Else a call finds it, and it is opened once more.
    #[inline(never)]
    fn found_first<'n>(
        &mut self,
        request: &Request,
        opening: &Opening,
        texts: Texts<'n>,
    ) -> Said<'n> {
        match self.call_of(request, opening, Opens::Find, texts)? {
            Reply::Value(found, _) => self.use_found(request, opening, found),
            failed => Ok(failed),
        }
    }

    // By one look-up with the caller's own flags.
    #[inline(always)]
    fn found<'n>(&mut self, request: &Request, opening: &Opening, texts: Texts<'n>) -> Said<'n> {
        let at = path_below(request, &texts);
        let is_walked = !has(request.flags, EXACT) && fault_of(request.flags, request.root) == 0;
        if is_walked {
            let how = how_of(&self.known.machine, opening);
            match self.walk(&at, how, mode_of(request, opening))? {
                Ok(fd) => return self.checked(opening, fd),
                Err(Reply::Steps) => (),
                Err(failed) => return self.blamed(failed),
            }
        }
        self.found_first(request, opening, texts)
    }

    /// The call that comes next: what it gives, of a link the length of the text.
    #[inline(always)]
    pub(crate) fn open_next<'n>(
        &mut self,
        request: &Request,
        question: Opens,
        opening: &Opening,
        texts: Texts<'n>,
    ) -> Asked<'n, Gave<'n>> {
        let reply = match question {
            Opens::Wait(pause) => {
                self.ask(Question::Wait(pause))?;
                value(0)
            }
            Opens::Find => self.found(request, opening, texts)?,
            call => self.call_of(request, opening, call, texts)?,
        };
        Ok(Gave::Outcome(reply, 0, false))
    }
}
