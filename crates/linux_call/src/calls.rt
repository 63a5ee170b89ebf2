//! Calls that are made up of one or two calls on paths, and of what is done with their object.
ghost use Rattle.std.specs.Prelude.{◌≡◌, if◌then◌else◌, [], false, true};
ghost use Rattle.dialogue.specs.Dialogue.{ran};
ghost use Rattle.kernel_calls.specs.Calls.{EndsNext, IsBare};
ghost use Rattle.kernel_calls.specs.Entry.{closed_by};
ghost use Rattle.linux_call.specs.Whole.{CallDialogue, Follows, IsByKernel, IsWalked, at_in, besides, is_wrong, making, opening, wanted_of};

use crate::inner::fault_of;
use crate::path::{Texts, front};
use crate::progress::{Progress, Said};
use crate::request::*;
use crate::steps;
use crate::walk::{DIRECTORY, EXACT, FOLLOW, GIVE, NO_RETRY, NOFOLLOW, has, path_below};
use dialogue::Question;
use find_place::next_question;
use kernel_calls::{find_directory, leave, named};
use kernel_walks::split;
use linux_steps::look_error;
use system_calls::errors::{EINVAL, ENOENT};
use system_calls::{is_node, kind_of};

// RENAME_EXCHANGE of renameat2(2), and RENAME_WHITEOUT.
const EXCHANGE: u32 = 2;

const WHITEOUT: u32 = 4;

// A place is asked for so often, and once more.
const QUESTIONS: u32 = 16;

fn look_up_by(follows: bool) -> u8
    ensures { result ≡ (if follows then 1 else 2) }
{
    if follows { RESOLVE } else { RESOLVE_NOFOLLOW }
}

/// Whether the mode or the device of what is made is none, or the way of a rename. The kernel takes 32 bits of a
/// device's number: a C library may leave out the others, and make the node of another device.
pub(crate) fn is_wrong(request: &Request) -> bool
    ensures { result ≡ is_wrong request.now }
{
    match request.what {
        MKDIR => request.mode & !MODE_BITS != 0,
        MAKE_NODE => {
            let is_mode = request.mode & !(S_IFMT | MODE_BITS) == 0;
            !is_mode || !is_node(request.mode, request.device) || request.device > 0xffff_ffff
        }
        RENAME => {
            let way = request.how & !WHITEOUT;
            way > EXCHANGE || (way == EXCHANGE && has(request.how, WHITEOUT))
        }
        _ => false,
    }
}

impl Progress<'_> {
    /// Opens what a path means.
    #[inline(always)]
    pub(crate) fn open<'n>(&mut self, request: &Request, texts: Texts<'n>) -> Said<'n>
        ensures ran { IsWalked (opening request.now).flags request.now.root → closed_by self.old.behind.closes ≡ []
            → (s : CallDialogue) → IsByKernel (opening request.now) self.old.known
            (at_in (opening request.now) texts.entry) (besides texts.entry) self.old.ends s
            → Follows (ran s self.old.answers.now) (closed_by self.new.behind.closes) result }
        ensures next { IsWalked (opening request.now).flags request.now.root
            → IsBare (wanted_of (opening request.now)) → self.old.behind.changes ≡ false
            → self.new.behind.changes ≡ true → (s : CallDialogue) → IsByKernel (opening request.now) self.old.known
            (at_in (opening request.now) texts.entry) (besides texts.entry) self.old.ends s
            → EndsNext s self.old.answers.now (closed_by self.new.behind.closes) }
    {
        let asked = Request {
            what: look_up_by(!has(request.flags, NOFOLLOW)),
            flags: request.flags & !NOFOLLOW,
            ..*request
        };
        self.carry_out(&asked, texts)
    }

    /// Opens what a path means, has its status told, and closes it.
    #[inline(never)]
    pub(crate) fn status<'n>(&mut self, request: &Request, texts: Texts<'n>) -> Said<'n> {
        let fd = match self.open(request, texts)? {
            Reply::Value(fd, _) => (fd % 0x1_0000_0000) as u32,
            failed => return Ok(failed),
        };
        let told = self.ask(Question::Status(fd))?;
        self.close(fd)?;
        if told.error == 0 {
            return Ok(value(0));
        }
        self.blamed(Reply::Fails(told.error, steps::STATUS, b""))
    }

    /// Reads the text of the link at a path's end. The kernel says ENOENT of what is no link.
    #[inline(never)]
    pub(crate) fn read_link<'n>(&mut self, request: &Request, texts: Texts<'n>) -> Said<'n> {
        let asked = Request {
            what: RESOLVE_NOFOLLOW,
            ..*request
        };
        let fd = match self.carry_out(&asked, texts)? {
            Reply::Value(fd, _) => (fd % 0x1_0000_0000) as u32,
            failed => return Ok(failed),
        };
        let text = self.gives(Question::ReadLink(fd))?;
        self.close(fd)?;
        match text {
            Err(ENOENT) => Ok(Reply::Fails(EINVAL, steps::READ_LINK, b"")),
            other => self.blamed(given(other, steps::READ_LINK)),
        }
    }

    // ---- an entry is made, renamed or removed

    /// Makes an entry of this kind, by the request's mode.
    #[inline(always)]
    pub(crate) fn make_entry<'n>(&mut self, request: &Request, texts: Texts<'n>) -> Said<'n>
        ensures ran { is_wrong request.now ≡ false → IsWalked (making request.now).flags request.now.root
            → closed_by self.old.behind.closes ≡ [] → (s : CallDialogue) → IsByKernel (making request.now)
            self.old.known (at_in (making request.now) texts.entry) (besides texts.entry) self.old.ends s
            → Follows (ran s self.old.answers.now) (closed_by self.new.behind.closes) result }
        ensures next { is_wrong request.now ≡ false → IsWalked (making request.now).flags request.now.root
            → IsBare (wanted_of (making request.now)) → self.old.behind.changes ≡ false → self.new.behind.changes ≡ true
            → (s : CallDialogue) → IsByKernel (making request.now) self.old.known
            (at_in (making request.now) texts.entry) (besides texts.entry) self.old.ends s
            → EndsNext s self.old.answers.now (closed_by self.new.behind.closes) }
    {
        if is_wrong(request) {
            return Ok(refused(EINVAL));
        }
        let asked = Request {
            what: if request.what == MAKE_NODE {
                MKFILE
            } else {
                request.what
            },
            gives: has(request.flags, GIVE),
            flags: request.flags & !GIVE,
            ..*request
        };
        self.carry_out(&asked, texts)
    }

    /// Renames an entry, in the way that HOW says.
    #[inline(always)]
    pub(crate) fn rename_entry<'n>(&mut self, request: &Request, texts: Texts<'n>) -> Said<'n>
        ensures ran { is_wrong request.now ≡ false → IsWalked request.now.flags request.now.root
            → closed_by self.old.behind.closes ≡ [] → (s : CallDialogue) → IsByKernel request.now self.old.known
            (at_in request.now texts.entry) (besides texts.entry) self.old.ends s
            → Follows (ran s self.old.answers.now) (closed_by self.new.behind.closes) result }
        ensures next { is_wrong request.now ≡ false → IsWalked request.now.flags request.now.root
            → IsBare (wanted_of request.now) → self.old.behind.changes ≡ false → self.new.behind.changes ≡ true
            → (s : CallDialogue) → IsByKernel request.now self.old.known (at_in request.now texts.entry)
            (besides texts.entry) self.old.ends s
            → EndsNext s self.old.answers.now (closed_by self.new.behind.closes) }
    {
        if is_wrong(request) {
            return Ok(refused(EINVAL));
        }
        self.carry_out(request, texts)
    }

    /// Removes an entry with all below it. The kernel finds the directory that has the entry, if it can: then that is
    /// the root, and the path is a name.
    #[inline(never)]
    pub(crate) fn remove_all<'n>(&mut self, request: &Request, texts: Texts<'n>) -> Said<'n> {
        let fault = fault_of(request.flags, request.root);
        if fault != 0 {
            return Ok(refused(fault));
        }
        if has(request.flags, EXACT) {
            return self.by_steps(request, texts);
        }
        let at = path_below(request, &texts);
        let parted = split(at.path.text(), false);
        let above = match named(at.path, false) {
            Some(entry) => entry.above,
            None => return self.by_steps(request, texts),
        };
        let dir = match find_directory(&mut self.answers, &mut self.known, &at, above)? {
            Ok(dir) => dir,
            Err(_) => return self.by_steps(request, texts),
        };
        let there = Request {
            root: dir.fd,
            ..*request
        };
        let name = at.path.part(parted.name, parted.length);
        let reply = self.by_steps(&there, texts.on(name))?;
        leave(&mut self.answers, dir, false)?;
        Ok(reply)
    }

    // ---- an object gets another name

    /// Gives the object of a descriptor another name. The step for that is the one that makes a link, with the link's
    /// text, if the object is a link.
    #[inline(never)]
    pub(crate) fn link_named<'n>(&mut self, request: &Request, texts: Texts<'n>) -> Said<'n> {
        let mut asked = Request {
            what: MKFILE,
            mode: 0,
            flags: request.flags & !GIVE,
            gives: has(request.flags, GIVE),
            linked: true,
            ..*request
        };
        let fault = fault_of(asked.flags, asked.root);
        if fault != 0 {
            return Ok(refused(fault));
        }
        let about = self.ask(Question::Stat(asked.fd))?;
        if look_error(&about) != 0 {
            return self.blamed(refused(look_error(&about)));
        }
        let mut target = b"".as_slice();
        if kind_of(about.mode as u32) == A_LINK {
            let text = self.ask(Question::ReadLink(asked.fd))?;
            if text.error != 0 {
                return self.blamed(refused(text.error));
            }
            asked.what = SYMLINK;
            target = front(texts.read, text.value as usize);
        }
        let named = Texts {
            target,
            looked: false,
            ..texts
        };
        self.carry_out(&asked, named)
    }

    /// Gives what the first path means another name.
    #[inline(never)]
    pub(crate) fn link<'n>(&mut self, request: &Request, texts: Texts<'n>) -> Said<'n> {
        let found = Request {
            what: look_up_by(has(request.flags, FOLLOW)),
            flags: request.flags & !(FOLLOW | GIVE),
            ..*request
        };
        let fd = match self.carry_out(&found, texts)? {
            Reply::Value(fd, _) => (fd % 0x1_0000_0000) as u32,
            failed => return Ok(failed),
        };
        let named = Request {
            flags: request.flags & !FOLLOW,
            fd,
            ..*request
        };
        let reply = self.link_named(&named, texts.on(texts.second))?;
        self.close(fd)?;
        Ok(reply)
    }

    // ---- where an entry, or an object, is

    /// Opens the directory of the entry at a path's end; the entry's name lies in the room.
    #[inline(never)]
    pub(crate) fn open_parent<'n>(&mut self, request: &Request, texts: Texts<'n>) -> Said<'n> {
        let flags = request.flags & !DIRECTORY;
        let fault = fault_of(flags, request.root);
        if fault != 0 {
            return Ok(refused(fault));
        }
        let path = texts.first;
        let parted = split(path.text(), has(request.flags, DIRECTORY));
        if parted.error != 0 {
            let failed = Request {
                what: FAILED,
                mode: parted.error as u32,
                flags: 0,
                ..*request
            };
            return self.by_steps(&failed, texts);
        }
        let asked = Request {
            what: RESOLVE,
            flags,
            directory: true,
            ..*request
        };
        let above = texts.on(path.front_or_here(parted.name));
        let name = path.piece(parted.name, parted.length);
        Ok(match self.carry_out(&asked, above)? {
            Reply::Value(fd, _) => Reply::Value(fd, name),
            failed => failed,
        })
    }

    /// The names that lead from the root to the object of a descriptor: how long their text is.
    #[inline(never)]
    pub(crate) fn place<'n>(&mut self, request: &Request, texts: Texts<'n>) -> Said<'n> {
        let asked = Request {
            flags: NO_RETRY,
            ..*request
        };
        let fault = fault_of(asked.flags, asked.root);
        if fault != 0 {
            return Ok(refused(fault));
        }
        for count in 1..QUESTIONS {
            let reply = self.by_steps(&asked, texts)?;
            let (length, error, _) = reply.outcome();
            let next = next_question(count, error, length as usize, request.size as usize);
            if next.again {
                continue;
            }
            if next.error == error {
                return Ok(reply);
            }
            let step = if error == 0 {
                steps::NONE
            } else {
                steps::NAME_BELOW
            };
            return Ok(Reply::Fails(next.error, step, b""));
        }
        Ok(refused(EINVAL))
    }
}
