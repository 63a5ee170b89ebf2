//! Which code a request is for.
ghost use Rattle.std.specs.Prelude.{◌≡◌, [], true, false};
ghost use Rattle.dialogue.specs.Dialogue.{ran};
ghost use Rattle.kernel_calls.specs.Calls.{EndsNext, IsBare};
ghost use Rattle.kernel_calls.specs.Entry.{closed_by};
ghost use Rattle.linux_call.specs.Whole.{CallDialogue, Follows, IsByKernel, IsWalked, at_in, besides, inner, is_whole, is_wrong, wanted_of};

use crate::path::Texts;
use crate::progress::{Progress, Said};
use crate::request::*;
use find_proc::{hand_in, make_private};

fn done<'n>(outcome: Result<(), u32>) -> Reply<'n> {
    match outcome {
        Ok(()) => value(0),
        Err(error) => refused(error),
    }
}

impl Progress<'_> {
    #[inline(never)]
    fn about_proc<'n>(&mut self, request: &Request, texts: Texts<'n>) -> Said<'n> {
        let fd = request.fd;
        match request.what {
            USE_PROC => Ok(done(hand_in(&mut self.answers, &mut self.known, fd)?)),
            USE_PRIVATE_PROC => Ok(done(make_private(&mut self.answers, &mut self.known)?)),
            PROC_OPEN => self.open_in_proc(request, texts),
            _ => self.read_link_of_proc(request, texts),
        }
    }

    // A call on a descriptor, or in /proc.
    #[inline(never)]
    fn on_descriptor<'n>(&mut self, request: &Request, texts: Texts<'n>) -> Said<'n> {
        let reply = match request.what {
            REOPEN => self.reopen(request),
            CHANGE_MODE => self.change_mode(request),
            CHANGE_OWNER => self.change_owner(request),
            CHANGE_TIMES => self.change_times(request),
            SET_ATTRIBUTE | GET_ATTRIBUTE | LIST_ATTRIBUTES | REMOVE_ATTRIBUTE => {
                self.attribute(request)
            }
            _ => self.about_proc(request, texts),
        }?;
        self.blamed(reply)
    }

    /// A call whose reply comes without another course.
    #[inline(always)]
    pub(crate) fn run<'n>(&mut self, request: &Request, texts: Texts<'n>) -> Said<'n>
        ensures ran { is_whole request.now.what ≡ true → is_wrong request.now ≡ false
            → IsWalked (inner request.now).flags request.now.root
            → closed_by self.old.behind.closes ≡ [] → (s : CallDialogue) → IsByKernel (inner request.now)
            self.old.known (at_in (inner request.now) texts.entry) (besides texts.entry) self.old.ends s
            → Follows (ran s self.old.answers.now) (closed_by self.new.behind.closes) result }
        ensures next { is_whole request.now.what ≡ true → is_wrong request.now ≡ false
            → IsWalked (inner request.now).flags request.now.root → IsBare (wanted_of (inner request.now))
            → self.old.behind.changes ≡ false → self.new.behind.changes ≡ true → (s : CallDialogue)
            → IsByKernel (inner request.now) self.old.known (at_in (inner request.now) texts.entry)
            (besides texts.entry) self.old.ends s
            → EndsNext s self.old.answers.now (closed_by self.new.behind.closes) }
    {
        match request.what {
            RESOLVE => self.open(request, texts),
            MKDIR | SYMLINK | MAKE_NODE => self.make_entry(request, texts),
            UNLINK | RMDIR => self.carry_out(request, texts),
            RENAME => self.rename_entry(request, texts),
            STATUS => self.status(request, texts),
            READ_LINK => self.read_link(request, texts),
            LINK => self.link(request, texts),
            LINK_OBJECT => self.link_named(request, texts),
            OPEN_PARENT => self.open_parent(request, texts),
            PLACE => self.place(request, texts),
            REMOVE_ALL => self.remove_all(request, texts),
            _ => self.on_descriptor(request, texts),
        }
    }
}
