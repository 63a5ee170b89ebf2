//! How far a call has come.
ghost use Rattle.std.specs.Prelude.{◌≡◌, [], false};
ghost use Rattle.kernel_calls.specs.Entry.{closed_by};

use crate::request::{Reply, Request};
use dialogue::{Answer, Asked, Question, ask};
use find_proc::Known;
use kernel_calls::{Act, Behind, NOT_BEHIND, by_proc};

/// A reply; or the system call that is due.
pub(crate) type Said<'n> = Asked<'n, Reply<'n>>;

/// A number, or an error (errno(3)).
pub(crate) type Number<'n> = Asked<'n, Result<u32, u32>>;

/// The answers that are left, what is known by the others, and what a call has to say beside its reply, or its
/// question.
#[derive(Clone, Copy)]
pub(crate) struct Progress<'a> {
    pub answers: &'a [Answer],
    pub known: Known,
    /// The call that is to be made by single steps.
    pub inner: Option<Request>,
    /// The reply comes right behind the change of an entry; then what is closed behind the call's end.
    pub ends: bool,
    pub behind: Behind,
}

impl<'a> Progress<'a> {
    #[inline(always)]
    pub(crate) fn new(answers: &'a [Answer], known: Known, ends: bool) -> Progress<'a>
        ensures { (result.answers.now ≡ answers.now) × (result.known ≡ known) × (result.ends ≡ ends)
            × (closed_by result.behind.closes ≡ []) × (result.behind.changes ≡ false) }
    {
        Progress {
            answers,
            known,
            inner: None,
            ends,
            behind: NOT_BEHIND,
        }
    }

    #[inline(always)]
    pub(crate) fn ask<'n>(&mut self, question: Question<'n>) -> Asked<'n, Answer>
        ensures { self.new.behind ≡ self.old.behind }
    {
        ask(&mut self.answers, question)
    }

    /// What a system call gave.
    #[inline(always)]
    pub(crate) fn gives<'n>(&mut self, question: Question<'n>) -> Number<'n> {
        kernel_calls::gives(&mut self.answers, question)
    }

    /// Does it to the object of a descriptor, by its link in /proc.
    pub(crate) fn by_proc<'n>(&mut self, fd: u32, act: Act<'n>) -> Number<'n> {
        by_proc(&mut self.answers, &mut self.known, fd, act)
    }

    #[inline(always)]
    pub(crate) fn close<'n>(&mut self, fd: u32) -> Asked<'n, ()> {
        self.ask(Question::Close(fd))?;
        Ok(())
    }
}
