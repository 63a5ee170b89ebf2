//! Calls that are made up of several: what each gave, which one comes next, and the end.
ghost use Rattle.std.specs.Prelude.{◌≡◌, true};
ghost use Rattle.linux_call.specs.Whole.{is_whole};

use crate::due::{NAME, lay};
use crate::inner::fault_of;
use crate::kept::State;
use crate::make_all::{Begun, Gave, outcome_of};
use crate::path::{Texts, front};
use crate::progress::Progress;
use crate::request::*;
use crate::walk::{FOLLOW, NO_RETRY, has};
use dialogue::Asked;
use make_through_links::Came;
use open_or_make::{Came as CameOpen, Outcome, lay_link};
use path_text::TEXT_MAX;
use std::mem;
use system_calls::errors::EINVAL;

/// The reply; or what a call of several gave.
pub(crate) type Part<'n> = Asked<'n, Result<Reply<'n>, Gave<'n>>>;

// What a call of several gave is kept, with the name that an error was about.
fn keep(state: &mut State, reply: &Reply<'_>, room: &mut [u8]) {
    if let Reply::Fails(_, _, name) = *reply {
        lay(room, NAME, name);
    }
    let (given, error, step) = reply.outcome();
    state.given = given;
    state.error = error;
    state.step = step;
}

impl Progress<'_> {
    // The end of a pass, or what its next call gives.
    pub(crate) fn open_at_part<'n>(
        &mut self,
        request: &Request,
        state: &State,
        texts: Texts<'n>,
    ) -> Part<'n> {
        let mut heard = heard(state);
        let path = texts.first.text();
        let read = text_read(state, texts.read);
        let came = match open_or_make::pass(&mut heard, &state.course, path, read) {
            Ok(came) => came,
            Err(question) => {
                return Ok(Err(self.open_next(request, question, &state.opening, texts)?));
            }
        };
        Ok(match came {
            CameOpen::Given(fd) => Ok(value(fd)),
            CameOpen::Failed(_) => Ok(Reply::Failed(state.error, state.step)),
            CameOpen::Fails(error, step) => Ok(Reply::Fails(error, step, b"")),
            CameOpen::Again(course) => Err(Gave::Pass(Begun::Opens(course), None)),
            CameOpen::Led(course, front) => {
                Err(Gave::Pass(Begun::Opens(course), Some((front, path.len()))))
            }
        })
    }

    #[inline(never)]
    pub(crate) fn make_all_part<'n>(
        &mut self,
        request: &Request,
        state: &State,
        texts: Texts<'n>,
    ) -> Part<'n> {
        let mut heard = heard(state);
        let read = text_read(state, texts.read);
        let came = match make_through_links::pass(
            &mut heard,
            &state.making,
            texts.first.text(),
            read,
        ) {
            Ok(came) => came,
            Err(question) => return Ok(Err(self.make_next(request, &question, texts)?)),
        };
        Ok(match came {
            Came::Given(fd) => Ok(value(fd)),
            Came::Failed(_) => Ok(Reply::Failed(state.error, state.step)),
            Came::Fails(error, step) => Ok(Reply::Fails(error, step, b"")),
            Came::Again(making) => Err(Gave::Pass(Begun::Makes(making), None)),
            Came::Led(making, front, at) => {
                Err(Gave::Pass(Begun::Makes(making), Some((front, at))))
            }
        })
    }
}

// What the calls of this pass gave.
fn heard(state: &State) -> &[Outcome] {
    let count = state.heard as usize;
    if count <= state.outcomes.len() {
        &state.outcomes[..count]
    } else {
        &state.outcomes
    }
}

// The text that the last call has read.
fn text_read<'r>(state: &State, read: &'r [u8]) -> &'r [u8] {
    if state.error == 0 {
        front(read, state.given as usize)
    } else {
        &read[..0]
    }
}

// Another pass over the path begins, into which the text is laid of the link that was read.
fn next_pass(
    state: &mut State,
    begun: Begun,
    led: Option<(usize, usize)>,
    path: &mut [u8],
    read: &[u8],
) {
    let length = match begun {
        Begun::Opens(course) => mem::replace(&mut state.course, course).length,
        Begun::Makes(making) => mem::replace(&mut state.making, making).length,
    };
    if let Some((front, at)) = led {
        lay_link(text_read(state, read), front, at, length, path);
    }
    state.heard = 0;
}

// What a call gave is heard in this pass: whether there was room.
fn hear(state: &mut State, rest: usize, finds: bool) -> bool {
    let at = state.heard as usize;
    if at >= state.outcomes.len() {
        return false;
    }
    state.outcomes[at] = outcome_of(state.error, state.given, rest, finds);
    state.heard += 1;
    true
}

// Goes on to the next call of several: whether it could.
#[inline(never)]
pub(crate) fn next_call(state: &mut State, then: Then, first: &mut [u8], read: &[u8]) -> bool {
    if first.len() <= TEXT_MAX {
        return false;
    }
    let (_, path) = first.split_at_mut(1);
    match then {
        Then::Call(rest, finds) => hear(state, rest, finds),
        Then::Pass(begun, led) => {
            next_pass(state, begun, led, path, read);
            true
        }
    }
}

/// What comes behind what a part of a call of several gave.
#[derive(Clone, Copy)]
pub(crate) enum Then {
    Call(usize, bool),
    Pass(Begun, Option<(usize, usize)>),
}

/// Keeps what a part of a call of several gave.
pub(crate) fn keep_gave(state: &mut State, gave: &Gave<'_>, room: &mut [u8]) -> Then {
    match gave {
        Gave::Outcome(reply, rest, finds) => {
            keep(state, reply, room);
            Then::Call(*rest, *finds)
        }
        Gave::Pass(begun, led) => Then::Pass(*begun, *led),
    }
}

// What is wrong with a call before its first system call, or 0.
pub(crate) fn begin(request: &mut Request, state: &mut State) -> u32
    ensures { is_whole request.old.what ≡ true → (result ≡ 0) × (request.new ≡ request.old)
        × (state.new ≡ record state.old { begun = true }) }
{
    state.begun = true;
    if request.what != MAKE_DIRECTORIES && request.what != MAKE_FILE {
        return 0;
    }
    let follows = has(request.flags, FOLLOW);
    request.flags &= !FOLLOW;
    if (request.mode | request.above) & !MODE_BITS != 0 {
        return EINVAL;
    }
    let (length, is_file) = (request.length as usize, request.what == MAKE_FILE);
    let may_retry = !has(request.flags, NO_RETRY);
    state.making = make_through_links::begin(length, is_file, follows, may_retry);
    fault_of(request.flags, request.root)
}
