//! All missing parts of a path made, and the object at the end opened. Which call comes next, on which part of the
//! path, and what is closed when, `make_through_links` says.
use crate::path::Texts;
use crate::progress::{Progress, Said};
use crate::request::*;
use dialogue::Asked;
use kernel_walks::split;
use make_through_links::{Making, Question};
use open_or_make::{Course, Outcome};
use open_partial::{Came as Part, Outcome as Tried, Question as Due, a_try, beginning, trial_of};

// More than the tries and closes of one path, and their ends.
const SEARCHES: u32 = 64;

/// What a part of a call of several came to.
#[derive(Clone, Copy)]
pub(crate) enum Gave<'n> {
    /// A call gave this, with how much of the path comes before its last name, or before what is missing; and whether a
    /// file was looked for.
    Outcome(Reply<'n>, usize, bool),
    /// A pass over the path has ended, and another one begins: so far the call has come. A text that was read stands
    /// behind so many bytes of the path, before what comes from so many on.
    Pass(Begun, Option<(usize, usize)>),
}

/// How far a call of several has come before a pass.
#[derive(Clone, Copy)]
pub(crate) enum Begun {
    Opens(Course),
    Makes(Making),
}

/// What a call on so much of the path gave, in the words of `make_through_links`.
pub(crate) fn outcome_of(error: u32, found: u64, rest: usize, finds: bool) -> Outcome {
    Outcome {
        rest: if rest < 0xffff_ffff {
            rest as u32
        } else {
            0xffff_ffff
        },
        error,
        descriptor: (found % 0x1_0000_0000) as u32,
        directory: finds && found / 0x1_0000_0000 == A_DIRECTORY as u64,
    }
}

fn on_part(request: &Request, what: u8, mode: u32) -> Request {
    Request {
        what,
        mode,
        ..*request
    }
}

// What a try gave, in the words of `open_partial`.
fn tried_of(reply: &Reply) -> Tried {
    let (found, error, _) = reply.outcome();
    let descriptor = (found % 0x1_0000_0000) as u32;
    Tried { error, descriptor }
}

fn front_of(outcomes: &[Tried], count: usize) -> &[Tried] {
    if count <= outcomes.len() {
        &outcomes[..count]
    } else {
        outcomes
    }
}

impl Progress<'_> {
    // ---- as much of a part as is there

    fn open_pieces<'n>(
        &mut self,
        request: &Request,
        pieces: usize,
        whole: bool,
        texts: Texts<'n>,
    ) -> Said<'n> {
        let path = texts.first;
        let now = trial_of(pieces, whole, path.text(), true);
        let asked = Request {
            directory: now.directory,
            ..on_part(request, now.op, 0)
        };
        let pieces = if now.dot {
            path.front_or_here(0)
        } else {
            path.front(now.length)
        };
        self.carry_out(&asked, texts.on(pieces))
    }

    // The reply is that of the last try, or the descriptor of what is there.
    fn open_partial<'n>(&mut self, request: &Request, texts: Texts<'n>) -> Asked<'n, Gave<'n>> {
        let text = texts.first.text();
        let mut search = open_partial::begin(text);
        let mut reply = value(0);
        let mut outcomes = [Tried::default(); 2];
        let mut heard = 0;
        for _ in 0..SEARCHES {
            let mut left = front_of(&outcomes, heard);
            let tried = match a_try(&mut left, &search) {
                Err(Due::Try(pieces, whole)) => {
                    reply = self.open_pieces(request, pieces, whole, texts)?;
                    tried_of(&reply)
                }
                Err(Due::Close(fd)) => {
                    self.close(fd)?;
                    Tried::default()
                }
                Ok(Part::Again(next)) => {
                    search = next;
                    heard = 0;
                    continue;
                }
                Ok(Part::Found(there, fd)) => {
                    return Ok(Gave::Outcome(value(fd), beginning(text, there), false));
                }
                Ok(Part::Failed(_)) => break,
            };
            if heard < outcomes.len() {
                outcomes[heard] = tried;
                heard += 1;
            }
        }
        Ok(Gave::Outcome(reply, 0, false))
    }

    // ---- the calls

    fn on_its_part<'n>(
        &mut self,
        request: &Request,
        question: &Question<'_>,
        length: usize,
        texts: Texts<'n>,
    ) -> Asked<'n, Gave<'n>> {
        let part = texts.on(texts.first.front(length));
        let directories = texts.on(texts.first.front_or_here(length));
        let mut on = part;
        let mut finds = false;
        let asked = match question {
            Question::Find(_) => {
                finds = true;
                Request {
                    asks_kind: true,
                    ..on_part(request, RESOLVE, 0)
                }
            }
            Question::MakeAbove(_) => {
                on = directories;
                Request {
                    directory: true,
                    ..on_part(request, MKDIR_ALL, request.above)
                }
            }
            Question::Make(_) => Request {
                directory: true,
                ..on_part(request, MKDIR_ALL, request.mode)
            },
            Question::Create(_) => Request {
                gives: true,
                ..on_part(request, MKFILE, S_IFREG | request.mode)
            },
            Question::Partial(_) => return self.open_partial(request, directories),
            _ => on_part(request, READ_TEXT, 0),
        };
        let reply = self.carry_out(&asked, on)?;
        Ok(Gave::Outcome(reply, 0, finds))
    }

    /// The call that comes next.
    pub(crate) fn make_next<'n>(
        &mut self,
        request: &Request,
        question: &Question<'_>,
        texts: Texts<'n>,
    ) -> Asked<'n, Gave<'n>> {
        let length = match *question {
            Question::Split(path) => return Ok(split_name(path)),
            Question::Close(fd) => {
                self.close(fd)?;
                return Ok(Gave::Outcome(value(0), 0, false));
            }
            Question::Wait(pause) => {
                self.ask(dialogue::Question::Wait(pause))?;
                return Ok(Gave::Outcome(value(0), 0, false));
            }
            Question::Find(path)
            | Question::MakeAbove(path)
            | Question::Make(path)
            | Question::Partial(path)
            | Question::ReadLink(path)
            | Question::Create(path)
            | Question::ReadEnd(path) => path.len(),
        };
        self.on_its_part(request, question, length, texts)
    }
}

fn split_name<'n>(path: &[u8]) -> Gave<'n> {
    let parted = split(path, false);
    let reply = if parted.error == 0 {
        value(0)
    } else {
        refused(parted.error as u32)
    };
    Gave::Outcome(reply, parted.name, false)
}
