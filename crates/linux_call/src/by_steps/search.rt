//! At which names below the root an object stands: each question of `find_place` by its system calls.
use crate::by_steps::slots::Slot;
use crate::by_steps::there::{is_dead, may_be_dead};
use crate::by_steps::witnesses::{LinkRead, LookedUp, look_up, read_link};
use crate::path::piece;
use dialogue::{Answer as Gave, Asked, Question, ask};
use find_place::{Answer, BY_NAME, BY_ROOT, Facts, Question as Wanted, SEEN_BELOW};
use find_proc::{Known, Proc};
use linux_steps::look_error;
use std::alloc::Global;
use system_calls::errors::ENOMEM;
use system_calls::{Object, kind_of};

const DIRECTORY: u8 = 1;

// So many questions come at most.
const QUESTIONS: usize = 8;

// Room for all texts, if these are short.
const SHORT: usize = 256;

// In place of a descriptor.
const NO_DESCRIPTOR: u32 = 0xffff_ffff;

/// What a question was answered, but for objects; and where the text lies that was read, and how long it is.
#[derive(Clone, Copy)]
pub(crate) struct Heard {
    links: u64,
    error: u32,
    yes: bool,
    start: usize,
    length: usize,
}

const NOTHING: Object = Object {
    device: 0,
    inode: 0,
    mount: 0,
};

const NOTHING_HEARD: Heard = Heard {
    links: 0,
    error: 0,
    yes: false,
    start: 0,
    length: 0,
};

// What is asked next, or the end; of names, how long they are.
#[derive(Clone, Copy)]
enum Due {
    Look,
    Copy,
    RootLink,
    ObjectLink,
    LookUp(usize),
    LinkAgain,
    Dead,
    Removed,
    Close,
    Stands(usize),
    Fails(u32),
}

fn due_behind<'b>(answers: &'b [Answer<'b>], facts: &Facts, asks: bool) -> Due {
    let mut left = answers;
    let now = if asks {
        find_place::ask_place(&mut left)
    } else {
        find_place::place(&mut left, facts)
    };
    match now {
        Err(Wanted::Look) => Due::Look,
        Err(Wanted::Copy) => Due::Copy,
        Err(Wanted::RootLink) => Due::RootLink,
        Err(Wanted::ObjectLink) => Due::ObjectLink,
        Err(Wanted::LookUp(names)) => Due::LookUp(names.len()),
        Err(Wanted::LinkAgain) => Due::LinkAgain,
        Err(Wanted::Dead) => Due::Dead,
        Err(Wanted::Removed) => Due::Removed,
        Err(Wanted::Close) => Due::Close,
        Ok(Ok(names)) => Due::Stands(names.len()),
        Ok(Err(error)) => Due::Fails(error),
    }
}

fn failed(error: u32) -> Heard {
    Heard {
        error,
        ..NOTHING_HEARD
    }
}

fn said(yes: bool) -> Heard {
    Heard {
        yes,
        ..NOTHING_HEARD
    }
}

/// What was asked about one object, by a walk or by a program. The texts that were read stay until the place is told.
#[derive(Drop)]
pub(crate) struct Search {
    root: u32,
    held: Slot,
    // The program's own descriptor. None: a walk asks.
    program: Option<u32>,
    facts: Facts,
    heard: [Heard; QUESTIONS],
    count: usize,
    texts: Vec<u8>,
    // What the look-up compared: the object, and what was found.
    both: (Object, Object),
    // By all that was heard.
    next: Due,
}

/// What a question was answered.
#[derive(Clone, Copy)]
pub(crate) enum Found {
    Link(LinkRead),
    LookedUp(LookedUp),
    /// Of a look at the object; and its kind.
    Looked(Heard, u8),
    /// The copy of the program's descriptor, or an error.
    Copied(Result<u32, u32>),
    /// Of any other.
    Said(Heard),
}

impl Search {
    pub(crate) fn new(alloc: Global) -> Search {
        Search {
            root: 0,
            held: Slot::new(None, 0, BY_NAME),
            program: None,
            facts: Facts {
                directory: false,
                seen: false,
            },
            heard: [NOTHING_HEARD; QUESTIONS],
            count: 0,
            texts: Vec::new(alloc),
            both: (NOTHING, NOTHING),
            next: Due::RootLink,
        }
    }

    /// A walk asks for the place of what it holds; or a program of a descriptor's object, which isn't held yet.
    pub(crate) fn begin(&mut self, root: u32, held: Slot, program: Option<u32>) {
        self.root = root;
        self.held = held;
        self.program = program;
        self.facts = Facts {
            directory: held.kind == DIRECTORY,
            seen: held.way == SEEN_BELOW,
        };
        self.count = 0;
        self.texts.clear();
        self.next = due_behind(&[], &self.facts, program.is_some());
    }

    fn held_fd(&self) -> u32 {
        self.held.fd.unwrap_or(NO_DESCRIPTOR)
    }

    fn program_fd(&self) -> u32 {
        self.program.unwrap_or(NO_DESCRIPTOR)
    }

    fn answer<'s>(&'s self, heard: &Heard) -> Answer<'s> {
        Answer {
            text: piece(self.texts.as_slice(), heard.start, heard.length),
            held: self.both.0,
            found: self.both.1,
            links: heard.links,
            error: heard.error,
            yes: heard.yes,
        }
    }

    // What comes next, by all that was heard. A walk asks four questions at most.
    fn behind(&self) -> Due {
        let h = &self.heard;
        let first = [
            self.answer(&h[0]),
            self.answer(&h[1]),
            self.answer(&h[2]),
            self.answer(&h[3]),
        ];
        if self.count <= first.len() {
            due_behind(&first[..self.count], &self.facts, self.program.is_some())
        } else {
            self.behind_more(&first)
        }
    }

    #[inline(never)]
    fn behind_more<'s>(&'s self, first: &[Answer<'s>; 4]) -> Due {
        let h = &self.heard;
        let answers = [
            first[0],
            first[1],
            first[2],
            first[3],
            self.answer(&h[4]),
            self.answer(&h[5]),
            self.answer(&h[6]),
            self.answer(&h[7]),
        ];
        let count = self.count.min(QUESTIONS);
        due_behind(&answers[..count], &self.facts, self.program.is_some())
    }

    // So long are the names: a slash alone, or the end of the object's text.
    fn names_of(&self, length: usize) -> &[u8] {
        if length < 2 {
            return b"/";
        }
        let text = self.heard[if self.program.is_some() { 3 } else { 1 }];
        let end = text.start.saturating_add(text.length);
        piece(self.texts.as_slice(), end.saturating_sub(length), length)
    }

    fn look<'s>(&'s self, answers: &mut &[Gave]) -> Asked<'s, Found> {
        let about = ask(answers, Question::Stat(self.program_fd()))?;
        let kind = kind_of(about.mode as u32);
        let heard = Heard {
            links: about.links as u64,
            yes: kind == DIRECTORY,
            ..failed(look_error(&about))
        };
        Ok(Found::Looked(heard, kind))
    }

    // By a copy, which a look-up may close.
    fn copy<'s>(&'s self, answers: &mut &[Gave]) -> Asked<'s, Result<u32, u32>> {
        let copied = ask(answers, Question::CopyAbove(self.program_fd()))?;
        Ok(if copied.error == 0 {
            Ok(copied.value)
        } else {
            Err(copied.error)
        })
    }

    /// Asks what comes next. PROC: the one that is known.
    pub(crate) fn due<'s>(
        &'s self,
        answers: &mut &[Gave],
        known: &mut Known,
        proc: Option<Proc>,
    ) -> Asked<'s, Found> {
        let held = self.held_fd();
        let is_root = matches!(self.next, Due::RootLink);
        let fd = if is_root { self.root } else { held };
        Ok(match self.next {
            Due::Look => self.look(answers)?,
            Due::Copy => Found::Copied(self.copy(answers)?),
            Due::RootLink | Due::ObjectLink | Due::LinkAgain => {
                Found::Link(read_link(answers, known, proc, fd)?)
            }
            Due::LookUp(length) => {
                let names = self.names_of(length);
                Found::LookedUp(look_up(answers, known, self.root, held, names)?)
            }
            Due::Dead => Found::Said(said(may_be_dead(answers, held)?)),
            Due::Removed => Found::Said(said(is_dead(answers, held)?)),
            Due::Close => Found::Said(failed(ask(answers, Question::Close(held))?.error)),
            _ => Found::Said(failed(0)),
        })
    }

    // Keeps the text that was read. Mostly there are three, and short ones.
    fn keep(&mut self, text: &[u8]) -> Heard {
        let start = self.texts.len();
        if start == 0 {
            let _ = self.texts.try_reserve(SHORT);
        }
        match self.texts.extend_from_slice(text) {
            Ok(()) => Heard {
                start,
                length: text.len(),
                ..NOTHING_HEARD
            },
            Err(_) => failed(ENOMEM),
        }
    }

    fn looked_up(&mut self, found: &LookedUp) -> Heard {
        if found.opened.is_some() {
            self.held.fd = found.opened;
        }
        match found.both {
            Ok(both) => {
                self.both = both;
                failed(0)
            }
            Err(error) => failed(error),
        }
    }

    /// Takes what was answered. READ: the text that was read last.
    pub(crate) fn take(&mut self, found: Found, read: &[u8]) {
        let heard = match found {
            Found::Link(link) => match link.length {
                Ok(length) => self.keep(piece(read, 0, length as usize)),
                Err(error) => failed(error),
            },
            Found::LookedUp(found) => self.looked_up(&found),
            Found::Looked(heard, kind) => {
                self.held.kind = kind;
                heard
            }
            Found::Copied(Ok(copy)) => {
                self.held.fd = Some(copy);
                failed(0)
            }
            Found::Copied(Err(error)) => failed(error),
            Found::Said(heard) => heard,
        };
        if self.count < QUESTIONS {
            self.heard[self.count] = heard;
            self.count += 1;
        }
        self.next = self.behind();
    }

    /// How long the names are; or why they couldn't be found out. None: more is to be asked.
    pub(crate) fn told(&self) -> Option<Result<usize, u32>> {
        match self.next {
            Due::Stands(length) => Some(Ok(length)),
            Due::Fails(error) => Some(Err(error)),
            _ => None,
        }
    }

    /// The object's slot, once the search is over.
    pub(crate) fn held(&self) -> Slot {
        let way = match self.next {
            Due::Stands(1) => BY_ROOT,
            _ if self.held.way == SEEN_BELOW => BY_NAME,
            _ => self.held.way,
        };
        Slot { way, ..self.held }
    }

    /// The names, if they were found: a slash before each, or a slash alone.
    pub(crate) fn names(&self) -> &[u8] {
        match self.next {
            Due::Stands(length) => self.names_of(length),
            _ => b"",
        }
    }
}
