//! A call by steps under way: what it keeps, what is due, and how it goes on.
use crate::by_steps::attempt::Attempt;
use crate::by_steps::listing::Names;
use crate::by_steps::name::Name;
use crate::by_steps::removal::Removing;
use crate::by_steps::search::{Found, Search};
use crate::by_steps::talk::Talk;
use crate::by_steps::tries::Course;
use crate::request::{FAILED, MKDIR_ALL, PLACE, REMOVE_ALL, Request};
use crate::walk::{NO_RETRY, has};
use call_course::Facts;
use dialogue::{Answer, Asked};
use find_proc::{Known, Proc, has_floor};
use path_text::Errno;
use std::alloc::Global;
use system_calls::errors::ENOMEM;

/// What is due.
#[derive(Clone, Copy, PartialEq, Eq)]
pub(crate) enum Stage {
    /// It is asked whether the kernel has what the library needs.
    Floor,
    /// What comes next in the course of the call.
    Course,
    /// The step that the proved call asks for.
    Step,
    /// The step isn't made, for this error.
    Unmade(u32),
    /// The place of what the step is about, or of the request's object.
    Place,
    /// The names of a directory.
    Listing,
    /// The proved call has replied.
    Replied,
    /// What comes next in a removal.
    Removal,
}

/// What a part came to.
#[derive(Clone, Copy)]
pub(crate) enum Part {
    /// Whether the kernel has what the library needs.
    Floor(bool),
    /// A thing in the course of the call: 0 or an error, and a number.
    Thing(u32, u64),
    /// Another /proc.
    Another(Result<Proc, u32>),
    /// A step that opens something, or reads a link.
    Made(linux_steps::Ended),
    /// What comes first as a place is asked for, and what the look-up by the names has found.
    Before(u8, Option<u32>),
    /// A question about a place.
    Place(Found),
    /// A system call of a listing: 0 or an error, and a number.
    Listed(u32, u32),
    /// A change: 0 or an error; what was made and opened; why that could not be opened, or 0.
    Changed(u32, Option<u32>, u32),
    /// A handle was closed.
    Closed,
    /// The step isn't made, for this error.
    Unmade(u32),
    /// The proved call has replied.
    Replied,
    /// What came next in a removal is done.
    Removed,
}

/// The end: a value; or an error (errno(3)) and the step to blame.
#[derive(Clone, Copy, Debug, PartialEq, Eq)]
pub(crate) enum Ended {
    Value(u64),
    Fails(u32, u8),
}

/// A call by steps under way.
#[derive(Drop)]
pub(crate) struct Steps {
    pub(crate) request: Request,
    pub(crate) first: Vec<u8>,
    pub(crate) second: Vec<u8>,
    /// The root of the proved call under way; and a name there, in the place of the first text.
    pub(crate) root: u32,
    pub(crate) within: Option<Name>,
    pub(crate) facts: Facts,
    pub(crate) stage: Stage,
    pub(crate) course: Course,
    pub(crate) attempt: Attempt,
    pub(crate) talk: Talk,
    pub(crate) search: Search,
    pub(crate) listing: Names,
    pub(crate) removing: Option<Removing>,
    /// The kind of what was opened.
    pub(crate) kind: u8,
}

fn facts_of(request: &Request) -> Facts {
    let failed = if request.what == FAILED {
        request.mode
    } else {
        0
    };
    let retries = failed == 0 && request.what != REMOVE_ALL;
    Facts {
        error: failed,
        places: request.what == PLACE,
        gives: request.opens || request.gives,
        finds_again: request.what == MKDIR_ALL,
        may_retry: retries && !has(request.flags, NO_RETRY),
    }
}

fn first_stage(request: &Request) -> Stage {
    if request.what == REMOVE_ALL {
        Stage::Removal
    } else {
        Stage::Floor
    }
}

// The texts, and what a removal keeps.
#[derive(Drop)]
struct Owned {
    first: Vec<u8>,
    second: Vec<u8>,
    removing: Option<Removing>,
}

fn copied(
    alloc: Global,
    request: &Request,
    first: &[u8],
    second: &[u8],
) -> Result<Owned, std::alloc::AllocError> {
    let first = Vec::from_slice(alloc, first)?;
    let second = Vec::from_slice(alloc, second)?;
    let removing = if request.what == REMOVE_ALL {
        Some(Removing::begin(alloc, !has(request.flags, NO_RETRY))?)
    } else {
        None
    };
    Ok(Owned {
        first,
        second,
        removing,
    })
}

impl Steps {
    /// Begins a call on texts that no slash stands before. ENOMEM: there is no memory.
    pub(crate) fn begin(
        alloc: Global,
        request: &Request,
        first: &[u8],
        second: &[u8],
    ) -> Result<Steps, u32> {
        let facts = facts_of(request);
        let Owned {
            first,
            second,
            removing,
        } = match copied(alloc, request, first, second) {
            Ok(copied) => copied,
            Err(_) => return Err(ENOMEM),
        };
        Ok(Steps {
            request: *request,
            first,
            second,
            root: request.root,
            within: None,
            facts,
            stage: first_stage(request),
            course: Course::begin(),
            attempt: Attempt::new(alloc),
            talk: Talk::failed(alloc, Errno::NoMemory),
            search: Search::new(alloc),
            listing: Names::new(alloc),
            removing,
            kind: 0,
        })
    }

    /// The system call that is due by the answers of the part under way; or what that part came to. If a system call
    /// is due, KNOWN is to be again what it was before.
    pub(crate) fn due<'s>(
        &'s self,
        known: &mut Known,
        answers: &mut &[Answer],
        read: &'s [u8],
    ) -> Asked<'s, Part> {
        match self.stage {
            Stage::Floor => {
                known.has_floor = has_floor(answers, known)?;
                Ok(Part::Floor(known.has_floor))
            }
            Stage::Course => self.thing_due(known, answers),
            Stage::Step => self.step_due(known, answers, read),
            Stage::Unmade(error) => Ok(Part::Unmade(error)),
            Stage::Place => Ok(Part::Place(self.search.due(answers, known, self.attempt.proc)?)),
            Stage::Listing => {
                let (error, value) = self
                    .listing
                    .due(answers, known.machine.directory, self.step_fd())?;
                Ok(Part::Listed(error, value))
            }
            Stage::Replied => Ok(Part::Replied),
            Stage::Removal => self.removal_due(answers),
        }
    }

    /// Takes what the part came to; its answers are dropped then. A text that is the call's reply comes to the
    /// beginning of READ, and its length is the value.
    pub(crate) fn take(&mut self, alloc: Global, part: Part, read: &mut [u8]) -> Option<Ended> {
        match part {
            Part::Floor(has) => return self.floor_seen(has, read),
            Part::Thing(error, value) => return self.thing_done(alloc, error, value, read),
            Part::Another(found) => return self.another_found(found, read),
            Part::Replied => return self.replied(read),
            Part::Removed => return self.removal_done(),
            Part::Place(found) => return self.place_asked(alloc, found, read),
            Part::Made(made) => self.made(alloc, made, read),
            Part::Before(next, found) => self.before_asked(alloc, next, found),
            Part::Listed(error, value) => self.listed(alloc, error, value, read),
            Part::Changed(error, made, unopened) => self.changed(alloc, error, made, unopened),
            Part::Closed => self.closed(),
            Part::Unmade(error) => self.unmade(error),
        }
        None
    }

    /// The name that an error was about.
    pub(crate) fn name(&self) -> &[u8] {
        self.attempt.step_name.text()
    }

    /// The descriptor of the step's handle.
    pub(crate) fn step_fd(&self) -> u32 {
        self.attempt.handles.fd(self.talk.handle())
    }

    /// The path of the proved call under way.
    pub(crate) fn path(&self) -> &[u8] {
        match &self.within {
            Some(name) => name.text(),
            None => self.first.as_slice(),
        }
    }
}
