//! An entry is removed with all that is below it, by as many proved calls as that takes. One makes a bounded number
//! of steps and goes to a bounded depth. `remove_by_calls` says where the next one is made.
use crate::by_steps::attempt::Attempt;
use crate::by_steps::name::Name;
use crate::by_steps::state::{Ended, Part, Stage, Steps};
use dialogue::{Answer as Gave, Asked, Question, ask};
use remove_by_calls::{Answer, Asked as AskedNext, Came, Question as Due, Removal, a_call, begin};
use std::alloc::{AllocError, Global};
use system_calls::errors::{EAGAIN, EBUSY, EIO};

// So often a call goes deeper by one more. Places that are farther apart let a deep tree be gone through less often.
const MOVES: u32 = 12;

const PLACES: usize = 16;

// A call and what follows it have so many answers at most: the call's, and one for each place that is closed.
const ANSWERS: usize = 17;

/// Where a proved call went no deeper: an entry in this directory, from which another call goes on.
#[derive(Clone, Copy)]
struct Place {
    dir: u32,
    name: Name,
}

/// A removal under way.
#[derive(Drop)]
pub(crate) struct Removing {
    // How far it had come before the call under way; and what the call and what followed it gave.
    course: Removal,
    may_retry: bool,
    answers: [Answer; ANSWERS],
    count: usize,
    places: Vec<Place>,
    // The place of the last of the proved calls that one call is made of, if there were several; so many; and how
    // many entries they removed.
    here: Place,
    moves: u32,
    removed: u64,
    // The error of the last one, or 0; and its place is to be closed.
    error: u32,
    closes: bool,
}

/// What follows.
enum Next {
    /// A proved call in a directory: of the request's path, or of a name.
    Run(u32, Option<Name>),
    /// What comes next in the removal.
    Demand,
    Ends(u64),
    Fails(u32),
}

fn nowhere() -> Place {
    Place {
        dir: 0xffff_ffff,
        name: Name::empty(),
    }
}

// Where the last proved call came to.
fn come_to(attempt: &Attempt, dir: u32) -> Place {
    Place {
        dir,
        name: attempt.deepest_name,
    }
}

impl Removing {
    pub(crate) fn begin(alloc: Global, may_retry: bool) -> Result<Removing, AllocError> {
        Ok(Removing {
            course: begin(),
            may_retry,
            answers: [Answer::default(); ANSWERS],
            count: 0,
            places: Vec::from_elem(alloc, nowhere(), PLACES)?,
            here: nowhere(),
            moves: 0,
            removed: 0,
            error: 0,
            closes: false,
        })
    }

    fn place(&self, number: u8) -> Place {
        match self.places.get(usize::from(number)) {
            Some(place) => *place,
            None => nowhere(),
        }
    }

    // What the call under way has come to; or what is due.
    fn now(&self) -> AskedNext<Came> {
        let mut answers = &self.answers[..self.count.min(ANSWERS)];
        a_call(&mut answers, self.may_retry, &self.course)
    }

    fn due<'s>(&self, answers: &mut &[Gave]) -> Asked<'s, Part> {
        if self.closes {
            ask(answers, Question::Close(self.here.dir))?;
            return Ok(Part::Removed);
        }
        match self.now() {
            Err(Due::AtRoot(pause)) if pause > 0 => {
                ask(answers, Question::Wait(pause))?;
            }
            Err(Due::Close(place)) => {
                ask(answers, Question::Close(self.place(place).dir))?;
            }
            _ => (),
        }
        Ok(Part::Removed)
    }

    // The answers are dropped where another call follows.
    fn go_on(&mut self, answer: Answer) -> Next {
        if self.count >= ANSWERS {
            return Next::Fails(EIO);
        }
        self.answers[self.count] = answer;
        self.count += 1;
        match self.now() {
            Err(_) => Next::Demand,
            Ok(Came::Removed(count)) => Next::Ends(count),
            Ok(Came::Fails(error)) => Next::Fails(error),
            Ok(Came::Again(course)) => {
                self.course = course;
                self.count = 0;
                Next::Demand
            }
        }
    }

    // If the last of several proved calls is done, the end of the tree alone is gone: as if the call had come to its
    // bound of steps.
    fn call_over(&mut self, attempt: &Attempt) -> Next {
        let error = if self.moves == 0 || self.error != 0 {
            self.error
        } else if self.removed > 0 {
            EBUSY
        } else {
            EAGAIN
        };
        self.go_on(Answer {
            removed: self.removed,
            error,
            unmade: attempt.unmade,
            deeper: attempt.deepest.is_some(),
        })
    }

    // A call goes deeper by some proved ones, each from where the one before came to.
    fn move_on(&mut self, attempt: &Attempt) -> Next {
        match attempt.deepest {
            Some(dir) if self.moves < MOVES => {
                self.moves += 1;
                self.here = come_to(attempt, dir);
                Next::Run(dir, Some(self.here.name))
            }
            _ => self.call_over(attempt),
        }
    }

    // A proved call has ended, by this error or 0.
    fn run_over(&mut self, attempt: &Attempt, error: u32) -> Next {
        self.removed = self.removed.saturating_add(attempt.removed);
        self.error = error;
        if self.moves > 0 {
            self.closes = true;
            Next::Demand
        } else {
            self.move_on(attempt)
        }
    }

    fn call(&mut self, root: u32, within: Option<Name>) -> Next {
        self.moves = 0;
        self.removed = 0;
        Next::Run(root, within)
    }

    fn keep(&mut self, number: u8, attempt: &Attempt) {
        match (self.places.get_mut(usize::from(number)), attempt.deepest) {
            (Some(place), Some(dir)) => *place = come_to(attempt, dir),
            _ => (),
        }
    }

    // What was due is done.
    fn done(&mut self, attempt: &Attempt, root: u32) -> Next {
        if self.closes {
            self.closes = false;
            return self.move_on(attempt);
        }
        match self.now() {
            Err(Due::AtRoot(_)) => return self.call(root, None),
            Err(Due::InPlace(number)) => {
                let place = self.place(number);
                return self.call(place.dir, Some(place.name));
            }
            Err(Due::Keep(number)) => self.keep(number, attempt),
            _ => (),
        }
        self.go_on(Answer::default())
    }
}

impl Steps {
    /// What comes next in a removal.
    pub(crate) fn removal_due<'s>(&'s self, answers: &mut &[Gave]) -> Asked<'s, Part> {
        match &self.removing {
            Some(removing) => removing.due(answers),
            None => Ok(Part::Removed),
        }
    }

    fn follow(&mut self, next: Next) -> Option<Ended> {
        match next {
            Next::Run(root, within) => {
                self.root = root;
                self.within = within;
                self.stage = Stage::Floor;
                None
            }
            Next::Demand => {
                self.stage = Stage::Removal;
                None
            }
            Next::Ends(removed) => Some(Ended::Value(removed)),
            Next::Fails(error) => Some(Ended::Fails(error, self.attempt.step)),
        }
    }

    pub(crate) fn removal_done(&mut self) -> Option<Ended> {
        let next = match &mut self.removing {
            Some(removing) => removing.done(&self.attempt, self.request.root),
            None => Next::Fails(EIO),
        };
        self.follow(next)
    }

    /// A proved call of a removal has ended, by this error or 0.
    pub(crate) fn run_removed(&mut self, error: u32) -> Option<Ended> {
        let next = match &mut self.removing {
            Some(removing) => removing.run_over(&self.attempt, error),
            None => Next::Fails(EIO),
        };
        self.follow(next)
    }
}
