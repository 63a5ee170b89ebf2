//! A copy of a walk.
ghost use Rattle.std.specs.Prelude.{◌≡◌, IfOk};
ghost use Rattle.step_resolver.specs.View.{HoldsNothing};

use super::{State, Walk};
use crate::course::{self, Course};
use crate::pending::Pending;
use handles::Reached;
use path_text::NoMemory;
use std::alloc::{AllocFailed, Global};
use std::mem;
use tree_model::Answer;

// The same object by the same handle, made anew of what it shows: for a copy of the walk that holds it, and so for no
// one outside of this crate.
fn held_again(held: &Reached) -> Reached
    ensures { result ≡ held.now }
{
    let answer = Answer::Opened {
        handle: held.handle(),
        node: held.node(),
        kind: held.kind(),
    };
    match Reached::of(held.owner(), &answer) {
        Some(again) => again,
        // Something was opened.
        None => unreachable!(),
    }
}

// The same place.
fn place_again(place: &Option<Reached>) -> Option<Reached>
    ensures { result ≡ place.now }
{
    match place {
        Some(held) => Some(held_again(held)),
        None => None,
    }
}

impl Walk {
    /// An equal walk by the same handles, which goes on by itself, as on a copy of the tree. NoMemory where its room
    /// was refused.
    pub fn copy(&self, alloc: Global) -> Result<Walk, NoMemory>
        ensures { IfOk result (λ copy. copy ≡ self.now) }
    {
        let state = &*self.state;
        let course = state.course.copy(alloc)?;
        let mut copy = State::at_rest(alloc, course)?;
        copy.holds_as(state);
        Ok(Walk { state: copy })
    }
}

impl State {
    // A walk's state on this course that holds nothing yet. Room comes first, so that no copy of what is held has to
    // be let go.
    fn at_rest(alloc: Global, course: Course) -> Result<Box<State>, NoMemory>
        ensures course { IfOk result (λ state. state.value.course ≡ course) }
        ensures nothing { IfOk result (λ state. HoldsNothing state.value.place state.value.pending) }
    {
        let (place, pending) = (None, Pending::Duping);
        match Box::new(
            alloc,
            State {
                course,
                place,
                pending,
            },
        ) {
            Ok(state) => Ok(state),
            Err(AllocFailed { value }) => {
                let _ = value.over();
                Err(NoMemory)
            }
        }
    }

    // Holds the same as the other, where it holds nothing.
    fn holds_as(&mut self, other: &State)
        requires { HoldsNothing self.old.place self.old.pending }
        ensures course { self.new.course ≡ self.old.course }
        ensures place { self.new.place ≡ other.now.place }
        ensures pending { self.new.pending ≡ other.now.pending }
    {
        course::let_go(mem::replace(&mut self.place, place_again(&other.place)));
        mem::replace(&mut self.pending, other.pending.copy()).let_go();
    }
}

impl Course {
    // An equal course.
    fn copy(&self, alloc: Global) -> Result<Course, NoMemory>
        ensures { IfOk result (λ copy. copy ≡ self.now) }
    {
        Ok(Course {
            root: self.root,
            plan: self.plan.copy(alloc)?,
        })
    }
}

impl Pending {
    // The same step.
    fn copy(&self) -> Pending
        ensures { result ≡ self.now }
    {
        match self {
            Pending::Opening => Pending::Opening,
            Pending::Reading(link) => Pending::Reading(held_again(link)),
            Pending::Rising => Pending::Rising,
            Pending::Judging => Pending::Judging,
            Pending::Duping => Pending::Duping,
            Pending::Ending => Pending::Ending,
            Pending::Closing {
                first,
                second,
                after,
            } => Pending::Closing {
                first: *first,
                second: *second,
                after: *after,
            },
        }
    }
}
