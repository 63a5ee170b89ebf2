//! A walk along a path below a root.
ghost use Rattle.std.specs.Prelude.{◌≡◌, ◌<◌, ◌≤◌, [], Bool, true, false, IsTrue, length};
ghost use Rattle.handles.specs.Objects.{is_opened};
ghost use Rattle.path_text.specs.declared.path.TheConstants.{PARTS_MAX};
ghost use Rattle.step_resolver.specs.declared.pending.Next.TheVariants.{Due};
ghost use Rattle.step_resolver.specs.View.{HoldsNoLink};
ghost use Rattle.step_resolver.specs.TurnView.{IsDue};

use crate::course::{self, Course};
use crate::footprint_laws::walks_mean;
use crate::laws::walks_tell;
use crate::pending::{AfterClose, End, Next, Pending};
use handles::{Owner, Reached, Standing};
use path_text::{Errno, Flags, NoMemory, PARTS_MAX, Parts, Path};
use std::alloc::{AllocFailed, Global};
use std::marker::Model;
use std::mem;
use tree_model::{Answer, HandleNo, LentStep, StepOf};
use walk_plan::{Goal, Plan};

mod copy;
mod like;

pub use like::like_held;

/// The directory below which paths are resolved, by an open handle on it.
#[derive(Clone, Copy, Debug, PartialEq, Eq)]
pub struct Root {
    /// Whose handle it is. A walk's own steps are this actor's.
    pub owner: Owner,
    pub handle: HandleNo,
}

/// A walk that is under way. You can't drop it: make each step that is `due`, and `take` its answer, until the walk
/// ends. To give it up, make each Close that is due, and answer `Refused(NoMemory)` to every other step. It lies in
/// one box, and moving it moves a pointer. Contracts see it as a `WalkView`: whose it is, what stays the same for
/// it, and the step that is due.
#[derive(Debug)]
pub struct Walk {
    state: Box<State>,
}

// What a walk is made of, changed in place at each turn.
#[derive(Debug)]
struct State {
    course: Course,
    // what is held, at the names passed
    place: Option<Reached>,
    pending: Pending,
}

impl Model for Walk {
    ghost use Rattle.step_resolver.specs.View.{WalkView};

    ghost Value = { WalkView };

    ghost use Rattle.step_resolver.specs.View.{view_of, IsHeldBy, IsPending};

    ghost view = { λ w. view_of w.state.value.course w.state.value.place w.state.value.pending };

    ghost invariant = { λ w. IsPending w.state.value.course.plan w.state.value.place w.state.value.pending
        × IsHeldBy w.state.value.course.root.owner w.state.value.place };
}

/// What a walk has come to.
#[derive(Debug)]
pub enum Turn {
    /// It goes on: a step is due.
    More(Walk),
    /// The object that the whole path led to, with the names at which it stood when that was asked.
    Found(Standing),
    /// The deepest directory on the way, and the caller's own parts from the first missing name on.
    Partial(Standing, Parts),
    /// It failed, and all that it had opened is closed.
    Failed(Errno),
}

impl Walk {
    ghost use Rattle.step_resolver.specs.Order.{due, for_walk, goes_on, more, passes, root_itself, steps_left};
    ghost use Rattle.step_resolver.specs.View.{way_from, course_way, todo_of, walking_of, IsHeldBy, IsPending, is_ending};
    ghost use Rattle.step_resolver.specs.TurnView.{turn_view, Keeps, StartsTo, TakesTo, steps_to_come, STEPS_MAX};
    ghost use Rattle.step_resolver.specs.TurnsTell.{TellsBegun, TellsTaken};

    /// Begins a walk along the path below the root (openat2(2), RESOLVE_IN_ROOT). One that goes on takes memory once.
    ///
    /// It may fail before any step: CrossRoot for an absolute path under `beneath`, or for `..` at the root (EXDEV of
    /// openat2(2)); TooLong for a first name of more than 255 bytes (ENAMETOOLONG); otherwise NoMemory, as if the
    /// first step couldn't be made for want of it. What `take` says of an end holds of these, too.
    #[tactic(auto, using(crate::proofs::TurnsTell::begun_tells))]
    pub fn start(alloc: Global, root: Root, path: Path, goal: Goal, flags: Flags) -> Turn
        ensures turn { StartsTo (way_from root goal flags) path (turn_view goal result) }
        ensures kept { Keeps root.owner (way_from root goal flags) result }
        ensures few { steps_to_come result ≤ STEPS_MAX }
        ensures headline { TellsBegun (way_from root goal flags) path (turn_view goal result) }
    {
        // What every walk's end tells, which `headline` says of this first turn.
        walks_tell();
        walks_mean();
        // A path has few parts, which bounds the steps to come.
        let few = path.parts.len() <= PARTS_MAX;
        prove!(few);
        Walk::first(alloc, root, path, goal, flags)
    }

    // The same, as the order of steps has it.
    fn first(alloc: Global, root: Root, path: Path, goal: Goal, flags: Flags) -> Turn
        ensures turn { StartsTo (way_from root goal flags) path (turn_view goal result) }
        ensures kept { Keeps root.owner (way_from root goal flags) result }
    {
        match Plan::new(alloc, path, goal, flags) {
            Ok(plan) => Walk::on_course(alloc, Course { root, plan }),
            Err(error) => Turn::Failed(error),
        }
    }

    // The walk at its first step, or its end. Room is asked for last, so that an end never fails for want of it.
    fn on_course(alloc: Global, mut course: Course) -> Turn
        requires { course.plan.names ≡ [] }
        ensures turn { (room : Bool)
            × (turn_view course.plan.goal result
            ≡ for_walk room (goes_on (course_way course) root_itself (todo_of course.plan))) }
        ensures kept { Keeps course.root.owner (course_way course) result }
    {
        let mut place = None;
        match course.go_on(&mut place) {
            Next::Due(pending) => match Box::new(
                alloc,
                State {
                    course,
                    place,
                    pending,
                },
            ) {
                Ok(state) => Turn::More(Walk { state }),
                Err(AllocFailed { value }) => {
                    value.unboxed();
                    Turn::Failed(Errno::NoMemory)
                }
            },
            Next::Failed(error) => {
                course::let_go(place);
                Turn::Failed(error)
            }
        }
    }

    /// The step that is due. It takes no memory: a name is lent from where it lies in the walk.
    pub fn due(&self) -> LentStep<'_>
        ensures { result ≡ due self.now.way self.now.walking }
    {
        let State {
            course,
            place,
            pending,
        } = &*self.state;
        let root = course.root.handle;
        match pending {
            Pending::Opening => StepOf::Open(course.handle_at(place), course.plan.next_name()),
            Pending::Reading(link) => StepOf::ReadLink(link.handle()),
            Pending::Rising => StepOf::Parent(course.handle_at(place)),
            Pending::Judging | Pending::Ending => {
                StepOf::NameBelow(root, course.handle_at(place))
            }
            Pending::Duping => StepOf::Dup(root),
            Pending::Closing {
                first,
                second: _,
                after: _,
            } => StepOf::Close(*first),
        }
    }

    /// Takes the answer to the due step, and gives the walk's next turn. A driver that couldn't make the step, for
    /// want of memory or of room in its book, hands in that refusal. The answer to a Close isn't looked at. A
    /// refused growth counts as NoMemory. Before the walk fails it closes everything that it opened, the newest
    /// first, which takes no memory.
    ///
    /// It fails (path_resolution(7); openat2(2)) with NotDir for a part in what is no directory; CrossRoot for `..`
    /// at the root or an absolute link under `beneath`; TooLong for a name of more than 255 bytes; Loop for a link
    /// past the fortieth, or any that must be followed under `no_links`; the fault of a link's text; Raced if what
    /// it holds isn't at the names passed, or a parent is gone; BadHandle for an answer that doesn't fit the step;
    /// and any other refusal of a step.
    ///
    /// If the walk ends here, this holds in every legal history whose steps of this walk led to the end, whatever
    /// others changed in between. What was found was reached part by part, and afterwards stood under the root at
    /// the names passed. A failure was true at moments of the walk. If no other actor changed an entry that the path
    /// reads, the end is what the path means (path_resolution(7)), unless memory, room in the book or handles ran
    /// short.
    #[inline(always)]
    #[tactic(auto, using(crate::proofs::TurnsTell::taken_tells))]
    pub fn take(self, answer: Answer) -> Turn
        ensures turn { TakesTo self.way self.walking answer (turn_view self.way.goal result) }
        ensures kept { Keeps self.owner self.way result }
        ensures fewer { steps_to_come result < steps_left self.walking }
        ensures headline { TellsTaken self.way self.walking answer (turn_view self.way.goal result) }
    {
        // What every walk's end tells, which `headline` says of this turn.
        walks_tell();
        walks_mean();
        self.taken(answer)
    }

    /// Takes the answer to the due step in place, where this is an Open or a Close after which the walk surely goes on:
    /// true, and the walk is at the next turn, that of `take`. Otherwise false, nothing is changed, and the answer is
    /// for `take`. Most turns pass, and move nothing.
    #[tactic(auto, using(crate::proofs::TurnsTell::taken_tells))]
    pub fn pass(&mut self, answer: &Answer) -> bool
        ensures which { result ≡ passes self.old.walking answer.now }
        ensures turn { IsTrue result → TakesTo self.old.way self.old.walking answer.now (more self.new.walking) }
        ensures kept { (self.new.owner ≡ self.old.owner) × (self.new.way ≡ self.old.way) }
        ensures fewer { IsTrue result → steps_left self.new.walking < steps_left self.old.walking }
        ensures headline { IsTrue result
            → TellsTaken self.old.way self.old.walking answer.now (more self.new.walking) }
        ensures left { result ≡ false → self.new ≡ self.old }
    {
        // What every walk's end tells, which `headline` says of this turn.
        walks_tell();
        walks_mean();
        self.passed(answer)
    }

    // The same, as the order of steps has it.
    fn passed(&mut self, answer: &Answer) -> bool
        ensures which { result ≡ passes self.old.walking answer.now }
        ensures turn { IsTrue result → TakesTo self.old.way self.old.walking answer.now (more self.new.walking) }
        ensures kept { (self.new.owner ≡ self.old.owner) × (self.new.way ≡ self.old.way) }
        ensures left { result ≡ false → self.new ≡ self.old }
    {
        let State {
            course,
            place,
            pending,
        } = &mut *self.state;
        match pending {
            Pending::Opening if place.is_some() || has_opened(answer) => {
                let next = course.opened(place, answer);
                goes_on(pending, next);
                return true;
            }
            Pending::Closing {
                first: _,
                second: None,
                after: AfterClose::Onward,
            } if place.is_some() => {
                let next = course.go_on(place);
                goes_on(pending, next);
                return true;
            }
            _ => {}
        }
        false
    }

    // The same, as the order of steps has it. Part of its caller, since a turn is larger than what most turns move.
    #[inline(always)]
    fn taken(self, answer: Answer) -> Turn
        ensures turn { TakesTo self.way self.walking answer (turn_view self.way.goal result) }
        ensures kept { Keeps self.owner self.way result }
    {
        let Walk { mut state } = self;
        if state.pending.is_ending() {
            return Walk::ended(state, answer);
        }
        match state.answered(answer) {
            Next::Due(pending) => {
                // The one that comes back holds nothing. An assignment would have to drop it, and no step can be.
                mem::replace(&mut state.pending, pending).let_go();
                Turn::More(Walk { state })
            }
            Next::Failed(error) => {
                State::let_go(state);
                Turn::Failed(error)
            }
        }
    }

    // The same of the last check. Apart from `taken`, so that a turn which goes on moves no object that was found.
    #[inline(never)]
    fn ended(mut state: Box<State>, answer: Answer) -> Turn
        requires pending { IsPending state.value.course.plan state.value.place state.value.pending }
        requires owner { IsHeldBy state.value.course.root.owner state.value.place }
        requires ending { is_ending state.value.pending ≡ true }
        ensures turn { TakesTo (course_way state.value.course)
            (walking_of state.value.course.plan state.value.place state.value.pending) answer
            (turn_view state.value.course.plan.goal result) }
        ensures kept { Keeps state.value.course.root.owner (course_way state.value.course) result }
    {
        let held = course::taken(&mut state.place);
        match state.course.ended(held, answer) {
            End::Found(standing) => {
                State::let_go(state);
                Turn::Found(standing)
            }
            End::Partial(standing) => Turn::Partial(standing, State::rest(state)),
            End::Due(pending) => {
                mem::replace(&mut state.pending, pending).let_go();
                Turn::More(Walk { state })
            }
        }
    }
}

// The step that comes next takes the place of one that holds no link.
fn goes_on(pending: &mut Pending, next: Next)
    requires no_link { HoldsNoLink pending.old }
    requires due { IsDue next }
    ensures { next ≡ Due pending.new }
{
    match next {
        // The one that comes back holds nothing. An assignment would have to drop it, and no step can be.
        Next::Due(due) => mem::replace(pending, due).let_go(),
        Next::Failed(_) => unreachable!(),
    }
}

// Whether an object was opened.
fn has_opened(answer: &Answer) -> bool
    ensures { result ≡ is_opened answer.now }
{
    matches!(
        answer,
        Answer::Opened {
            handle: _,
            node: _,
            kind: _,
        }
    )
}

impl State {
    ghost use Rattle.step_resolver.specs.View.{HoldsNothing, HoldsNoLink, IsHeldBy, IsPending, is_ending};
    ghost use Rattle.step_resolver.specs.TurnView.{TakesOn, KeepsCourse};
    ghost use Rattle.walk_plan.specs.Plan.{is_own};

    // What the answer to the pending step comes to, where that isn't the last check.
    fn answered(&mut self, answer: Answer) -> Next
        requires pending { IsPending self.old.course.plan self.old.place self.old.pending }
        requires owner { IsHeldBy self.old.course.root.owner self.old.place }
        requires goes_on { is_ending self.old.pending ≡ false }
        ensures turn { TakesOn self.old.course self.old.place self.old.pending answer
            self.new.course self.new.place result }
        ensures kept { KeepsCourse self.old.course self.new.course self.new.place result }
        ensures no_link { HoldsNoLink self.new.pending }
    {
        match &self.pending {
            Pending::Opening => self.course.opened(&mut self.place, &answer),
            Pending::Reading(_) => self.read(answer),
            Pending::Rising => self.course.risen(&mut self.place, answer),
            Pending::Judging => self.course.judged(&mut self.place, answer),
            Pending::Duping => self.course.duped(&mut self.place, answer),
            // It is the last check.
            Pending::Ending => unreachable!(),
            Pending::Closing {
                first: _,
                second,
                after,
            } => {
                let (second, after) = (*second, *after);
                self.course.closed(&mut self.place, second, after)
            }
        }
    }

    // The same of a link's text.
    fn read(&mut self, answer: Answer) -> Next
        requires pending { IsPending self.old.course.plan self.old.place self.old.pending }
        requires owner { IsHeldBy self.old.course.root.owner self.old.place }
        requires reads { HoldsNoLink self.old.pending → ⊥ }
        ensures turn { TakesOn self.old.course self.old.place self.old.pending answer
            self.new.course self.new.place result }
        ensures kept { KeepsCourse self.old.course self.new.course self.new.place result }
        ensures no_link { HoldsNoLink self.new.pending }
    {
        // Nothing can be moved out of a box: a step that holds nothing stands in until the next one is known.
        match mem::replace(&mut self.pending, Pending::Duping) {
            Pending::Reading(link) => self.course.read(&mut self.place, link, answer),
            _ => unreachable!(),
        }
    }

    // Lets go of what found no box. Apart from `on_course`, which for its sake would move a walk into its box piece by
    // piece.
    #[inline(never)]
    fn unboxed(self)
        requires { HoldsNothing self.place self.pending }
    {
        let _ = self.over();
    }

    // Lets a walk's box go where nothing is held any more. Apart from `taken`, so that a turn which goes on makes no
    // room for what lies in the box.
    #[inline(never)]
    fn let_go(state: Box<State>)
        requires { HoldsNothing state.value.place state.value.pending }
    {
        let _ = Box::into_inner(state).over();
    }

    // The caller's own parts that are left where nothing is held any more.
    #[inline(never)]
    fn rest(state: Box<State>) -> Parts
        requires nothing { HoldsNothing state.value.place state.value.pending }
        requires own { IsTrue (is_own state.value.course.plan) }
        ensures parts { result ≡ state.value.course.plan.own }
        ensures few { length result ≤ PARTS_MAX }
    {
        Box::into_inner(state).over().plan.rest()
    }

    // What is left where nothing is held any more.
    fn over(self) -> Course
        requires { HoldsNothing self.place self.pending }
        ensures { result ≡ self.course }
    {
        let State {
            course,
            place,
            pending,
        } = self;
        course::let_go(place);
        pending.let_go();
        course
    }
}
