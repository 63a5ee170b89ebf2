//! A walk apart from its pending step, and what each answer comes to.
ghost use Rattle.std.specs.Prelude.{◌≡◌, [], true, false, Some, None, IsSome, IsTrue, option_to_list, reverse};
ghost use Rattle.handles.specs.Objects.{is_opened};
ghost use Rattle.path_text.specs.declared.part.Part.TheVariants.{Up};
ghost use Rattle.walk_plan.specs.Plan.{next_part, is_own, follows_next_link, stayed};
ghost use Rattle.step_resolver.specs.Order.{gives, ending, gives_up, closing, at_end, goes_on, closes, comes, handle_at, more, refused_open, follows_link, is_followed};
ghost use Rattle.step_resolver.specs.View.{handle_of, numbers_of, is_directory_at, own_to_come, todo_of, stays, SameCourse, EntersBy, name_in, after_of, IsAtName, MayFollow};

use crate::answers::{check_refusal, refusal_of};
use crate::pending::{AfterClose, End, Next, Pending};
use crate::walk::Root;
use handles::Reached;
use path_text::{Errno, Part};
use std::mem;
use tree_model::{Answer, HandleNo, Kind};
use walk_plan::{Goal, Plan};

/// The root that a walk is below, and its plan.
#[derive(Debug, Drop)]
pub(crate) struct Course {
    pub(crate) root: Root,
    pub(crate) plan: Plan,
}

// Whether the walk stays where it is at the next part: at `.`, and at `..` in the root where nothing may lead out
// (path_resolution(7); RESOLVE_BENEATH of openat2(2)).
fn stays(plan: &Plan) -> bool
    ensures { result ≡ stays plan.now }
{
    match plan.next() {
        Some(Part::Cur) => true,
        Some(Part::Up) => plan.names().is_empty() && !plan.flags().beneath,
        _ => false,
    }
}

// Takes off the parts at which the walk stays where it is.
#[tactic(auto, using(crate::proofs::WalkParts::staying))]
fn pass_stays(plan: &mut Plan)
    ensures course { SameCourse plan.old plan.new }
    ensures done { stays plan.new ≡ false }
{
    while stays(plan) {
        plan.stayed();
    }
}

// Whether parts can be passed from there. The root is a directory.
fn is_directory(place: &Option<Reached>) -> bool
    ensures { result ≡ is_directory_at place.now }
{
    match place {
        None => true,
        Some(held) => held.kind() == Kind::Dir,
    }
}

// Lets go of a place in which nothing is held.
pub(crate) fn let_go(place: Option<Reached>)
    requires { place ≡ None }
{
    match place {
        None => {}
        // What is held is to be closed.
        Some(_) => unreachable!(),
    }
}

// Holds what was opened, where nothing is held.
fn hold(place: &mut Option<Reached>, held: Reached)
    requires { place.old ≡ None }
    ensures { place.new ≡ Some held }
{
    let_go(mem::replace(place, Some(held)));
}

// What is held, which nothing is then.
pub(crate) fn taken(place: &mut Option<Reached>) -> Reached
    requires { IsSome place.old }
    ensures held { place.old ≡ Some result }
    ensures none { place.new ≡ None }
{
    match mem::replace(place, None) {
        Some(held) => held,
        None => unreachable!(),
    }
}

// The handle that is to be closed.
fn given_up(held: Reached) -> HandleNo
    ensures { result ≡ held.handle }
{
    let handle = held.handle();
    let _ = held.into_close();
    handle
}

// The handle that is to be closed, if one is held.
fn all_given_up(place: Option<Reached>) -> Option<HandleNo>
    ensures { option_to_list result ≡ numbers_of place }
{
    match place {
        None => None,
        Some(held) => Some(given_up(held)),
    }
}

impl Course {
    ghost use Rattle.step_resolver.specs.View.{course_way, position_at, IsHeldBy, IsPlace, IsAfter};
    ghost use Rattle.step_resolver.specs.TurnView.{next_turn, IsDue, KeepsCourse, TakesOn, TakesTo, end_turn, IsEnd};

    /// The handle through which the place is reached.
    pub(crate) fn handle_at(&self, place: &Option<Reached>) -> HandleNo
        ensures { result ≡ handle_at (course_way self.now) (position_at self.now place.now) }
    {
        match place {
            None => self.root.handle,
            Some(held) => held.handle(),
        }
    }

    // What is held is closed, and the walk fails.
    fn fail(&self, place: &mut Option<Reached>, error: Errno) -> Next
        ensures turn { next_turn self.now place.new result ≡ gives_up (numbers_of place.old) error }
        ensures kept { KeepsCourse self.now self.now place.new result }
        ensures due { IsSome place.old → IsDue result }
    {
        match mem::replace(place, None) {
            None => Next::Failed(error),
            Some(held) => self.close(place, held, None, AfterClose::Gives(error)),
        }
    }

    // The first is closed, then the second.
    fn close(
        &self,
        place: &Option<Reached>,
        first: Reached,
        second: Option<Reached>,
        after: AfterClose,
    ) -> Next
        requires after { IsAfter self.now.plan.names place.now after }
        requires owner { IsHeldBy self.now.root.owner place.now }
        ensures turn { next_turn self.now place.now result
            ≡ more (closing first.handle (numbers_of second) (after_of self.now.plan place.now after)) }
        ensures kept { KeepsCourse self.now self.now place.now result }
        ensures due { IsDue result }
    {
        Next::Due(Pending::Closing {
            first: given_up(first),
            second: all_given_up(second),
            after,
        })
    }

    // The end, or the place in which the first part left is missing: something is held for it, and its place asked.
    fn end(&self, place: &Option<Reached>) -> Next
        requires place { IsPlace self.now.plan.names place.now }
        requires owner { IsHeldBy self.now.root.owner place.now }
        requires own { self.now.plan.inner ≡ [] }
        ensures turn { next_turn self.now place.now result
            ≡ at_end (position_at self.now place.now) (own_to_come self.now.plan) }
        ensures kept { KeepsCourse self.now self.now place.now result }
        ensures due { IsDue result }
    {
        Next::Due(match place {
            None => Pending::Duping,
            Some(_) => Pending::Ending,
        })
    }

    /// Goes on from the place: the parts that need no step are passed, up to the step that is due.
    #[tactic(auto, using(crate::proofs::WalkParts::next_parts))]
    pub(crate) fn go_on(&mut self, place: &mut Option<Reached>) -> Next
        requires place { IsPlace self.old.plan.names place.old }
        requires owner { IsHeldBy self.old.root.owner place.old }
        ensures turn { next_turn self.new place.new result
            ≡ goes_on (course_way self.old) (position_at self.old place.old) (todo_of self.old.plan) }
        ensures kept { KeepsCourse self.old self.new place.new result }
        ensures due { IsSome place.old → IsDue result }
    {
        match self.plan.next() {
            None => self.end(place),
            Some(_) => {
                if is_directory(place) {
                    pass_stays(&mut self.plan);
                    self.move_on(place)
                } else {
                    self.fail(place, Errno::NotDir)
                }
            }
        }
    }

    // The same in a directory, where the walk doesn't stay at the next part.
    #[tactic(auto, using(crate::proofs::WalkParts::next_parts))]
    fn move_on(&mut self, place: &mut Option<Reached>) -> Next
        requires place { IsPlace self.old.plan.names place.old }
        requires owner { IsHeldBy self.old.root.owner place.old }
        requires directory { is_directory_at place.old ≡ true }
        requires moves { stays self.old.plan ≡ false }
        ensures turn { next_turn self.new place.new result
            ≡ goes_on (course_way self.old) (position_at self.old place.old) (todo_of self.old.plan) }
        ensures kept { KeepsCourse self.old self.new place.new result }
        ensures due { IsSome place.old → IsDue result }
    {
        match self.plan.next() {
            None => self.end(place),
            // The walk stays at `.`.
            Some(Part::Cur) => unreachable!(),
            Some(Part::Up) => self.rise(place),
            Some(Part::Named(name)) => {
                if name.is_too_long() {
                    self.fail(place, Errno::TooLong)
                } else {
                    Next::Due(Pending::Opening)
                }
            }
        }
    }

    // `..`, at which the walk doesn't stay: to the parent, or out of the root, where it may not.
    #[tactic(auto, using(crate::proofs::WalkParts::rise_crosses, crate::proofs::WalkParts::rises))]
    fn rise(&mut self, place: &mut Option<Reached>) -> Next
        requires place { IsPlace self.old.plan.names place.old }
        requires owner { IsHeldBy self.old.root.owner place.old }
        requires directory { is_directory_at place.old ≡ true }
        requires up { next_part self.old.plan ≡ Some Up }
        requires moves { stays self.old.plan ≡ false }
        ensures turn { next_turn self.new place.new result
            ≡ goes_on (course_way self.old) (position_at self.old place.old) (todo_of self.old.plan) }
        ensures kept { KeepsCourse self.old self.new place.new result }
        ensures due { IsSome place.old → IsDue result }
    {
        if self.plan.names().is_empty() {
            return self.fail(place, Errno::CrossRoot);
        }
        match place {
            // No name was passed where nothing is held.
            None => unreachable!(),
            Some(_) => {
                self.plan.went_up();
                Next::Due(Pending::Rising)
            }
        }
    }

    /// A name was opened: a link that must be followed is read, anything else entered. Another step is due then. It
    /// also is if something is held, since that is closed first.
    pub(crate) fn opened(&mut self, place: &mut Option<Reached>, answer: &Answer) -> Next
        requires place { IsPlace self.old.plan.names place.old }
        requires owner { IsHeldBy self.old.root.owner place.old }
        requires named { IsAtName self.old.plan }
        ensures turn { TakesOn self.old place.old Pending.Opening answer.now self.new place.new result }
        ensures kept { KeepsCourse self.old self.new place.new result }
        ensures due { IsSome place.old → IsDue result }
        ensures opened { IsTrue (is_opened answer.now) → IsDue result }
    {
        match Reached::of(self.root.owner, answer) {
            None => self.not_opened(place, refusal_of(answer)),
            Some(new) => {
                if self.must_follow(new.kind()) {
                    self.follow(place, new)
                } else {
                    self.enter(place, new)
                }
            }
        }
    }

    // Whether what stands at the next part is a link that is followed.
    fn must_follow(&self, kind: Kind) -> bool
        ensures { result ≡ is_followed (follows_next_link self.now.plan) kind }
    {
        kind == Kind::Link && self.plan.follows_next_link()
    }

    // The name wasn't opened. A missing one of the caller's own is where the deepest directory ends.
    fn not_opened(&self, place: &mut Option<Reached>, error: Errno) -> Next
        requires place { IsPlace self.now.plan.names place.old }
        requires owner { IsHeldBy self.now.root.owner place.old }
        requires named { IsAtName self.now.plan }
        ensures turn { next_turn self.now place.new result
            ≡ refused_open (course_way self.now) (position_at self.now place.old) (is_own self.now.plan)
            (follows_next_link self.now.plan) (name_in (next_part self.now.plan))
            (todo_of (stayed self.now.plan)) error }
        ensures kept { KeepsCourse self.now self.now place.new result }
        ensures due { IsSome place.old → IsDue result }
    {
        if error == Errno::NotFound && self.plan.goal() == Goal::Deepest && self.plan.is_own() {
            self.end(place)
        } else {
            self.fail(place, error)
        }
    }

    // A link that must be followed: its text is read, unless no link may be followed any more, or none at all.
    fn follow(&self, place: &mut Option<Reached>, link: Reached) -> Next
        requires place { IsPlace self.now.plan.names place.old }
        requires owner { IsHeldBy self.now.root.owner place.old }
        requires named { IsAtName self.now.plan }
        ensures turn { next_turn self.now place.new result
            ≡ follows_link (course_way self.now) (position_at self.now place.old) (handle_of link)
            (todo_of (stayed self.now.plan)) }
        ensures kept { KeepsCourse self.now self.now place.new result }
        ensures due { IsDue result }
    {
        if self.plan.links_left() == 0 || self.plan.flags().no_links {
            self.fail_with(place, link, Errno::Loop)
        } else {
            Next::Due(Pending::Reading(link))
        }
    }

    // What was just opened is closed, then what is held, and the walk fails.
    fn fail_with(&self, place: &mut Option<Reached>, new: Reached, error: Errno) -> Next
        ensures turn { next_turn self.now place.new result
            ≡ more (closing new.handle (numbers_of place.old) (gives error)) }
        ensures kept { KeepsCourse self.now self.now place.new result }
        ensures due { IsDue result }
    {
        let held = mem::replace(place, None);
        self.close(place, new, held, AfterClose::Gives(error))
    }

    // What was opened is held, and what was held is closed.
    #[tactic(auto, using(crate::proofs::WalkAnswers::name_passed))]
    fn enter(&mut self, place: &mut Option<Reached>, new: Reached) -> Next
        requires place { IsPlace self.old.plan.names place.old }
        requires owner { new.owner ≡ self.old.root.owner }
        requires named { IsAtName self.old.plan }
        ensures turn { EntersBy (course_way self.old) (position_at self.old place.old)
            (name_in (next_part self.old.plan)) (handle_of new) (todo_of (stayed self.old.plan))
            (next_turn self.new place.new result) }
        ensures kept { KeepsCourse self.old self.new place.new result }
        ensures due { IsDue result }
    {
        match self.plan.entered() {
            Err(_) => self.fail_with(place, new, Errno::NoMemory),
            Ok(()) => match mem::replace(place, Some(new)) {
                None => self.go_on(place),
                Some(old) => self.close(place, old, None, AfterClose::Onward),
            },
        }
    }

    /// The text of a link was read: its parts come before all others, from the root where it is absolute.
    #[tactic(auto, using(crate::proofs::WalkAnswers::texts_read))]
    pub(crate) fn read(
        &mut self,
        place: &mut Option<Reached>,
        link: Reached,
        answer: Answer,
    ) -> Next
        requires place { IsPlace self.old.plan.names place.old }
        requires owner { IsHeldBy self.old.root.owner place.old }
        requires may { MayFollow self.old.plan }
        ensures turn { TakesOn self.old place.old (Pending.Reading link) answer self.new place.new result }
        ensures kept { KeepsCourse self.old self.new place.new result }
    {
        match answer {
            Answer::Text(text) => match self.plan.through(text) {
                Ok(true) => {
                    let held = mem::replace(place, None);
                    self.close(place, link, held, AfterClose::Onward)
                }
                Ok(false) => self.close(place, link, None, AfterClose::Onward),
                Err(error) => self.fail_with(place, link, error),
            },
            other => self.fail_with(place, link, refusal_of(&other)),
        }
    }

    /// The parent was opened: what was held is closed, and the parent's place asked. One without a parent was
    /// removed, and that is Raced (EAGAIN of openat2(2)).
    pub(crate) fn risen(&self, place: &mut Option<Reached>, answer: Answer) -> Next
        requires { IsSome place.old }
        ensures turn { TakesOn self.now place.old Pending.Rising answer self.now place.new result }
        ensures kept { KeepsCourse self.now self.now place.new result }
    {
        let old = taken(place);
        match Reached::of(self.root.owner, &answer) {
            Some(new) => {
                hold(place, new);
                self.close(place, old, None, AfterClose::Judges)
            }
            None => match refusal_of(&answer) {
                Errno::NotFound => self.close(place, old, None, AfterClose::Gives(Errno::Raced)),
                error => self.close(place, old, None, AfterClose::Gives(error)),
            },
        }
    }

    /// The place of a parent was asked: the walk goes on from it only where it stands at the names passed.
    #[tactic(auto, using(crate::proofs::WalkAnswers::judging_fails))]
    pub(crate) fn judged(&mut self, place: &mut Option<Reached>, answer: Answer) -> Next
        requires place { IsSome place.old }
        requires owner { IsHeldBy self.old.root.owner place.old }
        ensures turn { TakesOn self.old place.old Pending.Judging answer self.new place.new result }
        ensures kept { KeepsCourse self.old self.new place.new result }
    {
        let refusal = check_refusal(&answer);
        let new = taken(place);
        match new.judge(answer, self.plan.names()) {
            Ok(standing) => {
                hold(place, standing.onward());
                self.go_on(place)
            }
            Err(reached) => self.close(place, reached, None, AfterClose::Gives(refusal)),
        }
    }

    /// The root was opened again: it is held, and its place asked.
    pub(crate) fn duped(&self, place: &mut Option<Reached>, answer: Answer) -> Next
        requires place { place.old ≡ None }
        requires names { self.now.plan.names ≡ [] }
        requires own { self.now.plan.inner ≡ [] }
        ensures turn { TakesOn self.now place.old Pending.Duping answer self.now place.new result }
        ensures kept { KeepsCourse self.now self.now place.new result }
    {
        match Reached::of(self.root.owner, &answer) {
            Some(held) => {
                hold(place, held);
                Next::Due(Pending::Ending)
            }
            None => Next::Failed(refusal_of(&answer)),
        }
    }

    /// The place of what is held at the end was asked: it is the end only where it stands at the names passed.
    #[tactic(auto, using(crate::proofs::WalkAnswers::ending_fails))]
    pub(crate) fn ended(&self, held: Reached, answer: Answer) -> End
        requires owner { held.owner ≡ self.now.root.owner }
        requires own { self.now.plan.inner ≡ [] }
        ensures turn { TakesTo (course_way self.now)
            (ending (handle_of held) (reverse self.now.plan.names) (own_to_come self.now.plan)) answer
            (end_turn self.now result) }
        ensures kept { IsEnd self.now result }
    {
        let refusal = check_refusal(&answer);
        match held.judge(answer, self.plan.names()) {
            Ok(standing) => {
                if self.plan.is_own() {
                    End::Partial(standing)
                } else {
                    End::Found(standing)
                }
            }
            Err(reached) => End::Due(Pending::Closing {
                first: given_up(reached),
                second: None,
                after: AfterClose::Gives(refusal),
            }),
        }
    }

    /// One was closed, whatever was answered; the second is to come.
    pub(crate) fn closed(
        &mut self,
        place: &mut Option<Reached>,
        second: Option<HandleNo>,
        after: AfterClose,
    ) -> Next
        requires after { IsAfter self.old.plan.names place.old after }
        requires owner { IsHeldBy self.old.root.owner place.old }
        ensures turn { next_turn self.new place.new result
            ≡ closes (course_way self.old) (option_to_list second) (after_of self.old.plan place.old after) }
        ensures kept { KeepsCourse self.old self.new place.new result }
    {
        match second {
            Some(first) => Next::Due(Pending::Closing {
                first,
                second: None,
                after,
            }),
            None => self.come(place, after),
        }
    }

    // All was closed.
    fn come(&mut self, place: &mut Option<Reached>, after: AfterClose) -> Next
        requires after { IsAfter self.old.plan.names place.old after }
        requires owner { IsHeldBy self.old.root.owner place.old }
        ensures turn { next_turn self.new place.new result
            ≡ comes (course_way self.old) (after_of self.old.plan place.old after) }
        ensures kept { KeepsCourse self.old self.new place.new result }
    {
        match after {
            AfterClose::Gives(error) => Next::Failed(error),
            AfterClose::Onward => self.go_on(place),
            AfterClose::Judges => Next::Due(Pending::Judging),
        }
    }
}
