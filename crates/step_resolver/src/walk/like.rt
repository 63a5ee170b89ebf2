//! Whether walks are the same but for the numbers of their handles, and which handles a walk holds.
ghost use Rattle.std.specs.Prelude.{◌≡◌, ◌∷◌, ◌++◌, IsTrue, ◌↔◌, IfOk};
ghost use Rattle.std.specs.Option.{option_to_list};
ghost use Rattle.walk_plan.specs.Plan.{stayed};
ghost use Rattle.walk_plan.specs.Same.{SameOwn, SameToCome};
ghost use Rattle.step_resolver.specs.Like.{LikeHeld, LikePlaces, LikeOnward, LikeAfters};
ghost use Rattle.step_resolver.specs.Renamed.{handle_by, numbers_by, LikeWays, LikeWalks, walking_handles};
ghost use Rattle.step_resolver.specs.View.{handle_of, numbers_of, walking_of, IsAfter, IsPending};

use super::{State, Walk};
use crate::pending::{AfterClose, Pending};
use handles::Reached;
use path_text::NoMemory;
use tree_model::HandleNo;

/// Whether both are on the same node, of the same kind: only the numbers of the handles may differ.
pub fn like_held(held: &Reached, other: &Reached) -> bool
    ensures { IsTrue result ↔ (handle_by (λ h. 0) (handle_of held.now) ≡ handle_by (λ h. 0) (handle_of other.now)) }
{
    held.node() == other.node() && held.kind() == other.kind()
}

// Whether there is one in both or in neither.
fn same_count(handle: Option<HandleNo>, other: Option<HandleNo>) -> bool
    ensures { IsTrue result
        ↔ (numbers_by (λ h. 0) (option_to_list handle) ≡ numbers_by (λ h. 0) (option_to_list other)) }
{
    handle.is_some() == other.is_some()
}

// Appends what is held. NoMemory where room was refused.
fn push_held(place: &Option<Reached>, into: &mut Vec<HandleNo>) -> Result<(), NoMemory>
    ensures { IfOk result (λ u. into.new.items ≡ into.old.items ++ numbers_of place.now) }
{
    if let Some(held) = place {
        into.push(held.handle())?;
    }
    Ok(())
}

// Appends what is to be closed. NoMemory where room was refused.
fn push_closed(
    first: HandleNo,
    second: Option<HandleNo>,
    into: &mut Vec<HandleNo>,
) -> Result<(), NoMemory>
    ensures { IfOk result (λ u. into.new.items ≡ into.old.items ++ first ∷ option_to_list second) }
{
    into.push(first)?;
    if let Some(handle) = second {
        into.push(handle)?;
    }
    Ok(())
}

impl Walk {
    /// Whether the same step is due in both, and the same is to come after it, but for the numbers of handles.
    pub fn is_like(&self, other: &Walk) -> bool
        ensures { IsTrue result ↔ LikeWalks self.now.walking other.now.walking }
    {
        let state = &*self.state;
        state.is_like(&*other.state)
    }

    /// Whether both go the same way: they have the same goal and the same restrictions, and the root's handle may
    /// have another number.
    pub fn goes_like(&self, other: &Walk) -> bool
        ensures { IsTrue result ↔ LikeWays self.now.way other.now.way }
    {
        let plan = &self.state.course.plan;
        let others = &other.state.course.plan;
        plan.goal() == others.goal() && plan.flags() == others.flags()
    }

    /// The number of the root's handle.
    pub fn root(&self) -> HandleNo
        ensures { result ≡ self.now.way.root }
    {
        self.state.course.root.handle
    }

    /// Appends the numbers of the handles that it holds, in the order of its parts, without the root's. NoMemory
    /// where room was refused; some of them may then be appended.
    pub fn push_handles(&self, into: &mut Vec<HandleNo>) -> Result<(), NoMemory>
        ensures { IfOk result (λ u. into.new.items ≡ into.old.items ++ walking_handles self.now.walking) }
    {
        let state = &*self.state;
        state.push_handles(into)
    }
}

impl State {
    // The same of a walk's state.
    fn is_like(&self, other: &State) -> bool
        requires pending { IsPending self.now.course.plan self.now.place self.now.pending }
        requires others { IsPending other.now.course.plan other.now.place other.now.pending }
        ensures { IsTrue result ↔ LikeWalks (walking_of self.now.course.plan self.now.place self.now.pending)
            (walking_of other.now.course.plan other.now.place other.now.pending) }
    {
        match (&self.pending, &other.pending) {
            (Pending::Opening, Pending::Opening) => self.goes_on_like(other),
            (Pending::Reading(link), Pending::Reading(l)) => self.reads_like(link, other, l),
            (Pending::Rising, Pending::Rising) => self.goes_on_like(other),
            (Pending::Judging, Pending::Judging) => self.goes_on_like(other),
            (Pending::Duping, Pending::Duping) => self.course.plan.same_own(&other.course.plan),
            (Pending::Ending, Pending::Ending) => self.ends_like(other),
            (
                Pending::Closing {
                    first: _,
                    second,
                    after,
                },
                Pending::Closing {
                    first: _,
                    second: s,
                    after: a,
                },
            ) => same_count(*second, *s) && self.comes_like(*after, other, *a),
            _ => false,
        }
    }

    // Whether what is held is the same, at the same names.
    #[tactic(auto, using(crate::proofs::Underway::AfterParent::reversed_same))]
    fn stands_like(&self, other: &State) -> bool
        ensures { IsTrue result ↔ LikePlaces self.now.course.plan self.now.place
            other.now.course.plan other.now.place }
    {
        match (&self.place, &other.place) {
            (None, None) => true,
            (Some(held), Some(h)) => {
                like_held(held, h) && self.course.plan.names().same(other.course.plan.names())
            }
            _ => false,
        }
    }

    // Whether the same is to come from the same place.
    fn goes_on_like(&self, other: &State) -> bool
        ensures { IsTrue result ↔ LikeOnward self.now.course.plan self.now.place
            other.now.course.plan other.now.place }
    {
        self.stands_like(other) && self.course.plan.same_to_come(&other.course.plan)
    }

    // Whether the same link is read in the same place, and the same is to come after it.
    fn reads_like(&self, link: &Reached, other: &State, others_link: &Reached) -> bool
        ensures { IsTrue result
            ↔ (LikePlaces self.now.course.plan self.now.place other.now.course.plan other.now.place
            × LikeHeld link.now others_link.now
            × SameToCome (stayed self.now.course.plan) (stayed other.now.course.plan)) }
    {
        self.stands_like(other)
            && like_held(link, others_link)
            && self.course.plan.same_after_next(&other.course.plan)
    }

    // Whether the same is held at the end, with the same parts left.
    fn ends_like(&self, other: &State) -> bool
        ensures { IsTrue result
            ↔ (LikePlaces self.now.course.plan self.now.place other.now.course.plan other.now.place
            × SameOwn self.now.course.plan other.now.course.plan) }
    {
        self.stands_like(other) && self.course.plan.same_own(&other.course.plan)
    }

    // Whether the same comes once all is closed.
    fn comes_like(&self, after: AfterClose, other: &State, others_after: AfterClose) -> bool
        requires after { IsAfter self.now.course.plan.names self.now.place after }
        requires others { IsAfter other.now.course.plan.names other.now.place others_after }
        ensures { IsTrue result ↔ LikeAfters self.now.course.plan self.now.place after other.now.course.plan
            other.now.place others_after }
    {
        match (after, others_after) {
            (AfterClose::Gives(error), AfterClose::Gives(e)) => error == e,
            (AfterClose::Onward, AfterClose::Onward) => self.goes_on_like(other),
            (AfterClose::Judges, AfterClose::Judges) => self.goes_on_like(other),
            _ => false,
        }
    }

    // Appends what is held. Where the walk fails, or the root is to be opened again, that is nothing.
    fn push_handles(&self, into: &mut Vec<HandleNo>) -> Result<(), NoMemory>
        requires { IsPending self.now.course.plan self.now.place self.now.pending }
        ensures { IfOk result (λ u. into.new.items
            ≡ into.old.items ++ walking_handles (walking_of self.now.course.plan self.now.place self.now.pending)) }
    {
        match &self.pending {
            Pending::Opening
            | Pending::Rising
            | Pending::Judging
            | Pending::Duping
            | Pending::Ending => push_held(&self.place, into),
            Pending::Reading(link) => {
                push_held(&self.place, into)?;
                into.push(link.handle())?;
                Ok(())
            }
            Pending::Closing {
                first,
                second,
                after: _,
            } => {
                push_closed(*first, *second, into)?;
                push_held(&self.place, into)
            }
        }
    }
}
