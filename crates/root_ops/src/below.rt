//! Where a call walks, and what each answer makes of a call.
ghost use Rattle.std.specs.Prelude.{◌≡◌, ◌≤◌, [], Bool, reverse};
ghost use Rattle.step_resolver.specs.View.{way_from};
ghost use Rattle.step_resolver.specs.TurnView.{standing_handle};
ghost use Rattle.step_resolver.specs.TurnView as walk;
ghost use Rattle.root_ops.specs.Order.{comes, closes, gives_up, ends, fault, renames, walked_on, reached, walked, walks, held_by, take, checking, goal_of, way_of, make_way, makes, removing_turn};
ghost use Rattle.bulk_ops.specs.MakeAllOrder as make;
ghost use Rattle.bulk_ops.specs.RemoveAllOrder as remove;
ghost use Rattle.bulk_ops.specs.MakeAllOrder.{MakeTurn};
ghost use Rattle.bulk_ops.specs.MakeAllView as making;
ghost use Rattle.bulk_ops.specs.RemoveAllOrder.{Turn as ClearTurn};
ghost use Rattle.bulk_ops.specs.RemoveAllTurnView as removing;
ghost use Rattle.root_ops.specs.View.{doing_view, after_view, list_of, next_view, IsNext, IsOurs, IsAfter};
ghost use Rattle.root_ops.specs.TurnView.{Either, TakesTo};

use crate::aim::{Aim, Renaming, Wanted};
use crate::answers::reply_to;
use crate::doing::{After, Doing, Handles, Next};
use crate::reply::Reply;
use bulk_ops::{BulkTurn, MkdirAll, RemoveAll};
use handles::{Owner, Standing};
use path_text::{Errno, Flags, Name, Path};
use std::alloc::Global;
use step_resolver::{Root, Turn, Walk, refusal_of};
use tree_model::{Answer, HandleNo, Kind, StepOf};
use walk_plan::Goal;

/// The root below which a call walks, and the restrictions of its walks. They stay the same for a whole call.
#[derive(Clone, Copy, Debug, PartialEq, Eq)]
pub struct Below {
    pub root: Root,
    pub flags: Flags,
}

impl Below {
    /// The root's handle.
    pub(crate) fn handle(&self) -> HandleNo
        ensures { result ≡ self.now.root.handle }
    {
        self.root.handle
    }

    /// Whose handle it is.
    pub(crate) fn owner(&self) -> Owner
        ensures { result ≡ self.now.root.owner }
    {
        self.root.owner
    }

    /// The first turn of a walk.
    pub(crate) fn start(&self, alloc: Global, path: Path, goal: Goal) -> Turn
        ensures turn { walk.StartsTo (way_from self.now.root goal self.now.flags) path (walk.turn_view goal result) }
        ensures kept { walk.Keeps self.now.root.owner (way_from self.now.root goal self.now.flags) result }
        ensures few { walk.steps_to_come result ≤ walk.STEPS_MAX }
    {
        Walk::start(alloc, self.root, path, goal, self.flags)
    }

    // What comes once nothing is to be closed any more.
    fn come(&self, after: After) -> Next
        requires { IsAfter self.now after }
        ensures turn { next_view result ≡ comes (after_view after) }
        ensures kept { IsNext self.now result }
    {
        match after {
            After::Gives(reply) => Next::Over(reply),
            After::Acts { wanted, step, held } => Next::Due(Doing::Acting { wanted, step, held }),
        }
    }

    // The handles are closed in their order, before what is to come.
    fn close(&self, held: Handles, after: After) -> Next
        requires { IsAfter self.now after }
        ensures turn { next_view result ≡ closes (list_of held) (after_view after) }
        ensures kept { IsNext self.now result }
    {
        let (first, others) = match held {
            Handles::Empty => return self.come(after),
            Handles::One(first) => (first, Handles::Empty),
            Handles::Two(first, second) => (first, Handles::One(second)),
            Handles::Three(first, second, third) => (first, Handles::Two(second, third)),
        };
        Next::Due(Doing::Closing {
            first,
            others,
            after,
        })
    }

    // The handles are closed, and the call fails.
    fn fail(&self, held: Handles, error: Errno) -> Next
        ensures turn { next_view result ≡ gives_up (list_of held) error }
        ensures kept { IsNext self.now result }
    {
        self.close(held, After::Gives(Reply::Fault(error)))
    }

    // Both directories of a rename are held. After a slash what is renamed is to be a directory.
    fn rename(&self, old: HandleNo, new: HandleNo, renaming: Renaming) -> Next
        ensures turn { next_view result ≡ renames old new renaming }
        ensures kept { IsNext self.now result }
    {
        Next::Due(if renaming.slash {
            Doing::Checking { old, new, renaming }
        } else {
            Doing::Acting {
                wanted: Wanted::Done,
                step: renaming.step(old, new),
                held: Handles::Two(new, old),
            }
        })
    }

    // Where the walk to the new directory of a rename has come to.
    fn walked_on(&self, old: HandleNo, renaming: Renaming, turn: Turn) -> Next
        requires { walk.Keeps self.now.root.owner (way_from self.now.root Goal.Follow self.now.flags) turn }
        ensures turn { next_view result ≡ walked_on old renaming (walk.turn_view Goal.Follow turn) }
        ensures kept { IsNext self.now result }
    {
        match turn {
            Turn::More(walk) => Next::Walks(walk, Aim::Renames(old, renaming)),
            Turn::Found(standing) => self.rename(old, standing.handle(), renaming),
            // None is after the deepest directory.
            Turn::Partial(standing, _rest) => {
                self.fail(Handles::Two(standing.handle(), old), Errno::NotFound)
            }
            Turn::Failed(error) => self.fail(Handles::One(old), error),
        }
    }

    // The object of a walk was found.
    fn reached(&self, alloc: Global, aim: Aim, standing: Standing) -> Next
        requires { standing.owner ≡ self.now.root.owner }
        ensures turn { (room : Bool)
            × (next_view result ≡ reached self.now room (standing_handle standing) (reverse standing.names) aim) }
        ensures kept { IsNext self.now result }
    {
        let handle = standing.handle();
        let held = Handles::One(handle);
        match aim {
            Aim::Opens(_) => Next::Over(Reply::Opened(standing)),
            Aim::Reads => Next::Due(Doing::Acting {
                wanted: Wanted::Text,
                step: StepOf::ReadLink(handle),
                held,
            }),
            Aim::Changes(change, name) => Next::Due(Doing::Acting {
                wanted: Wanted::Done,
                step: change.step(handle, name),
                held,
            }),
            Aim::WalksOn(path, renaming) => {
                let turn = self.start(alloc, path, Goal::Follow);
                self.walked_on(handle, renaming, turn)
            }
            Aim::Renames(old, renaming) => self.rename(old, handle, renaming),
        }
    }

    /// Where a walk has come to.
    pub(crate) fn walked(&self, alloc: Global, aim: Aim, turn: Turn) -> Next
        requires { walk.Keeps self.now.root.owner (way_of self.now aim) turn }
        ensures turn { (room : Bool)
            × (next_view result ≡ walked self.now room aim (walk.turn_view (goal_of aim) turn)) }
        ensures kept { IsNext self.now result }
    {
        match turn {
            Turn::More(walk) => Next::Walks(walk, aim),
            Turn::Found(standing) => self.reached(alloc, aim, standing),
            // None is after the deepest directory.
            Turn::Partial(standing, _rest) => {
                let handle = standing.handle();
                let held = match aim {
                    Aim::Renames(old, _) => Handles::Two(handle, old),
                    _ => Handles::One(handle),
                };
                self.fail(held, Errno::NotFound)
            }
            Turn::Failed(error) => match aim {
                Aim::Renames(old, _) => self.fail(Handles::One(old), error),
                _ => self.fail(Handles::Empty, error),
            },
        }
    }

    /// Where a call that makes all that is missing has come to.
    pub(crate) fn made(&self, turn: BulkTurn<MkdirAll>) -> Next
        requires { making.Keeps self.now.root.owner (make_way self.now) turn }
        ensures turn { (to : MakeTurn) → making.IsTurn turn to → next_view result ≡ makes to }
        ensures kept { IsNext self.now result }
    {
        match turn {
            BulkTurn::More(call) => Next::Due(Doing::Making(call)),
            BulkTurn::Made(standing) => Next::Over(Reply::Opened(standing)),
            BulkTurn::Removed(count) => Next::Over(Reply::Count(count)),
            BulkTurn::Failed(error) => Next::Over(Reply::Fault(error)),
        }
    }

    /// Where a call that removes an entry with all below it has come to.
    pub(crate) fn cleared(&self, turn: BulkTurn<RemoveAll>) -> Next
        ensures turn { (to : ClearTurn) → removing.IsTurn turn to → next_view result ≡ removing_turn to }
        ensures kept { (to : ClearTurn) → removing.IsTurn turn to → IsNext self.now result }
    {
        match turn {
            BulkTurn::More(call) => Next::Due(Doing::Removing(call)),
            BulkTurn::Made(standing) => Next::Over(Reply::Opened(standing)),
            BulkTurn::Removed(count) => Next::Over(Reply::Count(count)),
            BulkTurn::Failed(error) => Next::Over(Reply::Fault(error)),
        }
    }

    /// The first step of a walk with that aim, or the end.
    #[inline(always)]
    pub(crate) fn walks(&self, alloc: Global, aim: Aim, path: Path) -> Next
        requires { held_by aim ≡ [] }
        ensures turn { Either (walks self.now aim path) (ends (fault Errno.NoMemory)) (next_view result) }
        ensures kept { IsNext self.now result }
    {
        match self.start(alloc, path, aim.goal()) {
            Turn::More(walk) => Next::Walks(walk, aim),
            ended => self.walked(alloc, aim, ended),
        }
    }

    /// The first step by which all that is missing of the path is made, or the end.
    pub(crate) fn makes(&self, alloc: Global, path: Path) -> Next
        ensures turn { Either (makes (make.begins (make_way self.now) path))
            (ends (fault Errno.NoMemory)) (next_view result) }
        ensures kept { IsNext self.now result }
    {
        let turn = MkdirAll::start(alloc, self.root, path, self.flags);
        self.made(turn)
    }

    /// The first step by which the entry of the name is removed with all below it, or the end.
    pub(crate) fn clears(&self, alloc: Global, directory: Path, name: Name) -> Next
        ensures turn { Either
            (removing_turn (remove.begins (way_from self.now.root Goal.Follow self.now.flags) name directory))
            (ends (fault Errno.NoMemory)) (next_view result) }
        ensures kept { IsNext self.now result }
    {
        let turn = RemoveAll::start(alloc, self.root, directory, name, self.flags);
        self.cleared(turn)
    }

    // What is to be renamed was opened to see that it is a directory, and is closed again.
    fn checked(&self, old: HandleNo, new: HandleNo, renaming: Renaming, answer: Answer) -> Next
        ensures turn { TakesTo self.now (checking old new renaming) answer (next_view result) }
        ensures kept { IsNext self.now result }
    {
        match answer {
            Answer::Opened {
                handle,
                node: _,
                kind,
            } => {
                if kind == Kind::Dir {
                    let after = After::Acts {
                        wanted: Wanted::Done,
                        step: renaming.step(old, new),
                        held: Handles::Two(new, old),
                    };
                    self.close(Handles::One(handle), after)
                } else {
                    self.fail(Handles::Three(handle, new, old), Errno::NotDir)
                }
            }
            other => self.fail(Handles::Two(new, old), refusal_of(&other)),
        }
    }

    /// What the answer to the step that is due comes to, where no walk is under way.
    pub(crate) fn taken(&self, alloc: Global, doing: Doing, answer: Answer) -> Next
        requires { IsOurs self.now doing }
        ensures turn { TakesTo self.now (doing_view doing) answer (next_view result) }
        ensures kept { IsNext self.now result }
    {
        match doing {
            // A walk takes its answer itself.
            Doing::Aimed(_) => unreachable!(),
            Doing::Acting {
                wanted,
                step: _,
                held,
            } => self.close(held, After::Gives(reply_to(wanted, answer))),
            Doing::Checking { old, new, renaming } => self.checked(old, new, renaming, answer),
            Doing::Closing {
                first: _,
                others,
                after,
            } => self.close(others, after),
            Doing::Making(call) => self.made(call.take(alloc, answer)),
            Doing::Removing(call) => self.cleared(call.take(alloc, answer)),
        }
    }
}
