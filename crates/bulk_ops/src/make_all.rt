//! All that is missing of a path is made.
ghost use Rattle.std.specs.Prelude.{◌≡◌, ◌<◌, ◌≤◌, ◌++◌, ◌∷◌, drop, suc, reverse, length, Bool, None, IfOk, OnOk, true};
ghost use Rattle.step_resolver.specs.Order.{is_dir_kind};
ghost use Rattle.bulk_ops.specs.MakeAllOrder.{raced_if_missing};
ghost use Rattle.bulk_ops.specs.MakeAllView.{fault_in, names_in};

use crate::turn::BulkTurn;
use handles::{Reached, Standing};
use path_text::{Errno, Flags, LentName, Name, Names, NoMemory, PARTS_MAX, Part, Parts, Path};
use std::alloc::Global;
use std::marker::Model;
use step_resolver::{Goal, Root, Turn, Walk, check_refusal, refusal_of};
use tree_model::{Answer, Kind, LentStep, StepOf};

mod copy;
mod like;

/// A call that is under way. You can't drop it: make each step that is `due`, and `take` its answer, until the call
/// ends. To give it up, make each Close that is due, and answer `Refused(NoMemory)` to every other step. Contracts
/// see it as a `MakingView`: whose it is, what stays the same for its walk, and the step that is due.
#[derive(Debug)]
pub struct MkdirAll {
    call: Call,
    stage: Stage,
}

impl Model for MkdirAll {
    ghost use Rattle.bulk_ops.specs.MakeAllView.{MakingView};

    ghost Value = { MakingView };

    ghost use Rattle.bulk_ops.specs.MakeAllView.{view_of, IsStage};

    ghost view = { λ m. view_of m.call m.stage };

    ghost invariant = { λ m. IsStage m.call m.stage };
}

// What stays the same for a call.
#[derive(Clone, Copy, Debug)]
struct Call {
    root: Root,
    flags: Flags,
}

// The names that are expected at the end, from the root down. So many of them are passed: those of the deepest
// directory that was there, and of each that was entered since.
#[derive(Debug, Drop)]
struct Chain {
    names: Names,
    done: usize,
}

// The step that is due, by what is held while it is made. What is held can't be let go.
#[derive(Debug)]
enum Stage {
    // A step of the walk to the deepest directory.
    Walking(Walk),
    // The next name is made in what is held.
    Making(Reached, Box<Chain>),
    // That name is opened.
    Opening(Reached, Box<Chain>),
    // The directory above is closed.
    Leaving {
        old: Reached,
        new: Reached,
        chain: Box<Chain>,
    },
    // The place of the last directory is asked.
    Ending(Reached, Box<Chain>),
    // The first is closed, then the second, and then the call fails.
    Closing {
        first: Reached,
        second: Option<Reached>,
        error: Errno,
    },
}

impl MkdirAll {
    ghost use Rattle.step_resolver.specs.View.{way_from};
    ghost use Rattle.walk_plan.specs.declared.goal.Goal.TheVariants.{Deepest};
    ghost use Rattle.bulk_ops.specs.MakeAllOrder.{due, steps_left};
    ghost use Rattle.bulk_ops.specs.MakeAllTurnsTell.{TellsBegun, TellsTaken};
    ghost use Rattle.bulk_ops.specs.MakeAllView.{StartsTo, TakesTo, Keeps, steps_to_come, MAKE_STEPS_MAX};

    /// Begins to make all that is missing of the path below the root, each a directory (mkdir(2); the walk to what is
    /// there is that of openat2(2), RESOLVE_IN_ROOT, for `Goal::Deepest`).
    ///
    /// It may fail before any step, with the errors of `Walk::start`. What `take` says of an end holds of these, too.
    pub fn start(alloc: Global, root: Root, path: Path, flags: Flags) -> BulkTurn<MkdirAll>
        ensures turn { StartsTo (way_from root Deepest flags) path result }
        ensures kept { Keeps root.owner (way_from root Deepest flags) result }
        ensures few { steps_to_come result ≤ MAKE_STEPS_MAX }
        ensures tells { TellsBegun (way_from root Deepest flags) path result }
    {
        // A path has few parts, which bounds the steps to come.
        let few = path.parts.len() <= PARTS_MAX;
        prove!(few);
        let call = Call { root, flags };
        call.begins(alloc, path)
    }

    /// The step that is due. It takes no memory: a name is lent from where it lies in the call.
    pub fn due(&self) -> LentStep<'_>
        ensures { result ≡ due self.now.way self.now.making }
    {
        match &self.stage {
            Stage::Walking(walk) => walk.due(),
            Stage::Making(held, chain) => StepOf::MakeDir(held.handle(), chain.next_name()),
            Stage::Opening(held, chain) => StepOf::Open(held.handle(), chain.next_name()),
            Stage::Leaving {
                old,
                new: _,
                chain: _,
            } => StepOf::Close(old.handle()),
            Stage::Ending(held, _) => StepOf::NameBelow(self.call.root.handle, held.handle()),
            Stage::Closing {
                first,
                second: _,
                error: _,
            } => StepOf::Close(first.handle()),
        }
    }

    /// Takes the answer to the due step, and gives the call's next turn. A driver that couldn't make the step, for
    /// want of memory or of room in its book, hands in that refusal. The answer to a Close isn't looked at. A
    /// refused growth counts as NoMemory. Before the call fails it closes everything that it opened, the newest
    /// first, which takes no memory. What it made stays.
    ///
    /// It is `Made` with the last directory of the path: the one that was there, or the last that was made, standing
    /// at the names that were expected. A directory that somebody else made meanwhile is entered as one that was
    /// made.
    ///
    /// It fails with what its walk fails with (`Walk::take`); NotDir (ENOTDIR) where the whole path leads to what is
    /// no directory, or what stands at a name that was made is none, a link too; NotFound (ENOENT) where `..` comes
    /// after a missing name, and TooLong (ENAMETOOLONG) for a name of more than 255 bytes there, whichever comes
    /// first: then nothing is made; Raced (EAGAIN) where what was held or made is gone, or the last directory isn't
    /// at the names expected; BadHandle for an answer that doesn't fit the step; and any other refusal of a step.
    ///
    /// If the call ends here, `specs/MakeAllTells.antt` says of every legal history whose steps of this call led to
    /// the end, whatever others changed in between, what it made, where, and why it failed.
    pub fn take(self, alloc: Global, answer: Answer) -> BulkTurn<MkdirAll>
        ensures turn { TakesTo self.way self.making answer result }
        ensures kept { Keeps self.owner self.way result }
        ensures fewer { steps_to_come result < steps_left self.making }
        ensures tells { TellsTaken self.way self.making answer result }
    {
        self.taken(alloc, answer)
    }

    // The same, as the order of steps has it.
    fn taken(self, alloc: Global, answer: Answer) -> BulkTurn<MkdirAll>
        ensures turn { TakesTo self.way self.making answer result }
        ensures kept { Keeps self.owner self.way result }
    {
        let MkdirAll { call, stage } = self;
        match stage {
            Stage::Walking(walk) => call.walked(alloc, walk, answer),
            Stage::Making(held, chain) => call.name_made(held, chain, answer),
            Stage::Opening(held, chain) => call.name_opened(held, chain, answer),
            Stage::Leaving { old, new, chain } => {
                // The driver has made the Close that was due.
                let _ = old.into_close();
                call.goes_down(new, chain)
            }
            Stage::Ending(held, chain) => call.ended(held, chain, answer),
            Stage::Closing {
                first,
                second,
                error,
            } => {
                let _ = first.into_close();
                call.gives_up(second, error)
            }
        }
    }
}

impl Call {
    ghost use Rattle.walk_plan.specs.declared.goal.Goal.TheVariants.{Deepest};
    ghost use Rattle.step_resolver.specs.TurnView.{turn_view, standing_handle, Keeps as KeepsWalk};
    ghost use Rattle.step_resolver.specs.View.{handle_of, numbers_of};
    ghost use Rattle.bulk_ops.specs.MakeAllOrder.{more, walking, after_walk, begins_to_make, rest_fault, goes_down, gives_up};
    ghost use Rattle.step_resolver.specs.Asked.{asked};
    ghost use Rattle.bulk_ops.specs.MakeAllView.{IsStage, IsTurn, Keeps, StartsTo, TakesTo, way_of, view_of, passed, to_come, gone_into, making_of};

    // The call goes on at this stage.
    fn at(&self, stage: Stage) -> BulkTurn<MkdirAll>
        requires { IsStage self.now stage }
        ensures turn { IsTurn result (more (making_of stage)) }
        ensures kept { Keeps self.now.root.owner (way_of self.now) result }
    {
        BulkTurn::More(MkdirAll { call: *self, stage })
    }

    // The first turn.
    fn begins(&self, alloc: Global, path: Path) -> BulkTurn<MkdirAll>
        ensures turn { StartsTo (way_of self.now) path result }
        ensures kept { Keeps self.now.root.owner (way_of self.now) result }
    {
        let turn = Walk::start(alloc, self.root, path, Goal::Deepest, self.flags);
        self.after_walk(alloc, turn)
    }

    // A step of the walk was answered.
    fn walked(&self, alloc: Global, walk: Walk, answer: Answer) -> BulkTurn<MkdirAll>
        requires { IsStage self.now (Stage.Walking walk) }
        ensures turn { TakesTo (way_of self.now) (walking walk.walking) answer result }
        ensures kept { Keeps self.now.root.owner (way_of self.now) result }
    {
        let turn = walk.take(answer);
        self.after_walk(alloc, turn)
    }

    // Both are closed, just opened first, and the call fails.
    fn closes(&self, first: Reached, second: Option<Reached>, error: Errno) -> BulkTurn<MkdirAll>
        ensures turn { IsTurn result (gives_up (first.handle ∷ numbers_of second) error) }
        ensures kept { Keeps self.now.root.owner (way_of self.now) result }
    {
        self.at(Stage::Closing {
            first,
            second,
            error,
        })
    }

    // What is held is closed, and the call fails.
    fn gives_up(&self, held: Option<Reached>, error: Errno) -> BulkTurn<MkdirAll>
        ensures turn { IsTurn result (gives_up (numbers_of held) error) }
        ensures kept { Keeps self.now.root.owner (way_of self.now) result }
    {
        match held {
            None => BulkTurn::Failed(error),
            Some(first) => self.closes(first, None, error),
        }
    }

    // What the walk's turn makes of the call.
    fn after_walk(&self, alloc: Global, turn: Turn) -> BulkTurn<MkdirAll>
        requires { KeepsWalk self.now.root.owner (way_of self.now) turn }
        ensures turn { (room : Bool) × IsTurn result (after_walk room (turn_view Deepest turn)) }
        ensures kept { Keeps self.now.root.owner (way_of self.now) result }
    {
        match turn {
            Turn::More(walk) => self.at(Stage::Walking(walk)),
            Turn::Found(standing) => {
                if is_directory(standing.kind()) {
                    BulkTurn::Made(standing)
                } else {
                    self.closes(standing.onward(), None, Errno::NotDir)
                }
            }
            Turn::Partial(standing, rest) => self.begins_to_make(alloc, standing, &rest),
            Turn::Failed(error) => BulkTurn::Failed(error),
        }
    }

    // The deepest directory is held: the rest of the path is looked through, before anything is made.
    fn begins_to_make(&self, alloc: Global, deepest: Standing, rest: &Parts) -> BulkTurn<MkdirAll>
        requires { deepest.owner ≡ self.now.root.owner }
        ensures turn { (room : Bool) × IsTurn result
            (begins_to_make room (standing_handle deepest) (reverse deepest.names) (asked true rest.now)
            (rest_fault (asked true rest.now))) }
        ensures kept { Keeps self.now.root.owner (way_of self.now) result }
    {
        if let Some(fault) = fault_in(rest) {
            return self.closes(deepest.onward(), None, fault);
        }
        match Chain::from_rest(alloc, deepest.names(), rest) {
            Ok(chain) => self.goes_down(deepest.onward(), chain),
            Err(_) => self.closes(deepest.onward(), None, Errno::NoMemory),
        }
    }

    // The next name is made in what is held; after the last one it is asked where that stands.
    fn goes_down(&self, held: Reached, chain: Box<Chain>) -> BulkTurn<MkdirAll>
        requires owner { held.owner ≡ self.now.root.owner }
        requires within { chain.value.done ≤ length chain.value.names }
        ensures turn { IsTurn result (goes_down (handle_of held) (passed chain.value) (to_come chain.value)) }
        ensures kept { Keeps self.now.root.owner (way_of self.now) result }
    {
        if chain.done < chain.names.len() {
            self.at(Stage::Making(held, chain))
        } else {
            self.at(Stage::Ending(held, chain))
        }
    }

    // The name was made, or was there already.
    fn name_made(&self, held: Reached, chain: Box<Chain>, answer: Answer) -> BulkTurn<MkdirAll>
        requires owner { held.owner ≡ self.now.root.owner }
        requires more { chain.value.done < length chain.value.names }
        ensures turn { TakesTo (way_of self.now) (making_of (Stage.Making held chain)) answer result }
        ensures kept { Keeps self.now.root.owner (way_of self.now) result }
    {
        match answer {
            Answer::Done => self.at(Stage::Opening(held, chain)),
            other => match refusal_of(&other) {
                Errno::Exists => self.at(Stage::Opening(held, chain)),
                error => self.closes(held, None, raced_if_missing(error)),
            },
        }
    }

    // What stands at the name was opened: a directory is gone into, and nothing else.
    fn name_opened(&self, held: Reached, chain: Box<Chain>, answer: Answer) -> BulkTurn<MkdirAll>
        requires { chain.value.done < length chain.value.names }
        ensures turn { TakesTo (way_of self.now) (making_of (Stage.Opening held chain)) answer result }
        ensures kept { Keeps self.now.root.owner (way_of self.now) result }
    {
        match Reached::of(self.root.owner, &answer) {
            None => self.closes(held, None, raced_if_missing(refusal_of(&answer))),
            Some(new) => {
                if is_directory(new.kind()) {
                    self.enters(held, new, chain)
                } else {
                    self.closes(new, Some(held), Errno::NotDir)
                }
            }
        }
    }

    // The directory that was opened is held, and the one above is closed.
    fn enters(&self, old: Reached, new: Reached, mut chain: Box<Chain>) -> BulkTurn<MkdirAll>
        requires owner { new.owner ≡ self.now.root.owner }
        requires more { chain.value.done < length chain.value.names }
        ensures turn { IsTurn result (more (gone_into old new chain.value)) }
        ensures kept { Keeps self.now.root.owner (way_of self.now) result }
    {
        // The number of all names fits, and this one is at most that.
        let fits = chain.done < chain.names.len();
        prove!(fits);
        chain.done += 1;
        self.at(Stage::Leaving { old, new, chain })
    }

    // The place of the last directory was asked.
    fn ended(&self, held: Reached, chain: Box<Chain>, answer: Answer) -> BulkTurn<MkdirAll>
        requires { held.owner ≡ self.now.root.owner }
        ensures turn { TakesTo (way_of self.now) (making_of (Stage.Ending held chain)) answer result }
        ensures kept { Keeps self.now.root.owner (way_of self.now) result }
    {
        let refusal = check_refusal(&answer);
        match held.judge(answer, &chain.names) {
            Ok(standing) => BulkTurn::Made(standing),
            Err(reached) => self.closes(reached, None, refusal),
        }
    }
}

impl Chain {
    // The names at which the deepest directory stands, which are passed, and after them those of the rest.
    fn from_rest(alloc: Global, deepest: &Names, rest: &Parts) -> Result<Box<Chain>, NoMemory>
        requires { fault_in rest.now ≡ None }
        ensures names { IfOk result (λ chain. chain.value.names ≡ deepest.now ++ names_in rest.now) }
        ensures done { IfOk result (λ chain. chain.value.done ≡ length deepest.now) }
    {
        let mut names = deepest.copy(alloc)?;
        let done = names.len();
        add_names(&mut names, rest)?;
        Ok(Box::new(alloc, Chain { names, done })?)
    }
}

impl Chain {
    ghost use Rattle.bulk_ops.specs.MakeAllView.{to_come};

    // The next name, lent.
    #[tactic(auto, using(crate::proofs::MakeAllNames::comes_next))]
    fn next_name(&self) -> LentName<'_>
        requires { self.now.done < length self.now.names }
        ensures { to_come self.now ≡ result ∷ drop (suc self.now.done) self.now.names }
    {
        self.names.lend(self.done)
    }
}

// Adds the names of these parts.
#[tactic(auto, using(crate::proofs::MakeAllNames::named, crate::proofs::MakeAllNames::part_at))]
fn add_names(names: &mut Names, rest: &Parts) -> Result<(), NoMemory>
    requires { fault_in rest.now ≡ None }
    ensures { OnOk result (names.new ≡ names.old ++ names_in rest.now) }
{
    for at in 0..rest.len() {
        if let Part::Named(name) = rest.get(at) {
            names.push_bytes(name.bytes())?;
        }
    }
    Ok(())
}

// Whether entries can be made in what is of that kind.
fn is_directory(kind: Kind) -> bool
    ensures { result ≡ is_dir_kind kind }
{
    kind == Kind::Dir
}

// Why nothing is made for these parts: the first that goes up, or is a name that is too long.
#[tactic(auto, using(crate::proofs::MakeAllNames::part_at))]
fn fault_in(rest: &Parts) -> Option<Errno>
    ensures { result ≡ fault_in rest.now }
{
    for at in 0..rest.len() {
        match rest.get(at) {
            Part::Cur => {}
            Part::Up => return Some(Errno::NotFound),
            Part::Named(name) => {
                if name.is_too_long() {
                    return Some(Errno::TooLong);
                }
            }
        }
    }
    None
}

// What is missing now was there a step before: somebody took it away.
fn raced_if_missing(error: Errno) -> Errno
    ensures { result ≡ raced_if_missing error }
{
    match error {
        Errno::NotFound => Errno::Raced,
        other => other,
    }
}
