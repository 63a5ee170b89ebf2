//! Bulk calls, made by single steps on a tree on which others act in between, and their ends as lines.
//!
//! A value of many parts is let go by `drop`, and not at the end of a body, where its parts would be proved one by one.
ghost use Rattle.std.specs.Prelude.{◌<◌, ℕ};
ghost use Rattle.bulk_ops.specs.declared.turn.BulkTurn.{BulkTurn};
ghost use Rattle.bulk_ops.specs.declared.turn.BulkTurn.TheVariants.{More};

use bulk_ops::{BulkTurn, MkdirAll, RemoveAll};
use event_log::Output;
use fixtures::{answered, base_tree, names_of, root};
use handles::Standing;
use path_text::{Errno, Flags, NoMemory, Path, Rule};
use std::alloc::Global;
use tree_list::ListTree;
use tree_model::{Actor, Answer, HandleNo, LentStep, StepOf, Tree};

/// A bulk call that is under way.
pub trait Bulk {
    /// How many steps are to come at most.
    ghost to_come: { BulkTurn Self → ℕ };

    /// The first turn of a call on a path below the root. Errors: those of the path.
    fn begin(alloc: Global, path: &str, flags: Flags) -> Result<BulkTurn<Self>, Errno>;

    /// The step that is due. Takes no memory.
    fn due(&self) -> LentStep<'_>;

    /// What the answer to that step makes of the call.
    fn take(self, alloc: Global, answer: Answer) -> BulkTurn<Self>
        ensures { to_come result < to_come (More self) };

    /// Appends the call's handles.
    fn push_handles(&self, into: &mut Vec<HandleNo>) -> Result<(), NoMemory>;

    /// Whether the calls are the same but for the numbers of their handles.
    fn is_like(&self, other: &Self) -> bool;
}

impl Bulk for MkdirAll {
    ghost use Rattle.bulk_ops.specs.MakeAllView.{steps_to_come};

    ghost to_come = { steps_to_come };

    fn begin(alloc: Global, path: &str, flags: Flags) -> Result<BulkTurn<MkdirAll>, Errno> {
        let path = Path::parse(alloc, path.as_bytes())?;
        Ok(MkdirAll::start(alloc, root(7), path, flags))
    }

    fn due(&self) -> LentStep<'_> {
        MkdirAll::due(self)
    }

    fn take(self, alloc: Global, answer: Answer) -> BulkTurn<MkdirAll> {
        MkdirAll::take(self, alloc, answer)
    }

    fn push_handles(&self, into: &mut Vec<HandleNo>) -> Result<(), NoMemory> {
        MkdirAll::push_handles(self, into)
    }

    fn is_like(&self, other: &MkdirAll) -> bool {
        MkdirAll::is_like(self, other)
    }
}

impl Bulk for RemoveAll {
    ghost use Rattle.bulk_ops.specs.RemoveAllTurnView.{steps_to_come};

    ghost to_come = { steps_to_come };

    fn begin(alloc: Global, path: &str, flags: Flags) -> Result<BulkTurn<RemoveAll>, Errno> {
        let split = Path::parse(alloc, path.as_bytes())?.split_last(alloc, Rule::Drop)?;
        Ok(RemoveAll::start(alloc, root(0), split.dir, split.name, flags))
    }

    fn due(&self) -> LentStep<'_> {
        RemoveAll::due(self)
    }

    fn take(self, alloc: Global, answer: Answer) -> BulkTurn<RemoveAll> {
        RemoveAll::take(self, alloc, answer)
    }

    fn push_handles(&self, into: &mut Vec<HandleNo>) -> Result<(), NoMemory> {
        RemoveAll::push_handles(self, into)
    }

    fn is_like(&self, other: &RemoveAll) -> bool {
        RemoveAll::is_like(self, other)
    }
}

/// What answers a call's steps.
pub trait Answers {
    fn answer(&mut self, alloc: Global, step: &LentStep<'_>) -> Result<Answer, NoMemory>;
}

/// A tree, on which actor 0 makes the steps of a call and another acts in between.
#[derive(Drop)]
pub struct Scene {
    pub tree: ListTree,
    /// How many steps were due by now.
    pub steps: u64,
    /// After so many of them the other makes these steps.
    pub after: u64,
    pub others: &'static str,
    /// So many steps find memory; after them only a Close does.
    pub memory: u64,
}

impl Answers for Scene {
    fn answer(&mut self, alloc: Global, step: &LentStep<'_>) -> Result<Answer, NoMemory> {
        let at = self.steps;
        self.steps = at.saturating_add(1);
        if at == self.after {
            others_act(alloc, &mut self.tree, self.others);
        }
        if at < self.memory || matches!(step, StepOf::Close(_)) {
            self.tree.step(alloc, Actor::new(0), step)
        } else {
            Err(NoMemory)
        }
    }
}

/// Makes the other's steps.
pub fn others_act(alloc: Global, tree: &mut ListTree, others: &str) {
    for line in others.split(", ") {
        let _told = answered(alloc, tree, 1, line);
    }
}

/// Opens that directory for an actor.
pub fn grant(alloc: Global, tree: &mut ListTree, actor: u32, path: &str) -> Result<(), Errno> {
    let names = names_of(alloc, path)?;
    tree.grant(alloc, Actor::new(actor), &names)?;
    Ok(())
}

// Opens `/c` for actor 0, and then each of these directories for the other: its handles, from number 1 on.
fn open(alloc: Global, tree: &mut ListTree, at: &str) -> Result<(), Errno> {
    grant(alloc, tree, 0, "/c")?;
    for path in at.split(' ') {
        grant(alloc, tree, 1, path)?;
    }
    Ok(())
}

/// The base tree, on which the other has handles on these directories, with memory and nothing to do.
pub fn base_scene(alloc: Global, at: &str) -> Result<Scene, Errno> {
    let mut tree = base_tree(alloc)?;
    open(alloc, &mut tree, at)?;
    Ok(Scene {
        tree,
        steps: 0,
        after: 0,
        others: "",
        memory: u64::MAX,
    })
}

/// How a call ended.
#[derive(Drop)]
pub enum End {
    Made(Standing),
    Removed(u64),
    Failed(Errno),
}

// The answer to the step that is due.
fn answer_due<C: Bulk, A: Answers>(
    alloc: Global,
    answers: &mut A,
    call: &C,
) -> Result<Answer, NoMemory> {
    let step = call.due();
    let answer = answers.answer(alloc, &step);
    drop(step);
    answer
}

// What a call has come to after its due step.
fn step<C: Bulk, A: Answers>(alloc: Global, answers: &mut A, call: C) -> BulkTurn<C>
    ensures { C.to_come result < C.to_come (More call) }
{
    let answer = answer_due(alloc, answers, &call).unwrap_or(Answer::Refused(Errno::NoMemory));
    call.take(alloc, answer)
}

/// The end of a call.
pub fn run<C: Bulk, A: Answers>(alloc: Global, answers: &mut A, mut turn: BulkTurn<C>) -> End {
    loop {
        match turn {
            BulkTurn::More(call) => turn = step(alloc, answers, call),
            BulkTurn::Made(standing) => return End::Made(standing),
            BulkTurn::Removed(count) => return End::Removed(count),
            BulkTurn::Failed(error) => return End::Failed(error),
        }
    }
}

/// What a call has come to after so many steps.
pub fn advance<C: Bulk, A: Answers>(
    alloc: Global,
    answers: &mut A,
    mut turn: BulkTurn<C>,
    steps: u64,
) -> BulkTurn<C> {
    for _ in 0..steps {
        turn = match turn {
            BulkTurn::More(call) => step(alloc, answers, call),
            ended => ended,
        };
    }
    turn
}

/// The end of the call on that path. Errors: those of the path.
pub fn called<C: Bulk, A: Answers>(
    alloc: Global,
    answers: &mut A,
    path: &str,
    flags: Flags,
) -> Result<End, Errno> {
    match C::begin(alloc, path, flags) {
        Ok(turn) => Ok(run(alloc, answers, turn)),
        Err(error) => Err(error),
    }
}

fn tell(alloc: Global, told: &mut Output, end: &End) -> Result<(), NoMemory> {
    match end {
        End::Made(standing) => {
            told.opened_words(alloc, standing.kind(), standing.node(), standing.names())
        }
        End::Removed(count) => {
            told.text("count ")?;
            told.number(*count)
        }
        End::Failed(error) => told.fault_words(*error),
    }
}

/// Whether a call's end is told so. One that wasn't begun has none.
pub fn is_end(alloc: Global, end: &Result<End, Errno>, wanted: &str) -> bool {
    let Ok(end) = end else {
        return false;
    };
    let mut told = Output::new(alloc);
    let is_told = tell(alloc, &mut told, end).is_ok();
    is_told && told.as_slice() == wanted.as_bytes()
}
