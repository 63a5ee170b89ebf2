//! With what an operation begins: its path texts, read and split, and what is done first.
ghost use Rattle.std.specs.Prelude.{◌≡◌, ◌||◌, [], Ok};
ghost use Rattle.path_text.specs.Split.{split_of};
ghost use Rattle.path_text.specs.Text.{text_fault, reading_of};
ghost use Rattle.root_ops.specs.declared.op.Op.TheVariants.{Single};
ghost use Rattle.root_ops.specs.Order.{CallTurn, held_by, on_path, on_entry, from_entry, unless_fault, lacks, single, begins_without, is_single, ends, fault, make_missing, clear_entry};
ghost use Rattle.root_ops.specs.FirstView.{FirstTo, IsFirst};
ghost use Rattle.root_ops.specs.TurnView.{Either, StartsTo};

use crate::aim::{Aim, Change, Renaming};
use crate::below::Below;
use crate::op::Op;
use handles::Standing;
use path_text::{Bytes, Errno, Name, Path, Rule, Split};
use std::alloc::Global;
use tree_model::{Mode, Step, StepOf};
use walk_plan::Goal;

/// What an operation does first.
#[derive(Debug, Drop)]
pub(crate) enum First {
    /// A walk, and what is done with the object that it finds.
    Walks(Aim, Path),
    /// All that is missing of the path is made.
    Makes(Path),
    /// In the directory of the path the entry of the name is removed with all below it.
    Clears(Path, Name),
    /// The one step of a Single.
    Acts(Step),
    /// What was opened is closed, where it is the root's owner's.
    Releases(Standing),
}

// Whether the step is one for a call: it opens and closes no handle.
fn is_single(step: &Step) -> bool
    ensures { result ≡ is_single step.now }
{
    !matches!(
        step,
        StepOf::Open(_, _) | StepOf::Dup(_) | StepOf::Parent(_) | StepOf::Close(_)
    )
}

// Whether one of the two paths ended in a slash.
fn one_has_slash(old: &Split, new: &Split) -> bool
    ensures { result ≡ (old.now.slash || new.now.slash) }
{
    old.slash || new.slash
}

// What is done with the object that a path means.
#[inline(always)]
fn on_path(alloc: Global, aim: Aim, text: &Bytes) -> Result<First, Errno>
    requires { held_by aim ≡ [] }
    ensures turn { (below : Below) (turn : CallTurn) → FirstTo below result turn
        → Either (on_path below aim text.now) (lacks text.now) turn }
    ensures unheld { IsFirst result }
{
    let path = Path::parse(alloc, text.as_slice())?;
    Ok(First::Walks(aim, path))
}

// A change of the entry of a path's last name.
#[inline(always)]
fn on_entry(alloc: Global, rule: Rule, change: Change, text: &Bytes) -> Result<First, Errno>
    ensures turn { (below : Below) (turn : CallTurn) → FirstTo below result turn
        → Either (on_entry below rule change text.now) (lacks text.now) turn }
    ensures unheld { IsFirst result }
{
    let path = Path::parse(alloc, text.as_slice())?;
    match path.split_last(alloc, rule) {
        Ok(split) => Ok(First::Walks(Aim::Changes(change, split.name), split.dir)),
        Err(error) => Err(error),
    }
}

// All that is missing of the path is made.
fn on_missing(alloc: Global, text: &Bytes) -> Result<First, Errno>
    ensures turn { (below : Below) (turn : CallTurn) → FirstTo below result turn
        → Either (make_missing below text.now) (lacks text.now) turn }
    ensures unheld { IsFirst result }
{
    let path = Path::parse(alloc, text.as_slice())?;
    Ok(First::Makes(path))
}

// The entry of a path's last name is removed with all below it. A slash at the end is taken away.
fn on_all_below(alloc: Global, text: &Bytes) -> Result<First, Errno>
    ensures turn { (below : Below) (turn : CallTurn) → FirstTo below result turn
        → Either (clear_entry below text.now) (lacks text.now) turn }
    ensures unheld { IsFirst result }
{
    let path = Path::parse(alloc, text.as_slice())?;
    match path.split_last(alloc, Rule::Drop) {
        Ok(split) => Ok(First::Clears(split.dir, split.name)),
        Err(error) => Err(error),
    }
}

// A rename of the entry of the old path's last name to the new path.
fn between(alloc: Global, old: &Bytes, new: &Bytes, mode: Mode) -> Result<First, Errno>
    ensures turn { (below : Below) (turn : CallTurn) → FirstTo below result turn
        → Either (unless_fault (text_fault old.now)
        (from_entry below mode new.now (split_of (reading_of old.now) Rule.Drop))) (lacks old.now) turn }
    ensures unheld { IsFirst result }
{
    let path = Path::parse(alloc, old.as_slice())?;
    match path.split_last(alloc, Rule::Drop) {
        Ok(old) => renamed(alloc, old, new, mode),
        Err(error) => Err(error),
    }
}

// The same, the old path being split.
fn renamed(alloc: Global, old: Split, new: &Bytes, mode: Mode) -> Result<First, Errno>
    ensures turn { (below : Below) (turn : CallTurn) → FirstTo below result turn
        → Either (from_entry below mode new.now (Ok old)) (ends (fault Errno.NoMemory)) turn }
    ensures unheld { IsFirst result }
{
    let path = Path::parse(alloc, new.as_slice())?;
    match path.split_last(alloc, Rule::Drop) {
        Ok(new) => {
            let slash = one_has_slash(&old, &new);
            let renaming = Renaming {
                old: old.name,
                new: new.name,
                mode,
                slash,
            };
            Ok(First::Walks(Aim::WalksOn(new.dir, renaming), old.dir))
        }
        Err(error) => Err(error),
    }
}

// One single step, but none that opens or closes a handle.
fn one_step(step: Step) -> Result<First, Errno>
    ensures turn { (below : Below) (turn : CallTurn) → FirstTo below result turn
        → Either (single step) (begins_without below (Single step)) turn }
    ensures unheld { IsFirst result }
{
    if is_single(&step) {
        Ok(First::Acts(step))
    } else {
        Err(Errno::Invalid)
    }
}

/// With what an operation begins, its path texts being read and split, or why it ends at once. Part of its caller,
/// since what it gives is large.
#[inline(always)]
pub(crate) fn first_of(alloc: Global, op: Op) -> Result<First, Errno>
    ensures turn { (below : Below) (turn : CallTurn) → FirstTo below result turn → StartsTo below op turn }
    ensures unheld { IsFirst result }
{
    match op {
        Op::Resolve(path) => on_path(alloc, Aim::Opens(Goal::Follow), &path),
        Op::ResolveNoFollow(path) => on_path(alloc, Aim::Opens(Goal::NoFollow), &path),
        Op::ReadLink(path) => on_path(alloc, Aim::Reads, &path),
        Op::CreateFile(path) => on_entry(alloc, Rule::Refuse, Change::MakeFile, &path),
        Op::CreateDir(path) => on_entry(alloc, Rule::Drop, Change::MakeDir, &path),
        Op::CreateLink(path, text) => {
            on_entry(alloc, Rule::Refuse, Change::MakeLink(text), &path)
        }
        Op::RemoveFile(path) => on_entry(alloc, Rule::Refuse, Change::RemoveFile, &path),
        Op::RemoveDir(path) => on_entry(alloc, Rule::Drop, Change::RemoveDir, &path),
        Op::Rename(old, new, mode) => between(alloc, &old, &new, mode),
        Op::MkdirAll(path) => on_missing(alloc, &path),
        Op::RemoveAll(path) => on_all_below(alloc, &path),
        Op::Single(step) => one_step(step),
        Op::Release(standing) => Ok(First::Releases(standing)),
    }
}
