//! The first turn of a call, by what its operation begins with.
ghost use Rattle.std.specs.Prelude.{◌≡◌, [], IfOk};
ghost use Rattle.root_ops.specs.Order.{more, acting, held_by, walks, releases, same_owner, ends, fault, make_way, makes, removing_turn};
ghost use Rattle.root_ops.specs.View.{HoldsNoCall};
ghost use Rattle.root_ops.specs.declared.aim.Wanted.TheVariants.{Any};
ghost use Rattle.step_resolver.specs.View.{way_from};
ghost use Rattle.bulk_ops.specs.MakeAllOrder as make;
ghost use Rattle.bulk_ops.specs.RemoveAllOrder as remove;
ghost use Rattle.walk_plan.specs.declared.goal.Goal.TheVariants.{Follow};
ghost use Rattle.root_ops.specs.TurnView.{turn_view, Keeps, Either};

use crate::aim::{Aim, Wanted};
use crate::below::Below;
use crate::call::{Call, CallTurn};
use crate::doing::{Doing, Handles, Stage};
use crate::reply::Reply;
use handles::{Owner, Standing};
use path_text::{Errno, Name, NoMemory, Path};
use std::alloc::{AllocFailed, Global};
use tree_model::Step;

/// A call that ends at once.
pub(crate) fn failed(error: Errno) -> CallTurn
    ensures { turn_view result ≡ ends (fault error) }
{
    CallTurn::Done(Reply::Fault(error))
}

/// Whether two handles are of one owner.
pub(crate) fn same_owner(a: Owner, b: Owner) -> bool
    ensures { result ≡ same_owner a b }
{
    a.tag == b.tag && a.actor == b.actor
}

// The box for what will be due. It is asked for first, since a walk under way can't be let go.
fn room(alloc: Global, below: Below) -> Result<Box<Doing>, NoMemory>
    ensures { IfOk result (λ state. HoldsNoCall state.value) }
{
    match Box::new(alloc, Doing::stand_in(below.handle())) {
        Ok(state) => Ok(state),
        Err(AllocFailed { value }) => {
            value.let_go();
            Err(NoMemory)
        }
    }
}

impl Call {
    /// A call that begins with a walk.
    pub(crate) fn walk(alloc: Global, below: Below, aim: Aim, path: Path) -> CallTurn
        requires { held_by aim ≡ [] }
        ensures turn { Either (walks below aim path) (ends (fault Errno.NoMemory)) (turn_view result) }
        ensures kept { Keeps below result }
    {
        match room(alloc, below) {
            Ok(state) => {
                let next = below.walks(alloc, aim, path);
                Call::turned(below, state, next)
            }
            Err(_) => failed(Errno::NoMemory),
        }
    }

    /// All that is missing of the path is made.
    pub(crate) fn make(alloc: Global, below: Below, path: Path) -> CallTurn
        ensures turn { Either (makes (make.begins (make_way below) path))
            (ends (fault Errno.NoMemory)) (turn_view result) }
        ensures kept { Keeps below result }
    {
        match room(alloc, below) {
            Ok(state) => {
                let next = below.makes(alloc, path);
                Call::turned(below, state, next)
            }
            Err(_) => failed(Errno::NoMemory),
        }
    }

    /// The entry of the name is removed with all below it.
    pub(crate) fn clear(alloc: Global, below: Below, directory: Path, name: Name) -> CallTurn
        ensures turn { Either (removing_turn (remove.begins (way_from below.root Follow below.flags) name directory))
            (ends (fault Errno.NoMemory)) (turn_view result) }
        ensures kept { Keeps below result }
    {
        match room(alloc, below) {
            Ok(state) => {
                let next = below.clears(alloc, directory, name);
                Call::turned(below, state, next)
            }
            Err(_) => failed(Errno::NoMemory),
        }
    }

    /// A call of one single step.
    pub(crate) fn single(alloc: Global, below: Below, step: Step) -> CallTurn
        ensures turn { Either (more (acting Any step [])) (ends (fault Errno.NoMemory)) (turn_view result) }
        ensures kept { Keeps below result }
    {
        let doing = Doing::Acting {
            wanted: Wanted::Any,
            step,
            held: Handles::Empty,
        };
        match Box::new(alloc, doing) {
            Ok(state) => {
                let stage = Stage::Boxed(state);
                CallTurn::More(Call { below, stage })
            }
            Err(AllocFailed { value }) => {
                value.let_go();
                failed(Errno::NoMemory)
            }
        }
    }

    /// The release of a handle, where it is the owner's. It takes no memory.
    pub(crate) fn release(below: Below, standing: Standing) -> CallTurn
        ensures turn { turn_view result ≡ releases below.root.owner standing }
        ensures kept { Keeps below result }
    {
        if same_owner(standing.owner(), below.owner()) {
            let stage = Stage::Releasing(standing.handle());
            CallTurn::More(Call { below, stage })
        } else {
            CallTurn::Done(Reply::Kept(standing))
        }
    }
}
