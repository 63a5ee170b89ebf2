//! Steps.
ghost use Rattle.std.specs.Prelude.{◌≡◌, ◌++◌, ◌↔◌, IsTrue, IfOk};
ghost use Rattle.root_ops.specs.Renamed.{step_by, step_handles};

use path_text::NoMemory;
use tree_model::{HandleNo, Step, StepOf};

/// Whether the steps are the same but for their handles.
pub(crate) fn like_steps(step: &Step, other: &Step) -> bool
    ensures { IsTrue result ↔ (step_by (λ h. 0) step.now ≡ step_by (λ h. 0) other.now) }
{
    match (step, other) {
        (StepOf::Open(_, name), StepOf::Open(_, n)) => name.same(n),
        (StepOf::Dup(_), StepOf::Dup(_)) => true,
        (StepOf::Parent(_), StepOf::Parent(_)) => true,
        (StepOf::ReadLink(_), StepOf::ReadLink(_)) => true,
        (StepOf::NameBelow(_, _), StepOf::NameBelow(_, _)) => true,
        (StepOf::List(_), StepOf::List(_)) => true,
        (StepOf::Close(_), StepOf::Close(_)) => true,
        (StepOf::MakeDir(_, name), StepOf::MakeDir(_, n)) => name.same(n),
        (StepOf::MakeFile(_, name), StepOf::MakeFile(_, n)) => name.same(n),
        (StepOf::MakeLink(_, name, text), StepOf::MakeLink(_, n, t)) => {
            name.same(n) && text.same(t)
        }
        (StepOf::RemoveFile(_, name), StepOf::RemoveFile(_, n)) => name.same(n),
        (StepOf::RemoveDir(_, name), StepOf::RemoveDir(_, n)) => name.same(n),
        (StepOf::Rename(_, old, _, new, mode), StepOf::Rename(_, o, _, n, m)) => {
            old.same(o) && new.same(n) && mode == m
        }
        _ => false,
    }
}

/// Appends the step's handles, in their order.
pub(crate) fn push_step_handles(step: &Step, into: &mut Vec<HandleNo>) -> Result<(), NoMemory>
    ensures { IfOk result (λ u. into.new.items ≡ into.old.items ++ step_handles step.now) }
{
    match step {
        StepOf::NameBelow(first, second) | StepOf::Rename(first, _, second, _, _) => {
            into.push(*first)?;
            into.push(*second)?;
        }
        StepOf::Open(handle, _)
        | StepOf::Dup(handle)
        | StepOf::Parent(handle)
        | StepOf::ReadLink(handle)
        | StepOf::List(handle)
        | StepOf::Close(handle)
        | StepOf::MakeDir(handle, _)
        | StepOf::MakeFile(handle, _)
        | StepOf::MakeLink(handle, _, _)
        | StepOf::RemoveFile(handle, _)
        | StepOf::RemoveDir(handle, _) => into.push(*handle)?,
    }
    Ok(())
}
