//! The single steps of a script.
ghost use Rattle.std.specs.Prelude.{◌≡◌};
ghost use Rattle.serde_json.specs.View.{view};
ghost use Rattle.scripts.specs.Fields.{IsReadAs};
ghost use Rattle.scripts.specs.declared.words.StepName.TheVariants as step_name;
ghost use Rattle.scripts.specs.Steps.{step_name_in, ref_in, step_on, step_of};

use crate::fields::{FieldFault, bytes_in, mode_in, name_in, text_in};
use crate::labels::{Label, ref_of};
use crate::words::{StepName, step_name_of};
use race_core::Ref;
use serde_json::Value;
use std::alloc::Global;
use tree_model::StepOf;

/// What a step is to do.
pub fn step_name_in(call: &Value) -> Option<StepName>
    ensures { result ≡ step_name_in (view call.now) }
{
    step_name_of(text_in(call, "step")?)
}

/// What the text under a key names in a call.
pub fn ref_in(labels: &[Label], at: usize, call: &Value, key: &str) -> Option<Ref>
    ensures { result ≡ ref_in labels.now at key.now (view call.now) }
{
    ref_of(labels, at, text_in(call, key)?)
}

/// A rename of an entry of `on`.
fn rename_on(
    alloc: Global,
    labels: &[Label],
    at: usize,
    on: Ref,
    call: &Value,
) -> Result<StepOf<Ref>, FieldFault>
    ensures { IsReadAs (step_on step_name.Rename labels.now at on (view call.now)) result }
{
    let name = name_in(alloc, call, "name")?;
    let to = ref_in(labels, at, call, "to").ok_or(FieldFault::Shape)?;
    let new = name_in(alloc, call, "new")?;
    let mode = mode_in(call).ok_or(FieldFault::Shape)?;
    Ok(StepOf::Rename(on, name, to, new, mode))
}

/// The step of that name on what `on` names, with its fields.
fn step_on(
    alloc: Global,
    name: StepName,
    labels: &[Label],
    at: usize,
    on: Ref,
    call: &Value,
) -> Result<StepOf<Ref>, FieldFault>
    ensures { IsReadAs (step_on name labels.now at on (view call.now)) result }
{
    match name {
        StepName::ReadLink => Ok(StepOf::ReadLink(on)),
        StepName::List => Ok(StepOf::List(on)),
        StepName::Below => Ok(StepOf::NameBelow(Ref::Root, on)),
        StepName::MakeDir => Ok(StepOf::MakeDir(on, name_in(alloc, call, "name")?)),
        StepName::MakeFile => Ok(StepOf::MakeFile(on, name_in(alloc, call, "name")?)),
        StepName::MakeLink => {
            let name = name_in(alloc, call, "name")?;
            let text = bytes_in(alloc, call, "text")?;
            Ok(StepOf::MakeLink(on, name, text))
        }
        StepName::RemoveFile => Ok(StepOf::RemoveFile(on, name_in(alloc, call, "name")?)),
        StepName::RemoveDir => Ok(StepOf::RemoveDir(on, name_in(alloc, call, "name")?)),
        StepName::Rename => rename_on(alloc, labels, at, on, call),
    }
}

/// The single step that a call says.
pub fn step_of(
    alloc: Global,
    labels: &[Label],
    at: usize,
    call: &Value,
) -> Result<StepOf<Ref>, FieldFault>
    ensures { IsReadAs (step_of labels.now at (view call.now)) result }
{
    let name = step_name_in(call).ok_or(FieldFault::Shape)?;
    let on = ref_in(labels, at, call, "on").ok_or(FieldFault::Shape)?;
    step_on(alloc, name, labels, at, on, call)
}
