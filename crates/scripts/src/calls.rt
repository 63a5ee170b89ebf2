//! The calls of an actor.
ghost use Rattle.std.specs.Prelude.{◌≡◌, Ok, IfOk, IfErr};
ghost use Rattle.serde_json.specs.View.{view, items_view};
ghost use Rattle.scripts.specs.Version.{version_in};
ghost use Rattle.scripts.specs.Calls.{flags_in, op_of, request_of, call_of, is_fit, call_at, calls_of};
ghost use Rattle.scripts.specs.Fault.{IsFaultOf};
ghost use Rattle.scripts.specs.Fields.{IsReadAs};
ghost use Rattle.scripts.specs.Steps.{released_in};

use crate::call_fault::fault_in_call;
use crate::fault::{RunFault, ScriptFault};
use crate::fields::{FieldFault, bytes_in, flag_in, mode_in, text_in};
use crate::labels::{Label, has_good_label, labels_of, takes_label};
use crate::steps::{ref_in, step_of};
use crate::words::{OpName, op_name_of};
use path_text::Flags;
use race_core::{Planned, Plans, Ref};
use root_ops::{Op, Request};
use serde_json::Value;
use std::alloc::Global;

/// The most calls of an actor.
pub const CALLS_MAX: usize = 512;

/// The version of a script.
#[derive(Clone, Copy, Debug, PartialEq, Eq)]
pub enum Version {
    One,
    /// Calls may have restrictions.
    Two,
}

/// What a script is read for.
#[derive(Clone, Copy, Debug, PartialEq, Eq)]
pub enum Purpose {
    /// Its actors take turns, and make calls of each kind.
    Turns,
    /// Its first actor's calls are jobs, which have no order: operations alone, since a step and a release speak of
    /// what a call before them opened.
    Jobs,
}

/// The version of a script, if it is one that can be read.
pub fn version_in(script: &Value) -> Option<Version>
    ensures { result ≡ version_in (view script.now) }
{
    match script.get("version").and_then(Value::as_u64)? {
        1 => Some(Version::One),
        2 => Some(Version::Two),
        _ => None,
    }
}

/// The restrictions of a call: none in version 1.
fn flags_in(version: Version, call: &Value) -> Option<Flags>
    ensures { result ≡ flags_in version (view call.now) }
{
    match version {
        Version::One => Some(Flags::default()),
        Version::Two => Some(Flags {
            beneath: flag_in(call, "beneath")?,
            no_links: flag_in(call, "no_links")?,
        }),
    }
}

/// The operation of that name, with its texts.
fn op_of(alloc: Global, name: OpName, call: &Value) -> Result<Op, FieldFault>
    ensures { IsReadAs (op_of name (view call.now)) result }
{
    Ok(match name {
        OpName::Resolve => Op::Resolve(bytes_in(alloc, call, "path")?),
        OpName::ResolveNoFollow => Op::ResolveNoFollow(bytes_in(alloc, call, "path")?),
        OpName::MkdirAll => Op::MkdirAll(bytes_in(alloc, call, "path")?),
        OpName::ReadLink => Op::ReadLink(bytes_in(alloc, call, "path")?),
        OpName::CreateFile => Op::CreateFile(bytes_in(alloc, call, "path")?),
        OpName::CreateDir => Op::CreateDir(bytes_in(alloc, call, "path")?),
        OpName::CreateLink => Op::CreateLink(
            bytes_in(alloc, call, "path")?,
            bytes_in(alloc, call, "text")?,
        ),
        OpName::RemoveFile => Op::RemoveFile(bytes_in(alloc, call, "path")?),
        OpName::RemoveDir => Op::RemoveDir(bytes_in(alloc, call, "path")?),
        OpName::RemoveAll => Op::RemoveAll(bytes_in(alloc, call, "path")?),
        OpName::Rename => Op::Rename(
            bytes_in(alloc, call, "from")?,
            bytes_in(alloc, call, "to")?,
            mode_in(call).ok_or(FieldFault::Shape)?,
        ),
    })
}

/// The operation of that name, with its restrictions; its label is looked at, where it may have one.
fn request_of(
    alloc: Global,
    version: Version,
    labels: &[Label],
    at: usize,
    name: OpName,
    call: &Value,
) -> Result<Request, FieldFault>
    ensures { IsReadAs (request_of version labels.now at name (view call.now)) result }
{
    let op = op_of(alloc, name, call)?;
    let flags = flags_in(version, call).ok_or(FieldFault::Shape)?;
    if takes_label(name) && !has_good_label(labels, at, call) {
        return Err(FieldFault::Shape);
    }
    Ok(Request { op, flags })
}

/// The call whose opened object is released, which isn't the actor's root.
pub fn released_in(labels: &[Label], at: usize, call: &Value) -> Option<usize>
    ensures { result ≡ released_in labels.now at (view call.now) }
{
    match ref_in(labels, at, call, "on")? {
        Ref::Root => None,
        Ref::Call(number) => Some(number),
    }
}

/// The call of that number.
fn call_of(
    alloc: Global,
    version: Version,
    labels: &[Label],
    at: usize,
    call: &Value,
) -> Result<Planned, FieldFault>
    ensures { IsReadAs (call_of version labels.now at (view call.now)) result }
{
    match text_in(call, "op").ok_or(FieldFault::Shape)? {
        "step" => Ok(Planned::Single(step_of(alloc, labels, at, call)?)),
        "release" => {
            let number = released_in(labels, at, call).ok_or(FieldFault::Shape)?;
            Ok(Planned::Release(number))
        }
        word => {
            let name = op_name_of(word).ok_or(FieldFault::Shape)?;
            let request = request_of(alloc, version, labels, at, name, call)?;
            Ok(Planned::Call(request))
        }
    }
}

/// Whether a call of the actor of that number may stand in a script that is read for this.
fn is_fit(purpose: Purpose, actor: usize, call: &Planned) -> bool
    ensures { result ≡ is_fit purpose actor call.now }
{
    match purpose {
        Purpose::Turns => true,
        Purpose::Jobs => actor > 0 || matches!(call, Planned::Call(_)),
    }
}

/// The call of that number. Errors: `Call` by its actor and its number, with what is wrong with it; `NoJob` where it
/// may not stand there; `NoMemory`.
fn call_at(
    alloc: Global,
    purpose: Purpose,
    version: Version,
    actor: usize,
    labels: &[Label],
    at: usize,
    call: &Value,
) -> Result<Planned, RunFault>
    ensures ok { IfOk result (λ planned. call_at purpose version actor labels.now at (view call.now) ≡ Ok planned) }
    ensures err { IfErr result (IsFaultOf (call_at purpose version actor labels.now at (view call.now))) }
{
    match call_of(alloc, version, labels, at, call) {
        Ok(planned) => {
            if is_fit(purpose, actor, &planned) {
                return Ok(planned);
            }
            Err(RunFault::Script(ScriptFault::NoJob(at)))
        }
        Err(FieldFault::Shape) => {
            let fault = fault_in_call(version, labels, at, call);
            Err(RunFault::Script(ScriptFault::Call(actor, at, fault)))
        }
        Err(FieldFault::NoMemory) => Err(RunFault::NoMemory),
    }
}

/// The calls of the actor of that number. Errors: `Call` or `NoJob` of the first that is refused; `NoMemory`.
pub fn calls_of(
    alloc: Global,
    purpose: Purpose,
    version: Version,
    actor: usize,
    calls: &[Value],
) -> Result<Plans, RunFault>
    ensures ok { IfOk result (λ plans. calls_of purpose version actor (items_view calls.now) ≡ Ok plans) }
    ensures err { IfErr result (IsFaultOf (calls_of purpose version actor (items_view calls.now))) }
{
    let labels = labels_of(alloc, calls)?;
    let mut plans = Plans::new(alloc);
    for (at, call) in calls.iter().enumerate() {
        let planned = call_at(alloc, purpose, version, actor, &labels, at, call)?;
        plans.push(planned)?;
    }
    Ok(plans)
}
