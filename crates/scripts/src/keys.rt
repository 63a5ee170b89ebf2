//! The keys that a script's objects may have.
ghost use Rattle.std.specs.Prelude.{◌≡◌};
ghost use Rattle.serde_json.specs.View.{view};
ghost use Rattle.scripts.specs.Keys.{is_key, has_other_key, keys_of_op, keys_of_step, keys_of_call};

use crate::fields::text_in;
use crate::words::{OpName, StepName, op_name_of, step_name_of};
use serde_json::Value;

/// What an object of a script is, by which it has its keys.
#[derive(Clone, Copy, Debug, PartialEq, Eq)]
pub enum Keys {
    Script,
    Actor,
    /// A call that may give a label.
    Opening,
    /// A call with a path alone.
    OnPath,
    CreateLink,
    Rename,
    Release,
    /// A step with no fields of its own.
    Looking,
    /// A step with a name.
    OnName,
    MakeLink,
    RenameStep,
}

/// Whether an object of that kind may have the key. Of an operation the restrictions count, in version 1 too.
pub fn is_key(keys: Keys, key: &str) -> bool
    ensures { result ≡ is_key keys key.now }
{
    match keys {
        Keys::Script => matches!(key, "version" | "tree" | "actors" | "schedule" | "lines"),
        Keys::Actor => matches!(key, "root" | "calls"),
        Keys::Opening => matches!(key, "op" | "path" | "as" | "beneath" | "no_links"),
        Keys::OnPath => matches!(key, "op" | "path" | "beneath" | "no_links"),
        Keys::CreateLink => matches!(key, "op" | "path" | "text" | "beneath" | "no_links"),
        Keys::Rename => matches!(key, "op" | "from" | "to" | "mode" | "beneath" | "no_links"),
        Keys::Release => matches!(key, "op" | "on"),
        Keys::Looking => matches!(key, "op" | "step" | "on"),
        Keys::OnName => matches!(key, "op" | "step" | "on" | "name"),
        Keys::MakeLink => matches!(key, "op" | "step" | "on" | "name" | "text"),
        Keys::RenameStep => { matches!(key, "op" | "step" | "on" | "name" | "to" | "new" | "mode") }
    }
}

/// Whether a value is an object with a key that one of that kind may not have.
pub fn has_other_key(keys: Keys, value: &Value) -> bool
    ensures { result ≡ has_other_key keys (view value.now) }
{
    let Some(object) = value.as_object() else {
        return false;
    };
    for (key, _value) in object {
        if !is_key(keys, key.as_str()) {
            return true;
        }
    }
    false
}

fn keys_of_op(name: OpName) -> Keys
    ensures { result ≡ keys_of_op name }
{
    match name {
        OpName::Resolve | OpName::ResolveNoFollow | OpName::MkdirAll => Keys::Opening,
        OpName::CreateLink => Keys::CreateLink,
        OpName::Rename => Keys::Rename,
        OpName::ReadLink
        | OpName::CreateFile
        | OpName::CreateDir
        | OpName::RemoveFile
        | OpName::RemoveDir
        | OpName::RemoveAll => Keys::OnPath,
    }
}

fn keys_of_step(name: StepName) -> Keys
    ensures { result ≡ keys_of_step name }
{
    match name {
        StepName::ReadLink | StepName::List | StepName::Below => Keys::Looking,
        StepName::MakeLink => Keys::MakeLink,
        StepName::Rename => Keys::RenameStep,
        StepName::MakeDir | StepName::MakeFile | StepName::RemoveFile | StepName::RemoveDir => {
            Keys::OnName
        }
    }
}

/// What a call is by what it asks for, if that is something.
pub fn keys_of_call(call: &Value) -> Option<Keys>
    ensures { result ≡ keys_of_call (view call.now) }
{
    match text_in(call, "op")? {
        "step" => Some(keys_of_step(step_name_of(text_in(call, "step")?)?)),
        "release" => Some(Keys::Release),
        word => Some(keys_of_op(op_name_of(word)?)),
    }
}
