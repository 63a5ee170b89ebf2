//! What is wrong with a call that is refused: the first of its fields that is.
ghost use Rattle.std.specs.Prelude.{◌≡◌};
ghost use Rattle.serde_json.specs.View.{view};
ghost use Rattle.scripts.specs.CallFaults.{key_of, text_fault, name_fault, mode_fault, flag_fault, flags_fault, label_fault, ref_fault, fields_fault, request_fault, step_fields_fault, step_fault, release_fault, word_fault, fault_in_call};

use crate::calls::{Version, released_in};
use crate::fields::{flag_in, mode_in, text_in};
use crate::labels::{Label, has_good_label, takes_label};
use crate::steps::{ref_in, step_name_in};
use crate::words::{OpName, StepName, op_name_of};
use path_text::Name;
use serde_json::Value;

/// A field of a call.
#[derive(Clone, Copy, Debug, PartialEq, Eq)]
pub enum Field {
    Op,
    Path,
    Text,
    From,
    To,
    Mode,
    Beneath,
    NoLinks,
    As,
    On,
    Step,
    Name,
    New,
}

/// What is wrong with a call.
#[derive(Clone, Copy, Debug, PartialEq, Eq)]
pub enum CallFault {
    /// The field isn't there, and has to be.
    Missing(Field),
    /// It has another shape.
    Shape(Field),
    /// Its word is the name of no operation, or of no step.
    Unknown(Field),
    /// Its text is no label that a call before this one gives.
    NotGiven(Field),
    /// The label that it gives is the root's, or one that a call before it gives.
    Taken,
    /// It releases the actor's root.
    ReleasesRoot,
}

impl Field {
    /// The key that the field stands under.
    pub fn key(self) -> &'static str
        ensures { result.now ≡ key_of self }
    {
        match self {
            Field::Op => "op",
            Field::Path => "path",
            Field::Text => "text",
            Field::From => "from",
            Field::To => "to",
            Field::Mode => "mode",
            Field::Beneath => "beneath",
            Field::NoLinks => "no_links",
            Field::As => "as",
            Field::On => "on",
            Field::Step => "step",
            Field::Name => "name",
            Field::New => "new",
        }
    }
}

// What is wrong with a field that is a text.
fn text_fault(field: Field, call: &Value) -> Option<CallFault>
    ensures { result ≡ text_fault field (view call.now) }
{
    match call.get(field.key()) {
        None => Some(CallFault::Missing(field)),
        Some(value) => match value.as_str() {
            Some(_) => None,
            None => Some(CallFault::Shape(field)),
        },
    }
}

// What is wrong with a field that is the name of an entry.
fn name_fault(field: Field, call: &Value) -> Option<CallFault>
    ensures { result ≡ name_fault field (view call.now) }
{
    match call.get(field.key()) {
        None => Some(CallFault::Missing(field)),
        Some(value) => match value.as_str() {
            Some(text) if Name::fault_of(text.as_bytes()).is_none() => None,
            _ => Some(CallFault::Shape(field)),
        },
    }
}

// What is wrong with how a rename treats an entry that is there already.
fn mode_fault(call: &Value) -> Option<CallFault>
    ensures { result ≡ mode_fault (view call.now) }
{
    match mode_in(call) {
        Some(_) => None,
        None => Some(CallFault::Shape(Field::Mode)),
    }
}

// What is wrong with a restriction.
fn flag_fault(field: Field, call: &Value) -> Option<CallFault>
    ensures { result ≡ flag_fault field (view call.now) }
{
    match flag_in(call, field.key()) {
        Some(_) => None,
        None => Some(CallFault::Shape(field)),
    }
}

// What is wrong with the restrictions, at which version 1 doesn't look.
fn flags_fault(version: Version, call: &Value) -> Option<CallFault>
    ensures { result ≡ flags_fault version (view call.now) }
{
    match version {
        Version::One => None,
        Version::Two => {
            let beneath = flag_fault(Field::Beneath, call);
            beneath.or(flag_fault(Field::NoLinks, call))
        }
    }
}

// What is wrong with the label that a call may give.
fn label_fault(labels: &[Label], at: usize, name: OpName, call: &Value) -> Option<CallFault>
    ensures { result ≡ label_fault labels.now at name (view call.now) }
{
    if !takes_label(name) || has_good_label(labels, at, call) {
        return None;
    }
    match text_in(call, "as") {
        Some(_) => Some(CallFault::Taken),
        None => Some(CallFault::Shape(Field::As)),
    }
}

// What is wrong with a field that names what a call before this one opened, or the root.
fn ref_fault(labels: &[Label], at: usize, field: Field, call: &Value) -> Option<CallFault>
    ensures { result ≡ ref_fault labels.now at field (view call.now) }
{
    let shape = text_fault(field, call);
    if shape.is_some() {
        return shape;
    }
    match ref_in(labels, at, call, field.key()) {
        Some(_) => None,
        None => Some(CallFault::NotGiven(field)),
    }
}

// What is wrong with the texts of an operation, and with how it renames.
fn fields_fault(name: OpName, call: &Value) -> Option<CallFault>
    ensures { result ≡ fields_fault name (view call.now) }
{
    match name {
        OpName::CreateLink => {
            let path = text_fault(Field::Path, call);
            path.or(text_fault(Field::Text, call))
        }
        OpName::Rename => {
            let from = text_fault(Field::From, call);
            let to = text_fault(Field::To, call);
            from.or(to).or(mode_fault(call))
        }
        OpName::Resolve
        | OpName::ResolveNoFollow
        | OpName::MkdirAll
        | OpName::ReadLink
        | OpName::CreateFile
        | OpName::CreateDir
        | OpName::RemoveFile
        | OpName::RemoveDir
        | OpName::RemoveAll => text_fault(Field::Path, call),
    }
}

// What is wrong with a call that is an operation.
fn request_fault(
    version: Version,
    labels: &[Label],
    at: usize,
    name: OpName,
    call: &Value,
) -> Option<CallFault>
    ensures { result ≡ request_fault version labels.now at name (view call.now) }
{
    let fields = fields_fault(name, call);
    let flags = flags_fault(version, call);
    fields.or(flags).or(label_fault(labels, at, name, call))
}

// What is wrong with the fields of a step, beside what it is on.
fn step_fields_fault(name: StepName, labels: &[Label], at: usize, call: &Value) -> Option<CallFault>
    ensures { result ≡ step_fields_fault name labels.now at (view call.now) }
{
    match name {
        StepName::ReadLink | StepName::List | StepName::Below => None,
        StepName::MakeDir | StepName::MakeFile | StepName::RemoveFile | StepName::RemoveDir => {
            name_fault(Field::Name, call)
        }
        StepName::MakeLink => {
            let name = name_fault(Field::Name, call);
            name.or(text_fault(Field::Text, call))
        }
        StepName::Rename => {
            let name = name_fault(Field::Name, call);
            let to = ref_fault(labels, at, Field::To, call);
            let new = name_fault(Field::New, call);
            name.or(to).or(new).or(mode_fault(call))
        }
    }
}

// What is wrong with a call that is a single step.
fn step_fault(labels: &[Label], at: usize, call: &Value) -> Option<CallFault>
    ensures { result ≡ step_fault labels.now at (view call.now) }
{
    let shape = text_fault(Field::Step, call);
    if shape.is_some() {
        return shape;
    }
    let Some(name) = step_name_in(call) else {
        return Some(CallFault::Unknown(Field::Step));
    };
    let on = ref_fault(labels, at, Field::On, call);
    on.or(step_fields_fault(name, labels, at, call))
}

// What is wrong with a call that is a release.
fn release_fault(labels: &[Label], at: usize, call: &Value) -> Option<CallFault>
    ensures { result ≡ release_fault labels.now at (view call.now) }
{
    let on = ref_fault(labels, at, Field::On, call);
    if on.is_some() {
        return on;
    }
    match released_in(labels, at, call) {
        Some(_) => None,
        None => Some(CallFault::ReleasesRoot),
    }
}

// What is wrong with a call that has this word for what it asks for.
fn word_fault(
    version: Version,
    labels: &[Label],
    at: usize,
    word: &str,
    call: &Value,
) -> Option<CallFault>
    ensures { result ≡ word_fault version labels.now at word.now (view call.now) }
{
    match word {
        "step" => step_fault(labels, at, call),
        "release" => release_fault(labels, at, call),
        word => match op_name_of(word) {
            Some(name) => request_fault(version, labels, at, name, call),
            None => Some(CallFault::Unknown(Field::Op)),
        },
    }
}

/// What is wrong with a call, if something is: the first of its fields in the order in which the format has them.
/// Takes no memory.
pub fn fault_in_call(
    version: Version,
    labels: &[Label],
    at: usize,
    call: &Value,
) -> Option<CallFault>
    ensures { result ≡ fault_in_call version labels.now at (view call.now) }
{
    match text_in(call, "op") {
        Some(word) => word_fault(version, labels, at, word, call),
        None => text_fault(Field::Op, call),
    }
}
