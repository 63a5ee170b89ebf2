//! The labels of an actor's calls: what they open is named by them in later calls.
ghost use Rattle.std.specs.Prelude.{◌≡◌, IfOk, option_map};
ghost use Rattle.serde_json.specs.View.{view, items_view};
ghost use Rattle.scripts.specs.Labels.{takes_label, label_of, labels_from, giver_of, has_good_label, ref_of};

use crate::fields::text_in;
use crate::words::{OpName, op_name_of};
use path_text::{Bytes, NoMemory};
use race_core::Ref;
use serde_json::Value;
use std::alloc::Global;

/// What stands for the actor's root in place of a label.
const ROOT: &str = "root";

/// A label, and the number of the call that gives it.
#[derive(Debug, Drop)]
pub struct Label {
    pub text: Bytes,
    pub call: usize,
}

/// Whether what such an operation opens may have a label.
pub fn takes_label(op: OpName) -> bool
    ensures { result ≡ takes_label op }
{
    matches!(
        op,
        OpName::Resolve | OpName::ResolveNoFollow | OpName::MkdirAll
    )
}

/// The label that a call gives to what it opens, if it gives one.
pub fn label_of(call: &Value) -> Option<&str>
    ensures { option_map (λ text. text.now) result ≡ label_of (view call.now) }
{
    let op = op_name_of(text_in(call, "op")?)?;
    if takes_label(op) {
        text_in(call, "as")
    } else {
        None
    }
}

/// The labels that an actor's calls give, in the order of the calls.
pub fn labels_of(alloc: Global, calls: &[Value]) -> Result<Vec<Label>, NoMemory>
    ensures { IfOk result (λ labels. labels.items ≡ labels_from 0 (items_view calls.now)) }
{
    let mut labels = Vec::new(alloc);
    for (call, value) in calls.iter().enumerate() {
        if let Some(text) = label_of(value) {
            let text = Bytes::from_slice(alloc, text.as_bytes())?;
            labels.push(Label { text, call })?;
        }
    }
    Ok(labels)
}

/// The first call that gives a label.
fn giver_of(labels: &[Label], text: &str) -> Option<usize>
    ensures { result ≡ giver_of labels.now text.now }
{
    for label in labels {
        if label.text.as_slice() == text.as_bytes() {
            return Some(label.call);
        }
    }
    None
}

/// Whether a call that may give a label gives none, or one that is its own: it isn't the root's, and no call before
/// it gives it.
pub fn has_good_label(labels: &[Label], at: usize, call: &Value) -> bool
    ensures { result ≡ has_good_label labels.now at (view call.now) }
{
    let Some(label) = call.get("as") else {
        return true;
    };
    match label.as_str() {
        Some(text) => text != ROOT && giver_of(labels, text) == Some(at),
        None => false,
    }
}

/// What a text names in a call: the actor's root, or what the call opened that gives that label, which comes before
/// this one.
pub fn ref_of(labels: &[Label], at: usize, text: &str) -> Option<Ref>
    ensures { result ≡ ref_of labels.now at text.now }
{
    if text == ROOT {
        return Some(Ref::Root);
    }
    match giver_of(labels, text) {
        Some(giver) if giver < at => Some(Ref::Call(giver)),
        _ => None,
    }
}
