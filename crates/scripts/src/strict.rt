//! Looking at a script strictly: what no reader looks at is refused.
ghost use Rattle.std.specs.Prelude.{◌≡◌, IfOk, IfErr, IsOk};
ghost use Rattle.serde_json.specs.View.{view, items_view};
ghost use Rattle.scripts.specs.Fault.{IsFaultOf};
ghost use Rattle.scripts.specs.Strict.{takes_labels, is_label_in, uses_label, is_used, is_early, loose_key, loose_in_call, loose_in_calls, loose_in_actor, loose_in_actors, first_loose, strictly};

use crate::calls::{Version, version_in};
use crate::fault::{Loose, RunFault, ScriptFault};
use crate::fields::{list_in, text_in};
use crate::input::Script;
use crate::keys::{Keys, has_other_key, keys_of_call};
use crate::labels::label_of;
use serde_json::Value;

// Whether a call takes labels: a step or a release.
fn takes_labels(call: &Value) -> bool
    ensures { result ≡ takes_labels (view call.now) }
{
    match text_in(call, "op") {
        Some(word) => word == "step" || word == "release",
        None => false,
    }
}

// Whether the label stands under a key.
fn is_label_in(key: &str, label: &str, call: &Value) -> bool
    ensures { result ≡ is_label_in key.now label.now (view call.now) }
{
    match text_in(call, key) {
        Some(text) => text == label,
        None => false,
    }
}

// Whether a step or a release uses a label.
fn uses_label(label: &str, call: &Value) -> bool
    ensures { result ≡ uses_label label.now (view call.now) }
{
    takes_labels(call) && (is_label_in("on", label, call) || is_label_in("to", label, call))
}

// Whether one of these calls uses a label.
fn is_used(label: &str, calls: &[Value]) -> bool
    ensures { result ≡ is_used label.now (items_view calls.now) }
{
    for call in calls {
        if uses_label(label, call) {
            return true;
        }
    }
    false
}

// Whether a call has a restriction that its version doesn't look at.
fn is_early(version: Version, call: &Value) -> bool
    ensures { result ≡ is_early version (view call.now) }
{
    match version {
        Version::One => call.get("beneath").is_some() || call.get("no_links").is_some(),
        Version::Two => false,
    }
}

// The unknown key of a call, if it has one.
fn loose_key(actor: usize, at: usize, call: &Value) -> Option<Loose>
    ensures { result ≡ loose_key actor at (view call.now) }
{
    let keys = keys_of_call(call)?;
    if has_other_key(keys, call) {
        Some(Loose::CallKey(actor, at, keys))
    } else {
        None
    }
}

// What of a call nobody looks at, where these calls come after it.
fn loose_in_call(
    version: Version,
    actor: usize,
    at: usize,
    call: &Value,
    after: &[Value],
) -> Option<Loose>
    ensures { result ≡ loose_in_call version actor at (view call.now) (items_view after.now) }
{
    let unknown = loose_key(actor, at, call);
    if unknown.is_some() {
        return unknown;
    }
    if is_early(version, call) {
        return Some(Loose::Restriction(actor, at));
    }
    match label_of(call) {
        Some(label) if !is_used(label, after) => Some(Loose::Label(actor, at)),
        _ => None,
    }
}

// What of an actor's calls nobody looks at.
fn loose_in_calls(version: Version, actor: usize, calls: &[Value]) -> Option<Loose>
    ensures { result ≡ loose_in_calls version actor 0 (items_view calls.now) }
{
    for (at, call) in calls.iter().enumerate() {
        let loose = loose_in_call(version, actor, at, call, &calls[at + 1..]);
        if loose.is_some() {
            return loose;
        }
    }
    None
}

// What of an actor nobody looks at.
fn loose_in_actor(version: Version, at: usize, actor: &Value) -> Option<Loose>
    ensures { result ≡ loose_in_actor version at (view actor.now) }
{
    if has_other_key(Keys::Actor, actor) {
        return Some(Loose::ActorKey(at));
    }
    loose_in_calls(version, at, list_in(actor, "calls")?)
}

// What of the actors nobody looks at.
fn loose_in_actors(version: Version, actors: &[Value]) -> Option<Loose>
    ensures { result ≡ loose_in_actors version 0 (items_view actors.now) }
{
    for (at, actor) in actors.iter().enumerate() {
        let loose = loose_in_actor(version, at, actor);
        if loose.is_some() {
            return loose;
        }
    }
    None
}

/// The first thing of a script that nobody looks at: a key of its own, and then of each actor, first its keys and
/// then its calls. Of each call in this order a key, a restriction in version 1, and a label that no call after it
/// uses. Of a script without a version, of what has another shape, and of the keys of a call that asks for nothing,
/// the other checks tell. Takes no memory.
pub fn first_loose(script: &Value) -> Option<Loose>
    ensures { result ≡ first_loose (view script.now) }
{
    let version = version_in(script)?;
    if has_other_key(Keys::Script, script) {
        return Some(Loose::Key);
    }
    loose_in_actors(version, list_in(script, "actors")?)
}

/// Looks at a script strictly. Errors, in this order: those of `Script::value`; `Script(Loose)` with what `first_loose`
/// finds. So a key that is misspelled is told as that, and not as one that is missing.
pub fn check_strictly(script: &Script) -> Result<(), RunFault>
    ensures ok { IfOk result (λ _. IsOk (strictly script.now)) }
    ensures err { IfErr result (IsFaultOf (strictly script.now)) }
{
    match first_loose(script.value()?) {
        Some(loose) => Err(RunFault::Script(ScriptFault::Loose(loose))),
        None => Ok(()),
    }
}
