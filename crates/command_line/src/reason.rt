//! What is wrong with an entry, an actor or a call that is refused, where the check's own words leave it open.
ghost use Rattle.std.specs.Prelude.{◌≡◌, option_map};
ghost use Rattle.serde_json.specs.View.{view};
ghost use Rattle.command_line.specs.Reason.{text_at, is_dots, has_dots, has_empty, has_no_name, names_reason, path_reason, kind_reason, entry_reason, missing_reason, calls_reason, root_reason, actor_reason, operation_reason, call_reason, fault_reason, reason_of};

use crate::entry::entry_of;
use path_text::{Errno, Name};
use scripts::{CallFault, Cause, Field, ScriptFault};
use serde_json::Value;

// The element of a list at a place, if it is a text.
fn text_at(value: &Value, at: usize) -> Option<&str>
    ensures { option_map (λ text. text.now) result ≡ text_at at (view value.now) }
{
    value.get(at).and_then(Value::as_str)
}

fn is_dots(name: &[u8]) -> bool
    ensures { result ≡ is_dots name.now }
{
    name == b".".as_slice() || name == b"..".as_slice()
}

// Whether a part between slashes is `.` or `..`.
fn has_dots(names: &[u8]) -> bool
    ensures { result ≡ has_dots names.now }
{
    names.split(|byte| *byte == b'/').any(|name| is_dots(name))
}

// Whether a part between slashes is empty.
fn has_empty(names: &[u8]) -> bool
    ensures { result ≡ has_empty names.now }
{
    names
        .split(|byte| *byte == b'/')
        .any(|name| name.is_empty())
}

// Whether a part between slashes is no name.
fn has_no_name(names: &[u8]) -> bool
    ensures { result ≡ has_no_name names.now }
{
    names
        .split(|byte| *byte == b'/')
        .any(|name| Name::fault_of(name).is_some())
}

// What is wrong with names that have a slash between them.
fn names_reason(names: &[u8]) -> Option<&'static str>
    ensures { option_map (λ text. text.now) result ≡ names_reason names.now }
{
    if !has_no_name(names) {
        None
    } else if has_dots(names) {
        Some(". and .. are no names")
    } else if has_empty(names) {
        Some("a path has one slash before each name, and none at its end")
    } else {
        Some("a name has at most 255 bytes, and no NUL")
    }
}

// What is wrong with a path that has a slash before each of its names.
fn path_reason(path: &str) -> Option<&'static str>
    ensures { option_map (λ text. text.now) result ≡ path_reason path.now }
{
    match path.as_bytes().split_first() {
        Some((b'/', names)) => names_reason(names),
        _ => Some("a path begins with a slash"),
    }
}

// What is wrong with how many elements an entry of that kind has.
fn kind_reason(kind: &str, entry: &Value) -> Option<&'static str>
    ensures { option_map (λ text. text.now) result ≡ kind_reason kind.now (view entry.now) }
{
    if kind == "link" {
        if text_at(entry, 2).is_some() && entry.get(3).is_none() {
            return None;
        }
        return Some("a link has a path and a text: [\"link\", PATH, TEXT]");
    }
    if kind != "dir" && kind != "file" {
        return Some("an entry is a \"dir\", a \"file\" or a \"link\"");
    }
    if entry.get(2).is_none() {
        None
    } else {
        Some("a directory or a file has a path alone: [\"dir\", PATH]")
    }
}

// What is wrong with an entry of another shape.
fn entry_reason(entry: &Value) -> Option<&'static str>
    ensures { option_map (λ text. text.now) result ≡ entry_reason (view entry.now) }
{
    let Some(kind) = text_at(entry, 0) else {
        return Some("an entry is a list that begins with \"dir\", \"file\" or \"link\"");
    };
    let reason = kind_reason(kind, entry);
    if reason.is_some() {
        return reason;
    }
    match text_at(entry, 1) {
        Some("/") => Some("/ is the top of the tree, which is there already"),
        Some(path) => path_reason(path),
        None => Some("an entry's second element is its path, a text"),
    }
}

// Which of two things an entry lacks.
fn missing_reason(entry: &Value) -> &'static str
    ensures { result.now ≡ missing_reason (view entry.now) }
{
    match text_at(entry, 2) {
        Some("") => "ENOENT: its link text is empty",
        _ => "ENOENT: its directory is no entry before it",
    }
}

// What is wrong with the calls of an actor.
fn calls_reason(actor: &Value) -> Option<&'static str>
    ensures { option_map (λ text. text.now) result ≡ calls_reason (view actor.now) }
{
    match actor.get("calls") {
        None => Some("\"calls\" is missing, a list that may be empty; walk alone does without"),
        Some(calls) if calls.is_array() => None,
        Some(_) => Some("\"calls\" is no list"),
    }
}

// What is wrong with the root of an actor.
fn root_reason(root: &Value) -> Option<&'static str>
    ensures { option_map (λ text. text.now) result ≡ root_reason (view root.now) }
{
    match root.as_str() {
        Some("/") => None,
        Some(path) => path_reason(path),
        None => Some("\"root\" is no text"),
    }
}

// What is wrong with an actor of another shape.
fn actor_reason(actor: &Value) -> Option<&'static str>
    ensures { option_map (λ text. text.now) result ≡ actor_reason (view actor.now) }
{
    if !actor.is_object() {
        return Some("an actor is an object with \"root\" and \"calls\"");
    }
    let Some(root) = actor.get("root") else {
        return Some("\"root\" is missing, the path of a directory");
    };
    let reason = root_reason(root);
    if reason.is_some() {
        return reason;
    }
    calls_reason(actor)
}

// Which operation may be meant by another system's word.
fn operation_reason(word: &str) -> &'static str
    ensures { result.now ≡ operation_reason word.now }
{
    match word {
        "open" => "\"open\" is no operation: \"resolve\" opens what a path means",
        "mkdir" => {
            "\"mkdir\" is no operation: \"create_dir\" makes a directory, \"mkdir_all\" all that are missing"
        }
        "creat" => "\"creat\" is no operation: \"create_file\" makes a file",
        "symlink" => "\"symlink\" is no operation: \"create_link\" makes a link",
        "readlink" => "\"readlink\" is no operation: \"read_link\" reads a link",
        "unlink" => "\"unlink\" is no operation: \"remove_file\" removes a file or a link",
        "rmdir" => "\"rmdir\" is no operation: \"remove_dir\" removes an empty directory",
        "close" => "\"close\" is no operation: \"release\" closes what a label names",
        _ => {
            "\"op\" is resolve, resolve_nofollow, read_link, mkdir_all, create_dir, create_file, create_link, remove_file, remove_dir, remove_all, rename, step or release"
        }
    }
}

// What is wrong with a call that has that fault.
fn call_reason(call: &Value, fault: CallFault) -> Option<&'static str>
    ensures { option_map (λ text. text.now) result ≡ call_reason fault (view call.now) }
{
    if !call.is_object() {
        return Some("a call is an object, as {\"op\":\"resolve\",\"path\":\"a\"}");
    }
    match fault {
        CallFault::Unknown(Field::Op) => {
            Some(operation_reason(call.get("op").and_then(Value::as_str)?))
        }
        CallFault::Unknown(_) => Some(
            "\"step\" is read_link, list, below, make_dir, make_file, make_link, remove_file, remove_dir or rename",
        ),
        _ => None,
    }
}

// What is wrong with what a script has where it is refused.
fn fault_reason(entry: &Value, fault: ScriptFault) -> Option<&'static str>
    ensures { option_map (λ text. text.now) result ≡ fault_reason fault (view entry.now) }
{
    match fault {
        ScriptFault::TreeEntry(_, Cause::Shape) => entry_reason(entry),
        ScriptFault::TreeEntry(_, Cause::Refused(Errno::NotFound)) => Some(missing_reason(entry)),
        ScriptFault::Actor(_, Cause::Shape) => actor_reason(entry),
        ScriptFault::Call(_, _, Some(fault)) => call_reason(entry, fault),
        _ => None,
    }
}

/// What is wrong with the entry, the actor or the call that a script is refused for, if more can be said of it than the
/// fault's own words.
pub fn reason_of(script: &Value, fault: ScriptFault) -> Option<&'static str>
    ensures { option_map (λ text. text.now) result ≡ reason_of fault (view script.now) }
{
    fault_reason(entry_of(script, fault)?, fault)
}
