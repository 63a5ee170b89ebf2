//! Where a script's text has what is refused: what the text has from there on, and its line and column.
ghost use Rattle.std.specs.Prelude.{◌≡◌, ◌≤◌, ◌+◌, length, option_map};
ghost use Rattle.command_line.specs.Position.{START, trimmed, is_end, behind, next_of, inside, further, item, key_of, value_of, last_member, under, item_under, call_in, field_of, loose_in, text_from, line_column, position_of};

use crate::cut::cut;
use crate::no_json::is_white;
use scripts::{CallFault, Cause, Field, JsonFault, Loose, ScriptFault};

// A place inside of a list or an object: how many are open in it, whether it is in a string, and behind a backslash.
#[derive(Clone, Copy)]
struct Place {
    levels: usize,
    in_string: bool,
    is_escaped: bool,
}

const START: Place = Place {
    levels: 0,
    in_string: false,
    is_escaped: false,
};

// What stands behind the white space that a text begins with.
fn trimmed(text: &[u8]) -> &[u8]
    ensures { result.now ≡ trimmed text.now }
{
    for (at, byte) in text.iter().enumerate() {
        if !is_white(*byte) {
            return &text[at..];
        }
    }
    &[]
}

// Whether an element of the list, or a member of the object, ends before a byte.
fn is_end(place: Place, byte: u8) -> bool
    ensures { result ≡ is_end place byte }
{
    place.levels == 0 && !place.in_string && (byte == b',' || byte == b']' || byte == b'}')
}

// The place behind the next byte.
fn behind(place: Place, byte: u8) -> Place
    requires { place.levels + 1 ≤ 18446744073709551615 }
    ensures value { result ≡ behind place byte }
    ensures bound { result.levels ≤ place.levels + 1 }
{
    let levels = place.levels;
    if place.in_string {
        return Place {
            levels,
            in_string: place.is_escaped || byte != b'"',
            is_escaped: !place.is_escaped && byte == b'\\',
        };
    }
    let levels = match byte {
        b'[' | b'{' => levels + 1,
        b']' | b'}' => levels.saturating_sub(1),
        _ => levels,
    };
    Place {
        levels,
        in_string: byte == b'"',
        is_escaped: false,
    }
}

// What stands behind the comma that ends an element or a member.
fn next_of(text: &[u8]) -> Option<&[u8]>
    ensures { option_map (λ next. next.now) result ≡ next_of START text.now }
{
    let mut place = START;
    for (at, byte) in text.iter().enumerate() {
        if is_end(place, *byte) {
            if *byte == b',' {
                return Some(trimmed(&text[at + 1..]));
            }
            return None;
        }
        place = behind(place, *byte);
    }
    None
}

// The first element or member of a list or an object that begins with that bracket.
fn inside(bracket: u8, text: &[u8]) -> Option<&[u8]>
    ensures { option_map (λ first. first.now) result ≡ inside bracket text.now }
{
    let (first, rest) = text.split_first()?;
    if *first != bracket || is_end(START, *trimmed(rest).first()?) {
        return None;
    }
    Some(trimmed(rest))
}

// The element at that place of a list.
fn item(at: usize, list: &[u8]) -> Option<&[u8]>
    ensures { option_map (λ item. item.now) result ≡ item at list.now }
{
    let mut rest = inside(b'[', list)?;
    for _ in 0..at {
        rest = next_of(rest)?;
    }
    Some(rest)
}

// The key of a member.
fn key_of(member: &[u8]) -> &[u8]
    ensures { result.now ≡ key_of member.now }
{
    cut(cut(member, b'"').1, b'"').0
}

// The value of a member.
fn value_of(member: &[u8]) -> &[u8]
    ensures { result.now ≡ value_of member.now }
{
    trimmed(cut(cut(cut(member, b'"').1, b'"').1, b':').1)
}

// The last member of an object with that key; none where an escape may hide it.
fn last_member<'a>(key: &str, object: &'a [u8]) -> Option<&'a [u8]>
    ensures { option_map (λ member. member.now) result ≡ last_member key.now object.now }
{
    let mut rest = inside(b'{', object)?;
    let mut found = None;
    for _ in 0..object.len() {
        let name = key_of(rest);
        if name.contains(&b'\\') {
            return None;
        }
        if name == key.as_bytes() {
            found = Some(rest);
        }
        match next_of(rest) {
            Some(next) => rest = next,
            None => return found,
        }
    }
    found
}

// The value under a key of an object.
fn under<'a>(key: &str, object: &'a [u8]) -> Option<&'a [u8]>
    ensures { option_map (λ value. value.now) result ≡ under key.now object.now }
{
    Some(value_of(last_member(key, object)?))
}

// The element at that place of the list under a key.
fn item_under<'a>(key: &str, at: usize, object: &'a [u8]) -> Option<&'a [u8]>
    ensures { option_map (λ item. item.now) result ≡ item_under key.now at object.now }
{
    item(at, under(key, object)?)
}

// The call of that number of an actor.
fn call_in(actor: usize, call: usize, script: &[u8]) -> Option<&[u8]>
    ensures { option_map (λ item. item.now) result ≡ call_in actor call script.now }
{
    item_under("calls", call, item_under("actors", actor, script)?)
}

// The value of the field of a call that is wrong, or the call where one is missing.
fn field_of(fault: CallFault, call: &[u8]) -> Option<&[u8]>
    ensures { option_map (λ value. value.now) result ≡ field_of fault call.now }
{
    match fault {
        CallFault::Missing(_) => Some(call),
        CallFault::Shape(field) | CallFault::Unknown(field) | CallFault::NotGiven(field) => {
            under(field.key(), call)
        }
        CallFault::Taken => under(Field::As.key(), call),
        CallFault::ReleasesRoot => under(Field::On.key(), call),
    }
}

// What nobody looks at: of a restriction and a label the value, of a key the actor or the call that has it.
fn loose_in(loose: Loose, script: &[u8]) -> Option<&[u8]>
    ensures { option_map (λ value. value.now) result ≡ loose_in loose script.now }
{
    match loose {
        Loose::Key => None,
        Loose::ActorKey(actor) => item_under("actors", actor, script),
        Loose::CallKey(actor, call, _) => call_in(actor, call, script),
        Loose::Restriction(actor, call) => {
            let call = call_in(actor, call, script)?;
            match under("beneath", call) {
                Some(value) => Some(value),
                None => under("no_links", call),
            }
        }
        Loose::Label(actor, call) => under("as", call_in(actor, call, script)?),
    }
}

// What a script has from what is refused on.
fn text_from(fault: ScriptFault, script: &[u8]) -> Option<&[u8]>
    ensures { option_map (λ value. value.now) result ≡ text_from fault script.now }
{
    match fault {
        ScriptFault::NotObject => Some(script),
        ScriptFault::Version => under("version", script),
        ScriptFault::Lines => under("lines", script),
        ScriptFault::Tree | ScriptFault::TooManyEntries => under("tree", script),
        ScriptFault::TreeEntry(at, _) => item_under("tree", at, script),
        ScriptFault::Actors | ScriptFault::TooManyActors => under("actors", script),
        ScriptFault::Actor(actor, Cause::Refused(_)) => {
            under("root", item_under("actors", actor, script)?)
        }
        ScriptFault::Actor(actor, Cause::Shape) => item_under("actors", actor, script),
        ScriptFault::TooManyCalls(actor) => under("calls", item_under("actors", actor, script)?),
        ScriptFault::Call(actor, call, Some(fault)) => {
            field_of(fault, call_in(actor, call, script)?)
        }
        ScriptFault::Call(actor, call, None) => call_in(actor, call, script),
        ScriptFault::NoJob(call) => call_in(0, call, script),
        ScriptFault::Schedule | ScriptFault::TooManyTurns => under("schedule", script),
        ScriptFault::Turn(at) => item_under("schedule", at, script),
        ScriptFault::Loose(loose) => loose_in(loose, script),
        _ => None,
    }
}

// The line and the column behind these bytes, counted from 1.
fn line_column(before: &[u8]) -> JsonFault
    ensures { result ≡ line_column 1 1 before.now }
{
    let (mut line, mut column) = (1, 1);
    for byte in before {
        if *byte == b'\n' {
            (line, column) = (line + 1, 1);
        } else {
            column += 1;
        }
    }
    JsonFault {
        is_cut_short: false,
        line,
        column,
    }
}

/// The line and the column at which a script that is a JSON text has what is refused, if that is in it: the entry, the
/// actor, its root, the call, a value of these, or the turn. None where an escape may hide a key.
pub fn position_of(script: &[u8], fault: ScriptFault) -> Option<JsonFault>
    ensures { result ≡ position_of fault script.now }
{
    let from = text_from(fault, trimmed(script))?;
    let (before, _from) = script.split_at(script.len().saturating_sub(from.len()));
    Some(line_column(before))
}
