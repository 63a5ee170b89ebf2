//! The fields of a call or a step: what a key of an object has, if it has that shape.
ghost use Rattle.std.specs.Prelude.{◌≡◌, option_map};
ghost use Rattle.serde_json.specs.View.{view, items_view};
ghost use Rattle.scripts.specs.declared.fields.FieldFault.TheVariants.{NoMemory as OutOfMemory};
ghost use Rattle.scripts.specs.Checks.{has_none, are_over};
ghost use Rattle.scripts.specs.Fields.{text_in, list_in, name_in, mode_in, flag_in, IsReadAs};

use crate::words::mode_of;
use path_text::{Bytes, Errno, Name, NoMemory};
use serde_json::Value;
use std::alloc::{AllocError, Global};
use thiserror::Error;
use tree_model::Mode;

/// Why something of a call couldn't be read.
#[derive(Clone, Copy, Debug, PartialEq, Eq, Error)]
pub enum FieldFault {
    /// It is missing, or has another shape.
    #[error("shape")]
    Shape,
    #[error("no memory")]
    NoMemory,
}

impl From<NoMemory> for FieldFault {
    ghost from_gives = { λ _ fault. fault ≡ OutOfMemory };

    fn from(_error: NoMemory) -> FieldFault {
        FieldFault::NoMemory
    }
}

impl From<AllocError> for FieldFault {
    ghost from_gives = { λ _ fault. fault ≡ OutOfMemory };

    fn from(_error: AllocError) -> FieldFault {
        FieldFault::NoMemory
    }
}

/// The text under a key.
pub fn text_in<'a>(value: &'a Value, key: &str) -> Option<&'a str>
    ensures { option_map (λ text. text.now) result ≡ text_in key.now (view value.now) }
{
    value.get(key).and_then(Value::as_str)
}

/// The elements of the list under a key.
pub fn list_in<'a>(value: &'a Value, key: &str) -> Option<&'a [Value]>
    ensures { option_map (λ items. items_view items.now) result ≡ list_in key.now (view value.now) }
{
    Some(value.get(key)?.as_array()?.as_slice())
}

/// Whether a list has no element.
pub fn has_none(values: &[Value]) -> bool
    ensures { result ≡ has_none (items_view values.now) }
{
    values.is_empty()
}

/// Whether a list has more than so many elements.
pub fn are_over(values: &[Value], most: usize) -> bool
    ensures { result ≡ are_over most (items_view values.now) }
{
    values.len() > most
}

/// The bytes of the text under a key, whatever they are.
pub fn bytes_in(alloc: Global, value: &Value, key: &str) -> Result<Bytes, FieldFault>
    ensures { IsReadAs (text_in key.now (view value.now)) result }
{
    match text_in(value, key) {
        Some(text) => Ok(Bytes::from_slice(alloc, text.as_bytes())?),
        None => Err(FieldFault::Shape),
    }
}

/// The name under a key.
pub fn name_in(alloc: Global, value: &Value, key: &str) -> Result<Name, FieldFault>
    ensures { IsReadAs (name_in key.now (view value.now)) result }
{
    let Some(text) = text_in(value, key) else {
        return Err(FieldFault::Shape);
    };
    match Name::new(alloc, text.as_bytes()) {
        Ok(name) => Ok(name),
        Err(Errno::NoMemory) => Err(FieldFault::NoMemory),
        Err(_) => Err(FieldFault::Shape),
    }
}

/// How a rename treats an entry that is there already: by the text under `mode`, or plainly where that key is
/// missing.
pub fn mode_in(value: &Value) -> Option<Mode>
    ensures { result ≡ mode_in (view value.now) }
{
    match value.get("mode") {
        Some(mode) => mode_of(mode.as_str()?),
        None => Some(Mode::Plain),
    }
}

/// Whether a restriction is set under a key, which it isn't where the key is missing.
pub fn flag_in(value: &Value, key: &str) -> Option<bool>
    ensures { result ≡ flag_in key.now (view value.now) }
{
    match value.get(key) {
        Some(flag) => flag.as_bool(),
        None => Some(false),
    }
}
