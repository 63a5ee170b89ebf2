//! The parts that a path text is read as.
ghost use Rattle.std.specs.Prelude.{◌≡◌, ◌<◌, ◌≤◌, ℕ, List, length, None, IsTrue, ◌↔◌, IfOk, true};
ghost use Rattle.path_text.specs.Name.{is_component, component_fault};

use crate::errno::NoMemory;
use crate::lent::LentName;
use crate::name::{NAME_MAX, Name};
use std::alloc::Global;
use std::marker::Model;

/// A part that names an entry: bytes without slash and NUL, not empty, not `.` or `..`. It may be too
/// long for a name, which shows only where a walk comes to it. Contracts see it as its bytes.
#[derive(Debug, Drop)]
pub struct Component<'a> {
    bytes: &'a [u8],
}

impl<'a> Model for Component<'a> {
    ghost Value = { List ℕ };

    ghost view = { λ c. c.bytes.now };

    ghost invariant = { λ c. is_component c.bytes.now ≡ true };
}

impl<'a> Component<'a> {
    /// The bytes of the part.
    pub fn bytes(&self) -> &'a [u8]
        ensures same { result.now ≡ self.now }
        ensures valid { component_fault self.now ≡ None }
    {
        self.bytes
    }

    /// Whether it is too long for a name.
    pub fn is_too_long(&self) -> bool
        ensures { IsTrue result ↔ (NAME_MAX < length self.now) }
    {
        self.bytes.len() > NAME_MAX
    }

    /// The name of the same bytes, lent.
    pub fn name(&self) -> LentName<'a>
        requires { length self.now ≤ NAME_MAX }
        ensures { result ≡ self.now }
    {
        LentName::of(self.bytes)
    }

    /// A name of the same bytes. NoMemory where its room was refused.
    pub fn to_name(&self, alloc: Global) -> Result<Name, NoMemory>
        requires { length self.now ≤ NAME_MAX }
        ensures { IfOk result (λ name. name ≡ self.now) }
    {
        let bytes = Vec::from_slice(alloc, self.bytes)?;
        Ok(Name::from_component(bytes))
    }
}

/// A part of a path (path_resolution(7)).
#[derive(Debug, Drop)]
pub enum Part<'a> {
    /// `.`, or the end of a text that ends in a slash: the directory itself.
    Cur,
    /// `..`: the parent.
    Up,
    /// The entry of that name.
    Named(Component<'a>),
}

impl<'a> Part<'a> {
    ghost use Rattle.path_text.specs.Parts.{is_said, part_said};

    // The part that these bytes are, where none are the `.` that a slash at the end of a text gives.
    pub(crate) fn of_bytes(bytes: &'a [u8]) -> Part<'a>
        requires { is_said bytes.now ≡ true }
        ensures { result ≡ part_said bytes.now }
    {
        if bytes.is_empty() || bytes == b".".as_slice() {
            return Part::Cur;
        }
        if bytes == b"..".as_slice() {
            return Part::Up;
        }
        Part::Named(Component { bytes })
    }

    /// Whether the two are the same part.
    pub fn same(&self, other: &Part<'_>) -> bool
        ensures { IsTrue result ↔ (self.now ≡ other.now) }
    {
        match (self, other) {
            (Part::Cur, Part::Cur) => true,
            (Part::Up, Part::Up) => true,
            (Part::Named(name), Part::Named(n)) => name.bytes() == n.bytes(),
            _ => false,
        }
    }
}
