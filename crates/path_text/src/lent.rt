//! Names and texts that are lent: their bytes lie elsewhere, as in the text of a path.
ghost use Rattle.std.specs.Prelude.{◌≡◌, ℕ, List, IsTrue, ◌↔◌, IfOk, None};
ghost use Rattle.path_text.specs.Name.{name_fault};

use crate::bytes::Bytes;
use crate::errno::NoMemory;
use crate::name::Name;
use std::alloc::Global;
use std::marker::Model;

/// A name that is lent (see `Name`). Contracts see it as its bytes.
#[derive(Debug, Drop)]
pub struct LentName<'a> {
    bytes: &'a [u8],
}

impl<'a> Model for LentName<'a> {
    ghost Value = { List ℕ };

    ghost view = { λ n. n.bytes.now };

    ghost invariant = { λ n. name_fault n.bytes.now ≡ None };
}

impl<'a> LentName<'a> {
    /// The name that these bytes are.
    pub fn of(bytes: &'a [u8]) -> LentName<'a>
        requires { name_fault bytes.now ≡ None }
        ensures { result ≡ bytes.now }
    {
        LentName { bytes }
    }

    /// The bytes of the name.
    pub fn bytes(&self) -> &'a [u8]
        ensures same { result.now ≡ self.now }
        ensures valid { name_fault self.now ≡ None }
    {
        self.bytes
    }

    /// An equal name of its own. NoMemory where its room was refused.
    pub fn copy(&self, alloc: Global) -> Result<Name, NoMemory>
        ensures { IfOk result (λ copy. copy ≡ self.now) }
    {
        Name::copy_of(alloc, self.bytes)
    }

    /// Whether the two are one name.
    pub fn same(&self, other: &LentName<'_>) -> bool
        ensures { IsTrue result ↔ (self.now ≡ other.now) }
    {
        self.bytes == other.bytes
    }
}

/// Bytes that are lent, as the text of a link (see `Bytes`). Contracts see them as their list.
#[derive(Debug, Drop)]
pub struct LentBytes<'a> {
    bytes: &'a [u8],
}

impl<'a> Model for LentBytes<'a> {
    ghost Value = { List ℕ };

    ghost view = { λ b. b.bytes.now };
}

impl<'a> LentBytes<'a> {
    /// These bytes.
    pub fn of(bytes: &'a [u8]) -> LentBytes<'a>
        ensures { result ≡ bytes.now }
    {
        LentBytes { bytes }
    }

    /// The bytes in order.
    pub fn as_slice(&self) -> &'a [u8]
        ensures { result.now ≡ self.now }
    {
        self.bytes
    }

    /// Equal bytes of their own. NoMemory where their room was refused.
    pub fn copy(&self, alloc: Global) -> Result<Bytes, NoMemory>
        ensures { IfOk result (λ copy. copy ≡ self.now) }
    {
        Bytes::from_slice(alloc, self.bytes)
    }

    /// Whether the two are the same bytes in the same order.
    pub fn same(&self, other: &LentBytes<'_>) -> bool
        ensures { IsTrue result ↔ (self.now ≡ other.now) }
    {
        self.bytes == other.bytes
    }
}
