//! A name of a directory entry.
ghost use Rattle.std.specs.Prelude.{◌≡◌, ◌≤◌, ℕ, List, length, IsTrue, ◌↔◌, IfOk, MatchOption, MatchResult, Some, None, Err, true, nat_eq, refl};
ghost use Rattle.std.specs.Ordering.{nat_cmp};
ghost use Rattle.std.specs.Cmp.Lexicographic.{pointwise, slice_cmp, nat_list_eq_equiv, nat_list_cmp_total, texts_ties, texts_po};
ghost use Rattle.std.specs.Cmp.{partial_equiv_from_equiv};
ghost use Rattle.path_text.specs.Name.{is_component, name_fault};

use crate::errno::{Errno, NoMemory};
use crate::lent::LentName;
use std::alloc::Global;
use std::cmp::Ordering;
use std::marker::Model;

/// The byte between the parts of a path.
pub const SLASH: u8 = b'/';

/// The longest name, in bytes (NAME_MAX of limits.h).
pub const NAME_MAX: usize = 255;

/// Whether these bytes can stand between two slashes as a name: they are not empty, not `.` or `..`,
/// and have no slash and no NUL.
pub(crate) fn is_component(bytes: &[u8]) -> bool
    ensures { result ≡ is_component bytes.now }
{
    !bytes.is_empty()
        && bytes != b".".as_slice()
        && bytes != b"..".as_slice()
        && !bytes.contains(&SLASH)
        && !bytes.contains(&0)
}

/// A name of a directory entry: 1 to 255 bytes without slash and NUL, not `.` or `..` (POSIX.1, Filename).
/// Contracts see it as its bytes.
#[derive(Debug, Drop)]
pub struct Name {
    bytes: Vec<u8>,
}

impl Model for Name {
    ghost Value = { List ℕ };

    ghost view = { λ n. n.bytes.items };

    ghost invariant = { λ n. name_fault n.bytes.items ≡ None };
}

impl Name {
    /// Why the bytes are no name, where they are none: Invalid where they are none of any length, before
    /// TooLong past 255 bytes. Takes no memory.
    pub fn fault_of(bytes: &[u8]) -> Option<Errno>
        ensures { result ≡ name_fault bytes.now }
    {
        if !is_component(bytes) {
            return Some(Errno::Invalid);
        }
        if bytes.len() > NAME_MAX {
            return Some(Errno::TooLong);
        }
        None
    }

    /// A name of these bytes.
    ///
    /// Errors, in this order: Invalid where the bytes are no name of any length, TooLong past 255 bytes
    /// (ENAMETOOLONG of path_resolution(7)), NoMemory.
    pub fn new(alloc: Global, bytes: &[u8]) -> Result<Name, Errno>
        ensures { MatchOption (name_fault bytes.now)
            (MatchResult result (λ name. name ≡ bytes.now) (λ error. error ≡ Errno.NoMemory))
            (λ fault. result ≡ Err fault) }
    {
        if let Some(fault) = Name::fault_of(bytes) {
            return Err(fault);
        }
        Ok(Name::copy_of(alloc, bytes)?)
    }

    // The name of these bytes, which are one.
    pub(crate) fn copy_of(alloc: Global, bytes: &[u8]) -> Result<Name, NoMemory>
        requires { name_fault bytes.now ≡ None }
        ensures { IfOk result (λ name. name ≡ bytes.now) }
    {
        let bytes = Vec::from_slice(alloc, bytes)?;
        Ok(Name { bytes })
    }

    // The name that a part of the same bytes is.
    pub(crate) fn from_component(bytes: Vec<u8>) -> Name
        requires component { is_component bytes.items ≡ true }
        requires short { length bytes.items ≤ NAME_MAX }
        ensures { result ≡ bytes.items }
    {
        Name { bytes }
    }

    /// The bytes of the name.
    pub fn bytes(&self) -> &[u8]
        ensures same { result.now ≡ self.now }
        ensures valid { name_fault self.now ≡ None }
    {
        self.bytes.as_slice()
    }

    /// The name, lent.
    pub fn lend(&self) -> LentName<'_>
        ensures { result ≡ self.now }
    {
        LentName::of(self.bytes())
    }

    /// An equal name. NoMemory where its room was refused.
    pub fn copy(&self, alloc: Global) -> Result<Name, NoMemory>
        ensures { IfOk result (λ copy. copy ≡ self.now) }
    {
        Name::copy_of(alloc, self.bytes())
    }

    /// Whether the two are one name.
    pub fn same(&self, other: &Name) -> bool
        ensures { IsTrue result ↔ (self.now ≡ other.now) }
    {
        self == other
    }
}

impl PartialEq for Name {
    ghost eq = { pointwise nat_eq };

    ghost laws = { partial_equiv_from_equiv nat_list_eq_equiv };

    fn eq(&self, other: &Name) -> bool {
        self.bytes() == other.bytes()
    }
}

impl Eq for Name {
    ghost laws = { nat_list_eq_equiv };
}

impl PartialOrd for Name {
    ghost partial_cmp = { λ x y. Some (slice_cmp nat_cmp x y) };

    ghost laws = { texts_po };

    fn partial_cmp(&self, other: &Name) -> Option<Ordering> {
        Some(self.cmp(other))
    }
}

// The order of names is that of their bytes.
impl Ord for Name {
    ghost cmp = { slice_cmp nat_cmp };

    ghost total = { nat_list_cmp_total };

    ghost matches_partial_cmp = { λ x y. refl };

    ghost matches_eq = { texts_ties };

    fn cmp(&self, other: &Name) -> Ordering {
        self.bytes().cmp(other.bytes())
    }
}
