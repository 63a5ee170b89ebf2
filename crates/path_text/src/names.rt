//! A list of names, as the way from a directory down to an object.
ghost use Rattle.std.specs.Prelude.{◌≡◌, ◌<◌, ◌≤◌, ◌-◌, ℕ, List, [], ◌∷◌, ◌++◌, length, take, reverse, slice_get, Some, None, IsTrue, ◌↔◌, IfOk, OnOk, OnErr};
ghost use Rattle.path_text.specs.Name.{name_fault};
ghost use Rattle.path_text.specs.Names.{start_at, AreNames};
ghost use Rattle.path_text.specs.Print.{printed, names_between, names_read};

use crate::errno::NoMemory;
use crate::lent::LentName;
use crate::name::{Name, SLASH};
use crate::parts::Parts;
use std::alloc::Global;
use std::marker::Model;

/// Names in order, one after another in one buffer. Contracts see them as the list of their bytes.
#[derive(Debug, Drop)]
pub struct Names {
    bytes: Vec<u8>,
    // Where each name ends in the bytes.
    ends: Vec<usize>,
}

impl Model for Names {
    ghost use Rattle.std.specs.Prelude.{List, ℕ};
    ghost use Rattle.path_text.specs.Names.{names_cut, IsNameBuffer};

    ghost Value = { List (List ℕ) };

    ghost view = { λ n. names_cut 0 n.ends.items n.bytes.items };

    ghost invariant = { λ n. IsNameBuffer n.bytes.items n.ends.items };
}

// Where the name at a place begins, which is where the one before it ends.
fn start_of(ends: &[usize], at: usize) -> usize
    requires { at ≤ length ends.now }
    ensures { result ≡ start_at 0 ends.now at }
{
    if at == 0 {
        return 0;
    }
    ends[at - 1]
}

// What stands between the slashes, where each of them is a name. NoMemory where room was refused.
fn names_between(alloc: Global, text: &[u8]) -> Result<Option<Names>, NoMemory>
    ensures { IfOk result (λ names. names ≡ names_between text.now) }
{
    let mut names = Names::new(alloc);
    for piece in text.split(|byte| *byte == SLASH) {
        if Name::fault_of(piece).is_some() {
            return Ok(None);
        }
        names.push_bytes(piece)?;
    }
    Ok(Some(names))
}

impl Names {
    /// No names. Takes no memory.
    pub fn new(alloc: Global) -> Names
        ensures { result ≡ [] }
    {
        Names {
            bytes: Vec::new(alloc),
            ends: Vec::new(alloc),
        }
    }

    /// The names of a slice, as copies. NoMemory where their room was refused.
    pub fn from_slice(alloc: Global, names: &[Name]) -> Result<Names, NoMemory>
        ensures { IfOk result (λ copies. copies ≡ names.now) }
    {
        let mut copies = Names::new(alloc);
        for name in names {
            copies.push_bytes(name.bytes())?;
        }
        Ok(copies)
    }

    /// Gets room for so many more names, of so many bytes together. NoMemory where it was refused.
    pub fn reserve(&mut self, names: usize, bytes: usize) -> Result<(), NoMemory>
        ensures { self.new ≡ self.old }
    {
        self.ends.reserve(names)?;
        self.bytes.reserve(bytes)?;
        Ok(())
    }

    /// Gets room for the names that are parts of the one list and of the other. NoMemory where it was refused.
    pub fn reserve_for(&mut self, parts: &Parts, others: &Parts) -> Result<(), NoMemory>
        ensures { self.new ≡ self.old }
    {
        let names = parts.len().saturating_add(others.len());
        self.reserve(names, parts.size().saturating_add(others.size()))
    }

    /// How many names there are.
    pub fn len(&self) -> usize
        ensures count { result ≡ length self.now }
        ensures valid { AreNames self.now }
    {
        self.ends.len()
    }

    /// Whether there is no name.
    pub fn is_empty(&self) -> bool
        ensures { IsTrue result ↔ (self.now ≡ []) }
    {
        self.ends.is_empty()
    }

    /// The bytes of the name at a place, counted from 0.
    pub fn get(&self, at: usize) -> &[u8]
        requires { at < length self.now }
        ensures same { slice_get self.now at ≡ Some result.now }
        ensures valid { name_fault result.now ≡ None }
    {
        let start = start_of(self.ends.as_slice(), at);
        let end = self.ends[at];
        &self.bytes[start..end]
    }

    /// The name at a place, counted from 0, lent.
    pub fn lend(&self, at: usize) -> LentName<'_>
        requires { at < length self.now }
        ensures { slice_get self.now at ≡ Some result }
    {
        LentName::of(self.get(at))
    }

    /// The name at a place, counted from 0, as a copy. NoMemory where its room was refused.
    pub fn to_name(&self, alloc: Global, at: usize) -> Result<Name, NoMemory>
        requires { at < length self.now }
        ensures { IfOk result (λ name. slice_get self.now at ≡ Some name) }
    {
        Name::copy_of(alloc, self.get(at))
    }

    /// Adds a name at the end. NoMemory where its room was refused; the names are then unchanged, and
    /// the name is dropped.
    pub fn push(&mut self, name: Name) -> Result<(), NoMemory>
        ensures ok { OnOk result (self.new ≡ self.old ++ name ∷ []) }
        ensures err { OnErr result (self.new ≡ self.old) }
    {
        self.push_bytes(name.bytes())
    }

    /// Adds the name of these bytes at the end. NoMemory where its room was refused; the names are then
    /// unchanged.
    pub fn push_bytes(&mut self, name: &[u8]) -> Result<(), NoMemory>
        requires { name_fault name.now ≡ None }
        ensures ok { OnOk result (self.new ≡ self.old ++ name.now ∷ []) }
        ensures err { OnErr result (self.new ≡ self.old) }
    {
        self.ends.reserve(1)?;
        self.bytes.extend_from_slice(name)?;
        self.ends.push_reserved(self.bytes.len());
        Ok(())
    }

    /// Drops the last name.
    pub fn pop(&mut self)
        requires { 0 < length self.old }
        ensures { self.new ≡ take (length self.old - 1) self.old }
    {
        let last = self.ends.len() - 1;
        let start = start_of(self.ends.as_slice(), last);
        self.ends.truncate(last);
        self.bytes.truncate(start);
    }

    /// Drops all names.
    pub fn clear(&mut self)
        ensures { self.new ≡ [] }
    {
        self.bytes.clear();
        self.ends.clear();
    }

    /// Equal names. NoMemory where their room was refused.
    pub fn copy(&self, alloc: Global) -> Result<Names, NoMemory>
        ensures { IfOk result (λ copy. copy ≡ self.now) }
    {
        let bytes = Vec::from_slice(alloc, self.bytes.as_slice())?;
        let ends = Vec::from_slice(alloc, self.ends.as_slice())?;
        Ok(Names { bytes, ends })
    }

    // No names, with room for as many and as long ones.
    fn empty_like(&self, alloc: Global) -> Result<Names, NoMemory>
        ensures { IfOk result (λ names. names ≡ []) }
    {
        let bytes = Vec::with_capacity(alloc, self.bytes.len())?;
        let ends = Vec::with_capacity(alloc, self.ends.len())?;
        Ok(Names { bytes, ends })
    }

    /// The names from the last to the first. NoMemory where their room was refused.
    pub fn reversed(&self, alloc: Global) -> Result<Names, NoMemory>
        ensures { IfOk result (λ turned. turned ≡ reverse self.now) }
    {
        let mut turned = self.empty_like(alloc)?;
        for before in 0..self.len() {
            turned.push_bytes(self.get(self.len() - 1 - before))?;
        }
        Ok(turned)
    }

    /// Whether the two are the same names in the same order.
    pub fn same(&self, other: &Names) -> bool
        ensures { IsTrue result ↔ (self.now ≡ other.now) }
    {
        // Two empty buffers would be compared by a call, which costs more than this test.
        if self.ends.is_empty() && other.ends.is_empty() {
            return true;
        }
        self.bytes.as_slice() == other.bytes.as_slice()
            && self.ends.as_slice() == other.ends.as_slice()
    }

    /// The names of an absolute path as `print` writes it: a slash before each, and `/` for none. None where the
    /// text is no such path, as one with two slashes in a row. NoMemory where their room was refused.
    pub fn read(alloc: Global, text: &[u8]) -> Result<Option<Names>, NoMemory>
        ensures { IfOk result (λ names. names ≡ names_read text.now) }
    {
        match text.split_first() {
            Some((&SLASH, [])) => Ok(Some(Names::new(alloc))),
            Some((&SLASH, rest)) => names_between(alloc, rest),
            _ => Ok(None),
        }
    }

    /// The names as an absolute path: a slash before each, and `/` for none. NoMemory where its room was
    /// refused.
    pub fn print(&self, alloc: Global) -> Result<Vec<u8>, NoMemory>
        ensures { IfOk result (λ text. text.items ≡ printed self.now) }
    {
        let mut text = Vec::new(alloc);
        if self.is_empty() {
            text.push(SLASH)?;
        }
        for at in 0..self.len() {
            text.push(SLASH)?;
            text.extend_from_slice(self.get(at))?;
        }
        Ok(text)
    }
}
