//! The cache and its calls.
ghost use Rattle.std.specs.Prelude.{◌≡◌, length, IsOkAnd, OnOk, OnErr, IsSome, IsOk, MatchOption, MatchResult, Err};
ghost use Rattle.std.specs.NonZero.{non_zero_usize_get};
ghost use Rattle.tree_slab.specs.Cache.{Cache, IsCache, cap_fault, empty, found, looked, noted, forgotten};

use crate::key::Key;
use lru::LruCache;
use path_text::{Errno, LentName, NoMemory};
use std::alloc::Global;
use std::marker::Model;
use std::num::NonZeroUsize;
use tree_model::Node;

/// The most entries that a cache may be asked to remember.
pub const CAP_MAX: usize = 65_536;

/// What was noted of entries, of at most so many, where what was used last stays. Contracts see it as the list of
/// them, the most recently used first, and its cap.
#[derive(Debug, Drop)]
pub struct DentryCache {
    inner: LruCache<Key, Option<Node>>,
    // the key of the call that is under way, set anew by each
    sought: Key,
}

impl Model for DentryCache {
    ghost use Rattle.tree_slab.specs.Cache.{Cache};

    ghost Value = { Cache };

    ghost view = { λ c. record { entries = c.inner.entries; cap = c.inner.cap } };
}

// The cap as a number that isn't 0, where it can be one.
fn checked_cap(cap: usize) -> Result<NonZeroUsize, Errno>
    ensures { MatchOption (cap_fault cap) (IsOkAnd result (λ checked. non_zero_usize_get checked ≡ cap))
        (λ fault. result ≡ Err fault) }
{
    match NonZeroUsize::new(cap) {
        Some(checked) if cap <= CAP_MAX => Ok(checked),
        _ => Err(Errno::Invalid),
    }
}

impl DentryCache {
    /// A cache without entries that remembers at most `cap`. Memory is taken as entries are noted.
    ///
    /// Errors, in this order: Invalid for a cap of 0 or over 65,536, NoMemory.
    pub fn new(alloc: Global, cap: usize) -> Result<DentryCache, Errno>
        ensures { MatchOption (cap_fault cap)
            (MatchResult result (λ cache. cache ≡ empty cap) (λ error. error ≡ Errno.NoMemory))
            (λ fault. result ≡ Err fault) }
    {
        let cap = checked_cap(cap)?;
        let inner = LruCache::sparse(alloc, cap).map_err(|_refused| Errno::NoMemory)?;
        Ok(DentryCache {
            inner,
            sought: Key::blank(),
        })
    }

    /// How many entries are remembered.
    pub fn len(&self) -> usize
        ensures len { result ≡ length self.now.entries }
        ensures valid { IsCache self.now }
    {
        self.inner.len()
    }

    /// What was noted of an entry: None where nothing is remembered, `Some(None)` where there is no such entry. It is
    /// the most recently used then. Takes no memory.
    pub fn look(&mut self, dir: Node, name: &LentName<'_>) -> Option<Option<Node>>
        ensures found { result ≡ found self.old dir name.now }
        ensures renewed { self.new ≡ looked self.old dir name.now }
    {
        // Where nothing is remembered no key is hashed. The length also tells that no two keys are equal.
        if self.inner.len() == 0 {
            return None;
        }
        self.sought.set(dir, name);
        self.inner.get(&self.sought).copied()
    }

    /// Notes to which node an entry leads, or with None that there is no such entry. At a full cache the least
    /// recently used entry goes. NoMemory where its room was refused, which only an entry that isn't remembered needs.
    pub fn note(
        &mut self,
        dir: Node,
        name: &LentName<'_>,
        there: Option<Node>,
    ) -> Result<(), NoMemory>
        ensures ok { OnOk result (self.new ≡ noted self.old dir name.now there) }
        ensures err { OnErr result (self.new ≡ self.old) }
        ensures succeeds { IsSome (found self.old dir name.now) → IsOk result }
    {
        let _ = self.inner.len();
        self.sought.set(dir, name);
        self.inner.put(self.sought.copy(), there)?;
        Ok(())
    }

    /// Forgets an entry. Takes no memory.
    pub fn forget(&mut self, dir: Node, name: &LentName<'_>)
        ensures { self.new ≡ forgotten self.old dir name.now }
    {
        if self.inner.len() == 0 {
            return;
        }
        self.sought.set(dir, name);
        let _ = self.inner.pop(&self.sought);
    }
}
