//! A key that holds its name in place.
ghost use Rattle.std.specs.Prelude.{◌≡◌, ◌≤◌, ◌++◌, List, ℕ, [], length, take};
ghost use Rattle.path_text.specs.declared.name.TheConstants.{NAME_MAX};
ghost use Rattle.std.specs.Hash as fed;
ghost use Rattle.std.specs.Cmp.Rules.{comparing, hashing};
ghost use Rattle.std.proofs.Common.{rules};
ghost use Rattle.tree_slab.specs.Cache.{same_entry};

use path_text::{LentName, NAME_MAX};
use std::hash::{Hash, Hasher};
use std::marker::Model;
use tree_model::Node;

/// A directory and a name in it. Its name lies in it, so that no key takes memory. Contracts see it as the two.
#[derive(Debug, Drop)]
pub(crate) struct Key {
    dir: Node,
    len: u8,
    room: [u8; NAME_MAX],
}

impl Model for Key {
    ghost use Rattle.std.specs.Prelude.{ℕ, List, take};

    ghost Value = { ℕ × List ℕ };

    ghost view = { λ k. (k.dir, take k.len k.room) };
}

// Puts the bytes of a name at the room's beginning.
fn put_first(room: &mut [u8; NAME_MAX], name: &[u8])
    requires { length name.now ≤ NAME_MAX }
    ensures { take (length name.now) room.new ≡ name.now }
{
    room[..name.len()].copy_from_slice(name);
}

impl Key {
    /// A key of no name, which is to be set.
    pub(crate) fn blank() -> Key
        ensures { result ≡ (0, []) }
    {
        Key {
            dir: Node::new(0),
            len: 0,
            room: [0; NAME_MAX],
        }
    }

    /// Makes it the key of that entry. It writes the name alone, where a new key would be filled and moved whole.
    pub(crate) fn set(&mut self, dir: Node, name: &LentName<'_>)
        ensures { self.new ≡ (dir, name.now) }
    {
        let bytes = name.bytes();
        self.dir = dir;
        self.len = bytes.len() as u8;
        put_first(&mut self.room, bytes);
    }

    /// An equal key.
    pub(crate) fn copy(&self) -> Key
        ensures { result ≡ self.now }
    {
        Key {
            dir: self.dir,
            len: self.len,
            room: self.room,
        }
    }

    // The bytes of the name.
    fn bytes(&self) -> &[u8]
        ensures { result.now ≡ self.now.1 }
    {
        &self.room[..self.len as usize]
    }
}

impl PartialEq for Key {
    ghost eq = { same_entry };

    ghost laws = { Prim.search (comparing, rules) };

    fn eq(&self, other: &Key) -> bool {
        self.dir == other.dir && self.bytes() == other.bytes()
    }
}

impl Eq for Key {
    ghost laws = { Prim.search (comparing, rules) };
}

impl Hash for Key {
    ghost hash_input = { λ k. fed.u64 k.0 ++ fed.slice fed.u8 k.1 };

    ghost respects_eq = { Prim.search (hashing, rules) };

    fn hash<H: Hasher>(&self, state: &mut H) {
        state.write_u64(self.dir.number());
        self.bytes().hash(state);
    }
}
