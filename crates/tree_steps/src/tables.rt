//! The two tables that a tree is kept as: its nodes, and the handles that are open.
ghost use Rattle.std.specs.Prelude.{◌≡◌, ◌≢◌, ◌<◌, ◌&&◌, ◌++◌, ◌∷◌, [], List, Option, Some, None, true, false, count_by, length, slice_get, slice_set, IfOk, OnOk, OnErr, IsSome};
ghost use Rattle.tree_model.specs.declared.inode.Inode.{Inode};
ghost use Rattle.tree_model.specs.declared.inode.OpenHandle.{OpenHandle};
ghost use Rattle.tree_model.specs.State.{child, is_dir, is_gone, is_within, has_entries, names_in, sorted_names, put_at};
ghost use Rattle.tree_model.specs.Entries.{replace_fault};
ghost use Rattle.tree_model.specs.Steps.{is_held_by, node_held};
ghost use Rattle.tree_model.specs.Trees.{HasPathText};
ghost use Rattle.tree_steps.specs.Changes.{CanMake};

use path_text::{LentName, Names, NoMemory};
use std::alloc::Global;
use tree_model::{Actor, HandleNo, Inode, NUMBERS_MAX, Node, Object, OpenHandle, Place};

/// The nodes of a tree, each of its number. Whoever makes a change has looked that it is allowed; a change that wants
/// memory is made whole, or without it not at all.
pub trait NodeTable {
    /// The nodes by their numbers.
    ghost inodes: { Self → List Inode };

    /// The nodes by their numbers.
    fn as_slice(&self) -> &[Inode]
        ensures { result.now ≡ inodes self.now };

    /// The node at the entry of that name in that directory. It may be noted, to be found sooner.
    fn find(&mut self, dir: Node, name: &LentName<'_>) -> Option<Node>
        ensures found { result ≡ child (inodes self.old) dir name.now }
        ensures same { inodes self.new ≡ inodes self.old };

    /// The same, for a step that is about to change the entry.
    fn look(&mut self, dir: Node, name: &LentName<'_>) -> Option<Node>
        ensures found { result ≡ child (inodes self.old) dir name.now }
        ensures same { inodes self.new ≡ inodes self.old }
    {
        self.find(dir, name)
    }

    /// Lets an entry be found sooner: a step was refused for what it leads to.
    fn note(&mut self, _dir: Node, _name: &LentName<'_>)
        ensures { inodes self.new ≡ inodes self.old }
    {}

    /// Whether a directory has an entry.
    fn has_entries(&self, dir: Node) -> bool
        ensures { result ≡ has_entries (inodes self.now) dir };

    /// The names of a directory's entries by their bytes. NoMemory where their room was refused.
    fn names(&self, alloc: Global, dir: Node) -> Result<Names, NoMemory>
        ensures { IfOk result (λ names. names ≡ sorted_names (names_in (inodes self.now) dir)) };

    /// Adds a node at an entry that isn't there.
    fn add(&mut self, alloc: Global, place: Place, object: Object) -> Result<(), NoMemory>
        requires free { CanMake (inodes self.old) place.parent place.name }
        requires text { HasPathText object }
        ensures ok { OnOk result (inodes self.new
            ≡ inodes self.old ++ record { object = object; place = Some place } ∷ []) }
        ensures err { OnErr result (inodes self.new ≡ inodes self.old) };

    /// Takes the entry of a node without entries away. Takes no memory.
    fn take_out(&mut self, dir: Node, name: &LentName<'_>, x: Node)
        requires there { child (inodes self.old) dir name.now ≡ Some x }
        requires childless { (is_dir (inodes self.old) x && has_entries (inodes self.old) x) ≡ false }
        ensures { inodes self.new ≡ put_at (inodes self.old) x None };

    /// Gives a node an entry that isn't there, in place of its own.
    fn move_to(
        &mut self,
        alloc: Global,
        from: &Place,
        to: Place,
        moved: Node,
    ) -> Result<(), NoMemory>
        requires dir { is_dir (inodes self.old) to.parent ≡ true }
        requires stays { is_gone (inodes self.old) to.parent ≡ false }
        requires there { child (inodes self.old) from.now.parent from.now.name ≡ Some moved }
        requires free { child (inodes self.old) to.parent to.name ≡ None }
        requires out { is_within (inodes self.old) moved to.parent ≡ false }
        ensures ok { OnOk result (inodes self.new ≡ put_at (inodes self.old) moved (Some to)) }
        ensures err { OnErr result (inodes self.new ≡ inodes self.old) };

    /// Gives a node the entry of another, which has none then. Takes no memory.
    fn replace(&mut self, from: &Place, to: Place, moved: Node, there: Node)
        requires dir { is_dir (inodes self.old) to.parent ≡ true }
        requires stays { is_gone (inodes self.old) to.parent ≡ false }
        requires moved { child (inodes self.old) from.now.parent from.now.name ≡ Some moved }
        requires there { child (inodes self.old) to.parent to.name ≡ Some there }
        requires apart { moved ≢ there }
        requires out { is_within (inodes self.old) moved to.parent ≡ false }
        requires fits { replace_fault (inodes self.old) moved there ≡ None }
        ensures { inodes self.new ≡ put_at (put_at (inodes self.old) there None) moved (Some to) };

    /// Lets two nodes change entries. Takes no memory.
    fn exchange(&mut self, from: Place, to: Place, moved: Node, there: Node)
        requires dir { is_dir (inodes self.old) from.parent ≡ true }
        requires to_dir { is_dir (inodes self.old) to.parent ≡ true }
        requires moved { child (inodes self.old) from.parent from.name ≡ Some moved }
        requires there { child (inodes self.old) to.parent to.name ≡ Some there }
        requires apart { moved ≢ there }
        requires out { is_within (inodes self.old) moved to.parent ≡ false }
        requires there_out { is_within (inodes self.old) there from.parent ≡ false }
        ensures { inodes self.new ≡ put_at (put_at (inodes self.old) moved (Some to)) there (Some from) };
}

/// The handles on a tree, each of its number, a closed one as None.
pub trait HandleTable {
    /// The handles by their numbers.
    ghost places: { Self → List (Option OpenHandle) };

    /// The handles by their numbers.
    fn as_slice(&self) -> &[Option<OpenHandle>]
        ensures { result.now ≡ places self.now };

    /// How many handles the actor has open.
    fn held(&self, actor: Actor) -> usize
        ensures { result ≡ count_by (is_held_by actor) (places self.now) };

    /// One more handle on a node, of the next number. NoMemory where its room was refused.
    fn open(&mut self, actor: Actor, node: Node) -> Result<HandleNo, NoMemory>
        requires { length (places self.old) < NUMBERS_MAX }
        ensures ok { IfOk result (λ handle. (handle ≡ length (places self.old))
            × (places self.new ≡ places self.old ++ Some (record { actor = actor; node = node }) ∷ [])) }
        ensures err { OnErr result (places self.new ≡ places self.old) };

    /// Closes a handle of the actor. Takes no memory.
    fn close(&mut self, actor: Actor, handle: HandleNo)
        requires { IsSome (node_held actor (slice_get (places self.old) handle)) }
        ensures { places self.new ≡ slice_set (places self.old) handle None };
}

/// Equal nodes. NoMemory where their room was refused.
pub fn copy_nodes(alloc: Global, nodes: &[Inode]) -> Result<Vec<Inode>, NoMemory>
    ensures { IfOk result (λ copies. copies.items ≡ nodes.now) }
{
    let mut copies = Vec::with_capacity(alloc, nodes.len())?;
    for inode in nodes {
        copies.push(inode.copy(alloc)?)?;
    }
    Ok(copies)
}
