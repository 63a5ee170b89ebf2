//! What an actor holds by the handles that it knows, place by place.
ghost use Rattle.std.specs.Prelude.{◌≡◌, ◌↔◌, ◌<◌, ◌≤◌, length, map, slice_get, IsTrue, IfOk};
ghost use Rattle.tree_model.specs.Steps.{node_held};
ghost use Rattle.race_core.specs.Book.{tree_now};
ghost use Rattle.local_states.specs.HandleTables.{AreGivenAs, AreGivenPairs, HasHandleTable, LikeHandleTables};
ghost use Rattle.local_states.specs.Local.{AreNumbered};
ghost use Rattle.local_states.specs.Paired.{AreApart, IsApartBefore};

use path_text::NoMemory;
use race_core::World;
use std::alloc::Global;
use tree_model::{Actor, HandleNo, Node, OpenHandle, Tree};

/// What an actor holds in a world, by each of the handles that it knows. Two parts of an actor are the same where its
/// seats are, but for the numbers of handles, and its handle tables are alike.
#[derive(Drop)]
pub(crate) struct HandleTable {
    // The handles that the actor knows.
    handles: Vec<HandleNo>,
    // What it holds by each.
    nodes: Vec<Option<Node>>,
    // How many numbers of handles were given in all.
    given: usize,
    // How many handles it has open.
    held: usize,
}

// What the actor holds by that handle.
fn node_of(opened: &[Option<OpenHandle>], actor: Actor, handle: HandleNo) -> Option<Node>
    ensures { result ≡ node_held actor (slice_get opened.now handle) }
{
    match opened.get(handle.number() as usize) {
        Some(Some(open)) if open.actor == actor => Some(open.node),
        _ => None,
    }
}

// What it holds by each of these. NoMemory where its room was refused.
fn nodes_of(
    alloc: Global,
    opened: &[Option<OpenHandle>],
    actor: Actor,
    handles: &[HandleNo],
) -> Result<Vec<Option<Node>>, NoMemory>
    ensures { IfOk result (λ nodes.
        nodes.items ≡ map (λ handle. node_held actor (slice_get opened.now handle)) handles.now) }
{
    let mut nodes = Vec::with_capacity(alloc, handles.len())?;
    for handle in handles {
        nodes.push(node_of(opened, actor, *handle))?;
    }
    Ok(nodes)
}

// Whether the same nodes are held, one by one.
fn held_alike(nodes: &[Option<Node>], others: &[Option<Node>]) -> bool
    ensures { IsTrue result ↔ (nodes.now ≡ others.now) }
{
    if nodes.len() != others.len() {
        return false;
    }
    for (at, node) in nodes.iter().enumerate() {
        if *node != others[at] {
            return false;
        }
    }
    true
}

// Whether both numbers are among so many that were given, or are one where as many were given.
fn are_given_as(given: usize, others_given: usize, here: HandleNo, there: HandleNo) -> bool
    ensures { IsTrue result ↔ AreGivenAs given others_given here there }
{
    let (here, there) = (here.number() as usize, there.number() as usize);
    (here < given && there < others_given) || (here == there && given == others_given)
}

// Whether the two pairs are the same on both sides or on neither.
fn are_apart(here: HandleNo, there: HandleNo, other: HandleNo, another: HandleNo) -> bool
    ensures { IsTrue result ↔ AreApart here there other another }
{
    (here == other) == (there == another)
}

// Whether the pair is apart from each that comes before that place.
fn is_apart_before(
    handles: &[HandleNo],
    others: &[HandleNo],
    here: HandleNo,
    there: HandleNo,
    before: usize,
) -> bool
    requires { (before ≤ length handles.now) × (before ≤ length others.now) }
    ensures { IsTrue result ↔ IsApartBefore handles.now others.now here there before }
{
    for at in 0..before {
        if !are_apart(here, there, handles[at], others[at]) {
            return false;
        }
    }
    true
}

// Whether the pairs of the two lists are given alike, and none is paired with two.
fn are_given_pairs(
    given: usize,
    others_given: usize,
    handles: &[HandleNo],
    others: &[HandleNo],
) -> bool
    requires { length handles.now ≡ length others.now }
    ensures { IsTrue result ↔ AreGivenPairs given others_given handles.now others.now }
{
    for (at, here) in handles.iter().enumerate() {
        let there = others[at];
        if !are_given_as(given, others_given, *here, there) {
            return false;
        }
        if !is_apart_before(handles, others, *here, there, at) {
            return false;
        }
    }
    true
}

impl HandleTable {
    /// That of the actor of that number in that world, in whose tree these handles were given. NoMemory where its room
    /// was refused.
    pub(crate) fn of<T: Tree>(
        alloc: Global,
        world: &World<T>,
        opened: &[Option<OpenHandle>],
        actor: u32,
    ) -> Result<HandleTable, NoMemory>
        requires opened { opened.now ≡ (tree_now world.now.book).handles }
        requires there { actor < length world.now.seats }
        requires numbered { AreNumbered world.now.seats }
        ensures { IfOk result (λ handle_table. HasHandleTable world.now actor handle_table) }
    {
        let mut handles = Vec::new(alloc);
        world.push_handles(actor as usize, &mut handles)?;
        let number = Actor::new(actor);
        let nodes = nodes_of(alloc, opened, number, handles.as_slice())?;
        Ok(HandleTable {
            handles,
            nodes,
            given: opened.len(),
            held: world.book().tree().held(number),
        })
    }

    /// Whether the two are the same but for the numbers of handles.
    pub(crate) fn is_like(&self, other: &HandleTable) -> bool
        ensures { IsTrue result ↔ LikeHandleTables self.now other.now }
    {
        if self.held != other.held || self.handles.len() != other.handles.len() {
            return false;
        }
        if !held_alike(self.nodes.as_slice(), other.nodes.as_slice()) {
            return false;
        }
        let (handles, others) = (self.handles.as_slice(), other.handles.as_slice());
        are_given_pairs(self.given, other.given, handles, others)
    }
}
