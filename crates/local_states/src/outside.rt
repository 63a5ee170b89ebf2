//! What actors change outside of their roots, counted while a world is gone through.
ghost use Rattle.std.specs.Prelude.{◌≡◌, ◌<◌, ◌≤◌, ◌+◌, ◌^◌, ◌&&◌, [], ℕ, true, false, length, IfOk, OnOk, Some, None, slice_get, slice_index_or};
ghost use Rattle.tree_model.specs.StepLaws.{is_on_entries};
ghost use Rattle.tree_model.specs.Steps.{node_held, held};
ghost use Rattle.race_core.specs.declared.opening.TheConstants.{ACTORS_MAX};
ghost use Rattle.race_core.specs.declared.seat.Seat.{Seat};
ghost use Rattle.race_core.specs.Book.{BookedHistory, is_done};
ghost use Rattle.race_core.specs.Turns.{Luck};
ghost use Rattle.race_core.specs.Worlds.{WorldView, turn};
ghost use Rattle.local_states.specs.Outside.{changed_by, is_outside, any_outside};
ghost use Rattle.local_states.specs.Counting.{bumped, IsLatest, IsCounted, IsTally};

use path_text::NoMemory;
use race_core::World;
use std::alloc::Global;
use std::marker::Model;
use tree_list::is_within;
use tree_model::{
    Actor, Answer, Event, HandleNo, Inode, Node, OpenHandle, Snapshot, Step, StepOf, Tree,
};

/// How many changes each actor has made outside of its root, where that is told, and what it is counted by.
/// Contracts see it as a `TallyView`.
#[derive(Drop)]
pub struct Tally {
    // Whether changes are told. Where they aren't, the rest is empty.
    told: bool,
    // The directory that each actor's root handle is on.
    roots: Vec<Option<Node>>,
    counts: Vec<u64>,
    // The tree after the last change.
    tree: Snapshot,
}

impl Model for Tally {
    ghost use Rattle.local_states.specs.Counting.{TallyView};

    ghost Value = { TallyView };

    ghost view = { λ t. record {
      told = t.told;
      roots = t.roots.items;
      counts = t.counts.items;
      nodes = t.tree.nodes;
    } };
}

// The node of a handle, if it is open and the actor's.
fn held(handles: &[Option<OpenHandle>], actor: Actor, handle: HandleNo) -> Option<Node>
    ensures { result ≡ node_held actor (slice_get handles.now handle) }
{
    match handles.get(handle.number() as usize) {
        Some(Some(open)) if open.actor == actor => Some(open.node),
        _ => None,
    }
}

// Whether the actor's handle is on a directory that is neither the root nor below it.
fn is_outside(
    nodes: &[Inode],
    handles: &[Option<OpenHandle>],
    root: &Option<Node>,
    actor: Actor,
    handle: HandleNo,
) -> bool
    ensures { result ≡ is_outside nodes.now root.now (node_held actor (slice_get handles.now handle)) }
{
    let Some(root) = root else {
        return false;
    };
    match held(handles, actor, handle) {
        Some(dir) => !is_within(nodes, *root, dir),
        None => false,
    }
}

// Whether the event is a change of entries that was made.
fn is_change(event: &Event) -> bool
    ensures { result ≡ (is_done event.now.answer && is_on_entries event.now.step) }
{
    let Answer::Done = &event.answer else {
        return false;
    };
    match &event.step {
        StepOf::MakeDir(_, _) | StepOf::MakeFile(_, _) | StepOf::MakeLink(_, _, _) => true,
        StepOf::RemoveFile(_, _) | StepOf::RemoveDir(_, _) | StepOf::Rename(_, _, _, _, _) => true,
        _ => false,
    }
}

// Whether a step, in a tree of these nodes and handles, changes a directory that is neither the root nor below it.
fn reaches_outside(
    nodes: &[Inode],
    handles: &[Option<OpenHandle>],
    root: &Option<Node>,
    actor: Actor,
    step: &Step,
) -> bool
    ensures { result ≡ any_outside
        (record { nodes = nodes.now; handles = handles.now }) root.now actor (changed_by step.now) }
{
    match step {
        StepOf::MakeDir(dir, _) | StepOf::MakeFile(dir, _) | StepOf::MakeLink(dir, _, _) => {
            is_outside(nodes, handles, root, actor, *dir)
        }
        StepOf::RemoveFile(dir, _) | StepOf::RemoveDir(dir, _) => {
            is_outside(nodes, handles, root, actor, *dir)
        }
        StepOf::Rename(from, _, to, _, _) => {
            is_outside(nodes, handles, root, actor, *from)
                || is_outside(nodes, handles, root, actor, *to)
        }
        _ => false,
    }
}

// Whether a change, in a tree of these nodes and handles, is outside of its actor's root.
fn leaves_root(
    roots: &[Option<Node>],
    nodes: &[Inode],
    handles: &[Option<OpenHandle>],
    event: &Event,
) -> bool
    ensures { result ≡ any_outside (record { nodes = nodes.now; handles = handles.now })
        (slice_index_or roots.now event.now.actor None) event.now.actor (changed_by event.now.step) }
{
    let Some(root) = roots.get(event.actor.number() as usize) else {
        return false;
    };
    reaches_outside(nodes, handles, root, event.actor, &event.step)
}

// Adds one at that place, if it is so.
fn add_if(counts: &mut Vec<u64>, so: bool, at: usize)
    requires { slice_index_or counts.old.items at 0 + 1 < 2 ^ 64 }
    ensures { counts.new.items ≡ bumped so at counts.old.items }
{
    if so && at < counts.len() {
        counts[at] += 1;
    }
}

// The root of the actor at that place, by what its handle is open on.
fn root_of<T: Tree>(
    alloc: Global,
    world: &World<T>,
    opening: &Snapshot,
    at: usize,
) -> Result<Option<Node>, NoMemory>
    requires at { at < length world.now.seats }
    requires few { at < ACTORS_MAX }
    ensures { IfOk result (λ root. (seat : Seat) → slice_get world.now.seats at ≡ Some seat
        → root ≡ held opening.now at seat.ledger.root.handle) }
{
    let mut handles = Vec::new(alloc);
    world.push_handles(at, &mut handles)?;
    match handles.get(0) {
        Some(root) => Ok(held(opening.handles(), Actor::new(at as u32), *root)),
        None => Ok(None),
    }
}

impl Tally {
    // Where changes aren't told.
    fn none<T: Tree>(alloc: Global, world: &World<T>) -> Tally
        ensures tally { IsTally world.now result }
        ensures told { result.told ≡ false }
    {
        Tally {
            told: false,
            roots: Vec::new(alloc),
            counts: Vec::new(alloc),
            tree: Snapshot::new(Vec::new(alloc), Vec::new(alloc)),
        }
    }

    // Where they are, of a world in which no step was made yet. NoMemory where its room was refused.
    fn of_all<T: Tree>(alloc: Global, world: &World<T>) -> Result<Tally, NoMemory>
        requires few { length world.now.seats ≤ ACTORS_MAX }
        requires fresh { world.now.book.events ≡ [] }
        ensures tally { IfOk result (IsTally world.now) }
        ensures told { IfOk result (λ tally. tally.told ≡ true) }
    {
        let tree = world.book().tree().snapshot(alloc)?;
        let mut roots = Vec::new(alloc);
        let mut counts = Vec::new(alloc);
        for at in 0..world.actors() {
            roots.push(root_of(alloc, world, &tree, at)?)?;
            counts.push(0)?;
        }
        Ok(Tally {
            told: true,
            roots,
            counts,
            tree,
        })
    }

    /// The tally of a world in which no step was made yet, whose changes are told or not. NoMemory where its room
    /// was refused.
    pub fn of<T: Tree>(alloc: Global, world: &World<T>, told: bool) -> Result<Tally, NoMemory>
        requires few { length world.now.seats ≤ ACTORS_MAX }
        requires fresh { world.now.book.events ≡ [] }
        ensures tally { IfOk result (IsTally world.now) }
        ensures told { IfOk result (λ tally. tally.told ≡ told) }
    {
        if told {
            Tally::of_all(alloc, world)
        } else {
            Ok(Tally::none(alloc, world))
        }
    }

    // Counts the last event of the book, which is at that place. NoMemory where room was refused.
    fn count<T: Tree>(&mut self, alloc: Global, world: &World<T>, at: usize) -> Result<(), NoMemory>
        requires few { at + 1 < 2 ^ 64 }
        requires told { self.old.told ≡ true }
        requires counted { (before : BookedHistory)
            × (IsLatest before world.now.book × (IsCounted before self.old × (at ≡ length before.events))) }
        ensures told { self.new.told ≡ self.old.told }
        ensures roots { self.new.roots ≡ self.old.roots }
        ensures counted { OnOk result (IsCounted world.now.book self.new) }
    {
        let event = world.book().events().event(alloc, at)?;
        if !is_change(&event) {
            return Ok(());
        }
        let after = world.book().tree().snapshot(alloc)?;
        let outside = leaves_root(&self.roots, self.tree.nodes(), after.handles(), &event);
        add_if(&mut self.counts, outside, event.actor.number() as usize);
        self.tree = after;
        Ok(())
    }

    /// Counts what a turn added to the book, which had so many events before, if it is told. NoMemory where room was
    /// refused.
    pub fn follow<T: Tree>(
        &mut self,
        alloc: Global,
        world: &World<T>,
        events: usize,
    ) -> Result<(), NoMemory>
        requires { (before : WorldView)
            × (IsTally before self.old
            × ((luck : Luck)
            × ((i : ℕ) × ((world.now ≡ turn luck before i) × (events ≡ length before.book.events))))) }
        ensures tally { OnOk result (IsTally world.now self.new) }
        ensures told { self.new.told ≡ self.old.told }
    {
        if !self.told {
            return Ok(());
        }
        if world.book().events().len() == events {
            return Ok(());
        }
        self.count(alloc, world, events)?;
        Ok(())
    }

    /// How many changes the actor has made outside of its root; 0 where they aren't told.
    pub fn changes_of(&self, actor: usize) -> u64
        ensures { result ≡ slice_index_or self.now.counts actor 0 }
    {
        match self.counts.get(actor) {
            Some(count) => *count,
            None => 0,
        }
    }

    /// How many changes each actor has made outside of its root; nothing where they aren't told.
    pub fn into_counts(self) -> Vec<u64>
        ensures { result.items ≡ self.counts }
    {
        let Tally {
            told: _,
            roots: _,
            counts,
            tree: _,
        } = self;
        counts
    }
}
