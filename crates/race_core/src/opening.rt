//! How a world is made.
ghost use Rattle.std.specs.Prelude.{◌≡◌, ◌<◌, ◌≤◌, length, IfOk};
ghost use Rattle.race_core.specs.Opening.{GrantsOne, GrantsTo, Opens, seats_of, ledgers_of, root_fault, book_fault};

use crate::ActorPlan;
use crate::book::Book;
use crate::ledger::Ledger;
use crate::report::WorldFault;
use crate::seat::Seat;
use crate::world::World;
use handles::Owner;
use path_text::{Errno, NoMemory};
use std::alloc::Global;
use step_resolver::Root;
use tree_model::{Actor, Tree};

/// The most actors that a world has.
pub const ACTORS_MAX: usize = 64;

/// The number of an actor whose root isn't granted, and why.
#[derive(Clone, Copy)]
struct RootRefusal {
    at: usize,
    cause: Errno,
}

// Grants the actor of that number its root.
fn grant_root<T: Tree>(
    alloc: Global,
    tree: &mut T,
    at: usize,
    plan: ActorPlan,
) -> Result<Ledger, Errno>
    requires { at < ACTORS_MAX }
    ensures { GrantsOne (T.state tree.old) at plan (T.state tree.new) result }
{
    let actor = Actor::new(at as u32);
    let handle = tree.grant(alloc, actor, &plan.root)?;
    let owner = Owner { tag: 0, actor };
    Ok(Ledger::new(alloc, Root { owner, handle }, plan.calls.into_calls()))
}

// Grants each actor its root, in the order of their numbers. The first refusal ends it.
fn grant_roots<T: Tree>(
    alloc: Global,
    tree: &mut T,
    plans: Vec<ActorPlan>,
) -> Result<Vec<Ledger>, RootRefusal>
    requires { length plans.items ≤ ACTORS_MAX }
    ensures { GrantsTo (T.state tree.old) plans.items (T.state tree.new) (ledgers_of result) }
{
    let mut ledgers = Vec::new(alloc);
    let mut plans = plans.into_iter();
    while let Some(plan) = plans.next() {
        let at = ledgers.len();
        let ledger = match grant_root(alloc, tree, at, plan) {
            Ok(ledger) => ledger,
            Err(cause) => return Err(RootRefusal { at, cause }),
        };
        if ledgers.push(ledger).is_err() {
            let cause = Errno::NoMemory;
            return Err(RootRefusal { at, cause });
        }
    }
    Ok(ledgers)
}

// A seat for each actor, without a call under way. NoMemory where their room was refused.
fn seated(alloc: Global, ledgers: Vec<Ledger>) -> Result<Vec<Seat>, NoMemory>
    ensures { IfOk result (λ seats. seats.items ≡ seats_of ledgers.items) }
{
    let mut seats = Vec::new(alloc);
    let reserved = seats.reserve(ledgers.len());
    if reserved.is_err() {
        seats.destroy_empty();
        return Err(NoMemory);
    }
    let mut ledgers = ledgers.into_iter();
    while let Some(ledger) = ledgers.next() {
        let doing = None;
        seats.push_reserved(Seat { ledger, doing });
    }
    Ok(seats)
}

// What a world tells of a root that isn't granted.
fn root_fault(refusal: RootRefusal) -> WorldFault
    ensures { result ≡ root_fault refusal }
{
    match refusal.cause {
        Errno::NotFound => WorldFault::RootNotFound(refusal.at),
        Errno::NotDir => WorldFault::RootNotDir(refusal.at),
        Errno::TooMany => WorldFault::TooMany(refusal.at),
        _ => WorldFault::NoMemory,
    }
}

// What a world tells of a book that isn't opened.
fn book_fault(cause: Errno) -> WorldFault
    ensures { result ≡ book_fault cause }
{
    match cause {
        Errno::Invalid => WorldFault::Invalid,
        Errno::BookFull => WorldFault::BookFull,
        _ => WorldFault::NoMemory,
    }
}

impl<T: Tree> World<T> {
    /// A world over a tree, with a book of that many lines. The actors are numbered by their places, and their roots
    /// granted in that order; the owner's tag is 0.
    ///
    /// Errors, in this order: TooManyActors over 64; RootNotFound, RootNotDir or TooMany of the first actor whose
    /// root isn't granted; Invalid over 1,000,000 lines; BookFull where there are fewer lines than open handles.
    /// NoMemory where room was refused, in place of any but the first. The tree is dropped with each.
    pub fn new(
        alloc: Global,
        mut tree: T,
        plans: Vec<ActorPlan>,
        lines: u32,
    ) -> Result<World<T>, WorldFault>
    where
        T: Drop,
        ensures { Opens (T.state tree) plans.items lines result }
    {
        if plans.len() > ACTORS_MAX {
            return Err(WorldFault::TooManyActors);
        }
        let ledgers = match grant_roots(alloc, &mut tree, plans) {
            Ok(ledgers) => ledgers,
            Err(refusal) => return Err(root_fault(refusal)),
        };
        let book = match Book::open(alloc, tree, lines) {
            Ok(book) => book,
            Err(refusal) => return Err(book_fault(refusal.cause)),
        };
        let Ok(seats) = seated(alloc, ledgers) else {
            return Err(WorldFault::NoMemory);
        };
        let spent = false;
        Ok(World { book, seats, spent })
    }
}
