//! Services that are opened, or refused, and a book that is full.
use crate::calling::{Base, On, Opening, events_closed, open, opened};
use sessions::{NoGate, OpenCause, sessions_limit_is_a_number};
use std::alloc::Global;
use std::sync::Wait;
use tree_list::ListTree;
use tree_model::{Actor, Tree};
use tree_slab::SlabTree;

const MANY: [&str; 65] = ["/c"; 65];

const MOST: [&str; 64] = ["/c"; 64];

/// Why a service isn't opened, and how many handles actor 0 has in the tree that comes back.
type Refused = Option<(OpenCause, usize)>;

// Roots, how many lines the book is to have, and why it is refused.
const OPENINGS: [(&[&str], u32, Refused); 7] = [
    (&["/c", "/none"], 9, Some((OpenCause::RootNotFound(1), 0))),
    (&["/c/abs"], 9, Some((OpenCause::RootNotDir(0), 0))),
    (&MANY, 99, Some((OpenCause::TooManySessions, 0))),
    (&MOST, 98, None),
    (&["/c"], 1_000_001, Some((OpenCause::Invalid, 0))),
    (&["/c", "/"], 1, Some((OpenCause::BookFull, 0))),
    (&["/c", "/"], 2, None),
];

// Why, and of a service that is opened nothing.
fn why<T: Tree + Drop>(opening: Opening<T>) -> Refused {
    let why = match &opening {
        Ok(_) => None,
        Err(refusal) => Some((refusal.cause, refusal.tree.held(Actor::new(0)))),
    };
    drop(opening);
    why
}

// The lines of the first opening that ends otherwise.
fn wrong_opening<T: Base>(alloc: Global) -> Option<u32> {
    for (paths, lines, wanted) in OPENINGS.as_slice() {
        let Some(opening) = open::<T>(alloc, paths, 1, *lines) else {
            return Some(*lines);
        };
        if why(opening) != *wanted {
            return Some(*lines);
        }
    }
    None
}

#[test]
fn openings_are_refused(rt: HostRuntime) {
    sessions_limit_is_a_number();
    let alloc = rt.alloc();
    let wrong = (
        wrong_opening::<ListTree>(alloc),
        wrong_opening::<SlabTree>(alloc),
    );
    assert!(rt; wrong == (None, None));
}

// One session in a book of 7 lines: whether its Resolve is told that the book is full, and six events are closed.
fn full_book<T: Base, R: Wait>(rt: &R, alloc: Global) -> bool {
    let Some((service, mut sessions)) = opened::<T>(alloc, &["/c"], 1, 7) else {
        return false;
    };
    let on = On::new(rt, alloc, &service);
    let told = on.is_told(sessions.first_mut(), &NoGate, "a/b/f", "fault ENOSPC\n");
    let events = events_closed(service.stop().close(sessions));
    told && events == Some(6)
}

#[test]
fn full_books_are_told_and_closed(rt: HostRuntime) {
    let alloc = rt.alloc();
    assert!(rt; full_book::<ListTree, _>(&rt, alloc) && full_book::<SlabTree, _>(&rt, alloc));
}
