//! Sessions that aren't a service's own, which it turns away, and which don't close it.
use crate::calling::{Base, On, events_closed, held, opened, reads};
use sessions::{CloseCause, CloseRefusal, Closed, NoGate, Service, Session, Stopped};
use std::alloc::Global;
use std::mem;
use std::sync::Wait;
use tree_list::ListTree;
use tree_model::{Actor, Tree};
use tree_slab::SlabTree;

/// How many events were closed, or why not.
type Ended = Result<usize, CloseCause>;

/// Which list of sessions: those with which it is tried to close, another service's, and two to put some aside.
const OWN: usize = 0;

const OTHERS: usize = 1;

const ASIDE: usize = 2;

const APART: usize = 3;

/// A service that was stopped, until it is closed, and the lists.
#[derive(Drop)]
struct Closing<T: Tree> {
    stopped: Option<Stopped<T>>,
    lists: [Vec<Session>; 4],
}

/// Moves of the last session of one list to the end of another. Where an end is stated, it is tried to close after
/// that.
type Moves<'a> = &'a [(usize, usize, Option<Ended>)];

fn events_of<T: Drop>(closed: Closed<T>) -> Ended {
    let events = closed.events.len();
    drop(closed);
    Ok(events)
}

impl<T: Tree + Drop> Closing<T> {
    // Takes all back that wasn't closed.
    fn take_back(&mut self, refusal: CloseRefusal<T>) -> Ended {
        let CloseRefusal {
            cause,
            stopped,
            sessions,
        } = refusal;
        drop(self.stopped.replace(stopped));
        drop(mem::replace(&mut self.lists[OWN], sessions));
        Err(cause)
    }

    // Tries to close, where it isn't closed.
    fn close(&mut self, alloc: Global) -> Option<Ended> {
        let stopped = self.stopped.take()?;
        let sessions = mem::replace(&mut self.lists[OWN], Vec::new(alloc));
        match stopped.close(sessions) {
            Ok(closed) => Some(events_of(closed)),
            Err(refusal) => Some(self.take_back(refusal)),
        }
    }

    fn make(&mut self, from: usize, to: usize) {
        let Some(list) = self.lists.get_mut(from) else {
            return;
        };
        let Some(session) = list.pop() else {
            return;
        };
        match self.lists.get_mut(to) {
            Some(list) => drop(list.push(session)),
            None => drop(session),
        }
    }

    // Whether it ends as it is stated, each time that it is tried.
    fn ends_so(&mut self, alloc: Global, moves: Moves) -> bool {
        for (from, to, end) in moves {
            self.make(*from, *to);
            if end.is_some() && self.close(alloc) != *end {
                return false;
            }
        }
        true
    }
}

// The sessions of another service.
fn sessions_of<T: Base>(alloc: Global, paths: &[&str], tag: u64, lines: u32) -> Vec<Session> {
    match opened::<T>(alloc, paths, tag, lines) {
        Some((service, sessions)) => {
            drop(service);
            sessions
        }
        None => Vec::new(alloc),
    }
}

// Whether a service with these sessions, its own and others, ends as it is stated.
fn closes_so<T: Tree + Drop>(
    alloc: Global,
    service: Service<T>,
    own: Vec<Session>,
    others: Vec<Session>,
    moves: Moves,
) -> bool {
    let mut closing = Closing {
        stopped: Some(service.stop()),
        lists: [own, others, Vec::new(alloc), Vec::new(alloc)],
    };
    let is_so = closing.ends_so(alloc, moves);
    drop(closing);
    is_so
}

// Another's last session in the place of its own; without that; with its own.
const WRONG: Moves = &[
    (OWN, ASIDE, None),
    (OTHERS, OWN, Some(Err(CloseCause::Stranger(1)))),
    (OWN, OTHERS, Some(Err(CloseCause::Missing(1)))),
    (ASIDE, OWN, Some(Ok(0))),
];

// Whether a service that isn't closed, for want of its session 1, gives up the tree: with what session 0 holds, its two
// steps, and the opening, in which each session has its root.
fn gives_up_the_tree<T: Base, R: Wait>(rt: &R, alloc: Global) -> bool {
    let Some((service, mut own)) = opened::<T>(alloc, &["/c", "/"], 1, 9) else {
        return false;
    };
    drop(own.pop());
    let on = On::new(rt, alloc, &service);
    let told = on.is_told(own.last_mut(), &NoGate, "a", "opened dir 2 /a\n");
    let Err(refusal) = service.stop().close(own) else {
        return false;
    };
    let CloseRefusal {
        cause,
        stopped,
        sessions,
    } = refusal;
    let (tree, events, opening) = stopped.into_parts();
    let stands = tree.held(Actor::new(0)) == 2 && events.len() == 2 && opening.next_handle() == 2;
    drop(sessions);
    drop(tree);
    drop(events);
    drop(opening);
    told && cause == CloseCause::Missing(1) && stands
}

#[test]
fn refused_closing_gives_up_the_tree(rt: HostRuntime) {
    let alloc = rt.alloc();
    assert!(rt;
        gives_up_the_tree::<ListTree, _>(&rt, alloc) && gives_up_the_tree::<SlabTree, _>(&rt, alloc)
    );
}

// The user is the last of the others. Its own last gives way to the other's first, which has the number of its own
// first; comes back; and gives way to the user, which comes last.
const USER_LAST: Moves = &[
    (OTHERS, APART, None),
    (OWN, ASIDE, None),
    (OTHERS, OWN, Some(Err(CloseCause::Stranger(1)))),
    (OWN, OTHERS, None),
    (ASIDE, OWN, Some(Err(CloseCause::Mismatch(1)))),
    (OWN, ASIDE, None),
    (APART, OWN, Some(Ok(3))),
];

// The same, where the user comes first in the end.
const USER_FIRST: Moves = &[
    (OTHERS, APART, None),
    (OWN, ASIDE, None),
    (OTHERS, OWN, Some(Err(CloseCause::Stranger(1)))),
    (OWN, OTHERS, None),
    (ASIDE, OWN, Some(Err(CloseCause::Mismatch(1)))),
    (OWN, ASIDE, None),
    (OWN, OTHERS, None),
    (APART, OWN, None),
    (OTHERS, OWN, Some(Ok(3))),
];

/// Two services, with sessions at these roots each: their tags, and whether the first serves the other's session 1,
/// which nobody sees by a tag that both have; and then the moves.
type Pair<'a> = (&'a [&'a str], u64, u64, bool, Moves<'a>);

const PAIRS: [Pair; 3] = [
    (&["/c", "/"], 1, 2, false, WRONG),
    (&["/c", "/c"], 7, 7, true, USER_LAST),
    (&["/c", "/c"], 7, 7, true, USER_FIRST),
];

// Whether the first serves the other's session 1 as it is to, and ends as it is stated.
fn ends_as_stated<T: Base, R: Wait>(rt: &R, alloc: Global, pair: &Pair) -> bool {
    let (roots, tag, other_tag, is_served, moves) = *pair;
    let Some((service, own)) = opened::<T>(alloc, roots, tag, 99) else {
        return false;
    };
    let mut others = sessions_of::<T>(alloc, roots, other_tag, 99);
    let on = On::new(rt, alloc, &service);
    let served = !is_served || on.opens_and_releases(&service, others.last_mut(), "done\n");
    served && closes_so(alloc, service, own, others, moves)
}

/// What a tag doesn't tell apart, closing does.
#[test]
fn services_close_with_their_own_sessions(rt: HostRuntime) {
    let alloc = rt.alloc();
    for (at, pair) in PAIRS.iter().enumerate() {
        let are_so = ends_as_stated::<ListTree, _>(&rt, alloc, pair)
            && ends_as_stated::<SlabTree, _>(&rt, alloc, pair);
        assert!(rt; are_so, "pair {at}");
    }
}

// Whether a session is of tag 7, and its root too.
fn is_of_seven(session: &Session) -> bool {
    let owner = session.owner();
    owner.tag == 7 && session.root().owner == owner
}

// Whether a service turns the last of another one's sessions away, and keeps what it opened.
fn is_turned_away<T: Tree, R: Wait>(
    on: &On<T, R>,
    own: &On<T, R>,
    sessions: &mut [Session],
) -> bool {
    let Some(session) = sessions.last() else {
        return false;
    };
    is_of_seven(session)
        && on.is_told(sessions.last_mut(), &NoGate, "a", "fault EINVAL\n")
        && own.opens_and_releases(on.service, sessions.last_mut(), "kept\n")
}

// Whether a service turns session 1 of another one away, which is of tag 7 and has three events in the end.
fn turns_away<T: Base, R: Wait>(on: &On<T, R>) -> bool {
    let (rt, alloc) = (on.rt, on.alloc);
    let Some((other, mut others)) = opened::<T>(alloc, &["/c", "/c"], 7, 99) else {
        return false;
    };
    let own = On::new(rt, alloc, &other);
    let told = is_turned_away(on, &own, others.as_mut_slice());
    let events = events_closed(other.stop().close(others));
    told && events == Some(3)
}

// The same of a service of that tag at these roots, which has no events in the end.
fn has_no_stranger<T: Base, R: Wait>(rt: &R, alloc: Global, paths: &[&str], tag: u64) -> bool {
    let Some((service, own)) = opened::<T>(alloc, paths, tag, 99) else {
        return false;
    };
    let told = turns_away(&On::new(rt, alloc, &service));
    let events = events_closed(service.stop().close(own));
    told && events == Some(0)
}

/// A session of another tag, and one of a number that the service hasn't.
#[test]
fn strangers_are_turned_away(rt: HostRuntime) {
    let alloc = rt.alloc();
    for (paths, tag) in [(["/c", "/c"].as_slice(), 8), (&["/c"], 7)] {
        let are_away = has_no_stranger::<ListTree, _>(&rt, alloc, paths, tag)
            && has_no_stranger::<SlabTree, _>(&rt, alloc, paths, tag);
        assert!(rt; are_away, "tag {tag}");
    }
}

// The replies to three Releases of one handle: of a session with this tag of another service, and then of the session
// that opened it, twice. The service closes, since its book has the one Close.
fn releases_thrice<T: Base, R: Wait>(
    on: &On<T, R>,
    session: &mut Session,
    twin: &mut Session,
) -> Option<bool> {
    let opened = held(on.ask(session, &NoGate, "a"))?;
    let (second, third) = (opened.copy(on.alloc).ok()?, opened.copy(on.alloc).ok()?);
    let first = on.release(twin, &NoGate, opened);
    let own = on.release(session, &NoGate, second);
    let again = on.release(session, &NoGate, third);
    let are_done = reads(on.alloc, &first, "done\n") && reads(on.alloc, &own, "done\n");
    Some(are_done && reads(on.alloc, &again, "fault EBADF\n"))
}

fn release_is_made<T: Base, R: Wait>(rt: &R, alloc: Global) -> bool {
    let Some((service, mut sessions)) = opened::<T>(alloc, &["/c"], 1, 99) else {
        return false;
    };
    let mut others = sessions_of::<T>(alloc, &["/c"], 1, 99);
    let on = On::new(rt, alloc, &service);
    let told = match (sessions.first_mut(), others.first_mut()) {
        (Some(session), Some(twin)) => releases_thrice(&on, session, twin),
        _ => None,
    };
    drop(others);
    events_closed(service.stop().close(sessions)).is_some() && told == Some(true)
}

#[test]
fn releases_are_made(rt: HostRuntime) {
    let alloc = rt.alloc();
    let are_made = release_is_made::<ListTree, _>(&rt, alloc)
        && release_is_made::<SlabTree, _>(&rt, alloc);
    assert!(rt; are_made);
}
