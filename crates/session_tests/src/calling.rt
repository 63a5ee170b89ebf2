//! What the tests share: services over the base tree, and calls, whose replies are told as lines.
//!
//! A value of many parts is let go by `drop`, and not at the end of a body, where its parts would be proved one by one.
use event_log::Output;
use fixtures::{PLAIN, base_tree, names_of};
use handles::Standing;
use path_text::{Bytes, Errno, Names, NoMemory};
use root_ops::{Op, Reply, Request};
use sessions::{CloseRefusal, Closed, Gate, NoGate, OpenRefusal, Service, Session};
use std::alloc::Global;
use std::sync::Wait;
use std::sync::atomic::{AtomicU64, Ordering};
use std::thread;
use std::thread::Threads;
use tree_list::ListTree;
use tree_model::{Mode, Tree};
use tree_slab::SlabTree;

/// A tree that the tests are run on.
pub trait Base: Tree + Drop + Send {
    /// The base tree. Error: NoMemory.
    fn base(alloc: Global) -> Result<Self, Errno>;
}

impl Base for ListTree {
    fn base(alloc: Global) -> Result<ListTree, Errno> {
        base_tree(alloc)
    }
}

impl Base for SlabTree {
    fn base(alloc: Global) -> Result<SlabTree, Errno> {
        let list = base_tree(alloc)?;
        let tree = SlabTree::from_list(alloc, &list, 4);
        drop(list);
        tree
    }
}

/// The names of each path.
pub fn roots_of(alloc: Global, paths: &[&str]) -> Result<Vec<Names>, Errno> {
    let mut roots = Vec::new(alloc);
    for path in paths {
        roots.push(names_of(alloc, path)?)?;
    }
    Ok(roots)
}

/// A service over the base tree, with a session at each root, or why it isn't opened.
pub type Opening<T> = Result<(Service<T>, Vec<Session>), OpenRefusal<T>>;

/// A service with a session at each root. None where memory ran out.
pub fn open<T: Base>(alloc: Global, paths: &[&str], tag: u64, lines: u32) -> Option<Opening<T>> {
    let roots = roots_of(alloc, paths).ok()?;
    let tree = T::base(alloc).ok()?;
    Some(Service::open(alloc, tree, &roots, tag, lines))
}

/// The same, where it is opened.
pub fn opened<T: Base>(
    alloc: Global,
    paths: &[&str],
    tag: u64,
    lines: u32,
) -> Option<(Service<T>, Vec<Session>)> {
    open(alloc, paths, tag, lines)?.ok()
}

/// How many events a service has that was closed, if it was.
pub fn events_closed<T: Tree + Drop>(closed: Result<Closed<T>, CloseRefusal<T>>) -> Option<usize> {
    let events = match &closed {
        Ok(closed) => Some(closed.events.len()),
        Err(_) => None,
    };
    drop(closed);
    events
}

/// A path to be opened.
pub fn resolve(alloc: Global, path: &str) -> Result<Request, NoMemory> {
    let op = Op::Resolve(Bytes::from_slice(alloc, path.as_bytes())?);
    Ok(Request { op, flags: PLAIN })
}

fn rename(alloc: Global, old: &str, new: &str) -> Result<Request, NoMemory> {
    let old = Bytes::from_slice(alloc, old.as_bytes())?;
    let new = Bytes::from_slice(alloc, new.as_bytes())?;
    let op = Op::Rename(old, new, Mode::Plain);
    Ok(Request { op, flags: PLAIN })
}

/// What was opened, to be closed.
pub fn release(standing: Standing) -> Request {
    let op = Op::Release(standing);
    Request { op, flags: PLAIN }
}

// `rename OLD NEW`, or a path to be opened.
fn request_of(alloc: Global, line: &str) -> Result<Request, NoMemory> {
    match line.strip_prefix("rename ") {
        Some(paths) => {
            let (old, new) = paths.split_once(' ').unwrap_or((paths, ""));
            rename(alloc, old, new)
        }
        None => resolve(alloc, line),
    }
}

/// What a reply holds open.
pub fn held(reply: Reply) -> Option<Standing> {
    match reply {
        Reply::Opened(standing) | Reply::Kept(standing) => Some(standing),
        other => {
            drop(other);
            None
        }
    }
}

/// Adds the line of a reply.
pub fn write_reply(alloc: Global, reply: &Reply, lines: &mut Output) -> Result<(), NoMemory> {
    match reply {
        Reply::Opened(standing) => {
            lines.opened(alloc, standing.kind(), standing.node(), standing.names())
        }
        Reply::Kept(_) => lines.text("kept\n"),
        Reply::Done => lines.text("done\n"),
        Reply::Fault(error) => lines.fault(*error),
        _ => lines.text("another reply\n"),
    }
}

/// Whether that is the line of a reply.
pub fn reads(alloc: Global, reply: &Reply, wanted: &str) -> bool {
    let mut line = Output::new(alloc);
    let written = write_reply(alloc, reply, &mut line);
    let is_wanted = line.as_slice() == wanted.as_bytes();
    drop(line);
    written.is_ok() && is_wanted
}

/// A service, and what its calls are made with.
#[derive(Drop)]
pub struct On<'a, T: Tree, R: Wait> {
    pub rt: &'a R,
    pub alloc: Global,
    pub service: &'a Service<T>,
}

impl<'a, T: Tree, R: Wait> On<'a, T, R> {
    pub fn new(rt: &'a R, alloc: Global, service: &'a Service<T>) -> On<'a, T, R> {
        On { rt, alloc, service }
    }

    /// The reply to `rename OLD NEW`, or to a path that is to be opened.
    pub fn ask<G: Gate>(&self, session: &mut Session, gate: &G, asked: &str) -> Reply {
        match request_of(self.alloc, asked) {
            Ok(request) => session.call(self.rt, self.alloc, self.service, gate, request),
            Err(NoMemory) => Reply::Fault(Errno::NoMemory),
        }
    }

    /// The reply to a Release.
    pub fn release<G: Gate>(&self, session: &mut Session, gate: &G, standing: Standing) -> Reply {
        session.call(self.rt, self.alloc, self.service, gate, release(standing))
    }

    /// The reply to the Release of what a reply holds open; Done where that is nothing.
    pub fn give_back(&self, session: &mut Session, reply: Reply) -> Reply {
        match held(reply) {
            Some(standing) => self.release(session, &NoGate, standing),
            None => Reply::Done,
        }
    }

    /// Whether a session, if there is one, is told so. What it opens is left open.
    pub fn is_told<G: Gate>(
        &self,
        session: Option<&mut Session>,
        gate: &G,
        asked: &str,
        wanted: &str,
    ) -> bool {
        let Some(session) = session else {
            return false;
        };
        let reply = self.ask(session, gate, asked);
        let told = reads(self.alloc, &reply, wanted);
        drop(reply);
        told
    }

    /// Whether a session, if there is one, opens `a` here, as it is to stand, is told so of its release on another
    /// service, and releases it here.
    pub fn opens_and_releases(
        &self,
        other: &Service<T>,
        session: Option<&mut Session>,
        wanted: &str,
    ) -> bool {
        let Some(session) = session else {
            return false;
        };
        let opened = self.ask(session, &NoGate, "a");
        let is_there = reads(self.alloc, &opened, "opened dir 2 /a\n");
        let back = match held(opened) {
            Some(standing) => {
                session.call(self.rt, self.alloc, other, &NoGate, release(standing))
            }
            None => Reply::Done,
        };
        let told = reads(self.alloc, &back, wanted);
        let done = self.give_back(session, back);
        let is_done = reads(self.alloc, &done, "done\n");
        drop(done);
        is_there && told && is_done
    }
}

/// Waits for a flag, but not for ever; and tells whether it came.
pub fn comes(flag: &AtomicU64) -> bool {
    for _ in 0..10_000_000 {
        if flag.load(Ordering::SeqCst) == 1 {
            return true;
        }
        thread::yield_now();
    }
    false
}

/// What each session does on a thread of its own.
pub trait Part: Sync {
    fn takes(&self, session: &mut Session);
}

/// Lets each of at most four sessions take its part, on threads of their own.
pub fn on_threads<R: Threads + Sync, P: Part>(rt: &R, sessions: &mut [Session], part: &P) {
    thread::for_each_mut(rt, sessions, 4, &|_, session| part.takes(session));
}
