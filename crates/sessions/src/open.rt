//! Opening a service: a handle for each root, and a book.
ghost use Rattle.std.specs.Prelude.{◌≡◌, ◌≤◌, ◌+◌, ◌++◌, ◌⊎◌, [], ◌∷◌, None, Some, Ok, Err, OnOk, OnErr, IfOk, IfErr, IfSome, IfNone, length};
ghost use Rattle.tree_model.specs.Steps.{outcome};
ghost use Rattle.tree_model.specs.declared.step.StepOf.TheVariants.{Close as CloseStep};
ghost use Rattle.race_core.specs.Book.{opened_book};
ghost use Rattle.sessions.specs.Session.{begun};
ghost use Rattle.sessions.specs.Open.{root_cause, refused_book, granted, book_cause, cause_after, opening_cause, first_sessions, IsAsItWas, TakesBack, IsOpened};

use crate::service::Service;
use crate::session::Session;
use crate::shared::SharedBook;
use handles::Owner;
use path_text::{Errno, Names, NoMemory};
use race_core::Book;
use std::alloc::Global;
use std::sync::Mutex;
use tree_model::{Actor, HandleNo, Snapshot, StepOf, Tree};

/// The most sessions that a service has.
pub const SESSIONS_MAX: usize = 64;

/// Why a service wasn't opened.
#[derive(Clone, Copy, Debug, PartialEq, Eq)]
pub enum OpenCause {
    /// More than 64 roots.
    TooManySessions,
    /// The root at this place isn't there.
    RootNotFound(usize),
    /// The root at this place, or what it stands in, is no directory.
    RootNotDir(usize),
    /// The actor of this number holds as many handles as it may, or their numbers are used up.
    TooMany(usize),
    /// More lines than 1,000,000.
    Invalid,
    /// Fewer lines than open handles.
    BookFull,
    /// Memory was refused.
    NoMemory,
}

impl OpenCause {
    // Why the root at a place was refused.
    fn of_root(at: usize, error: Errno) -> OpenCause
        ensures { result ≡ root_cause at error }
    {
        match error {
            Errno::NotFound => OpenCause::RootNotFound(at),
            Errno::NotDir => OpenCause::RootNotDir(at),
            Errno::TooMany => OpenCause::TooMany(at),
            _ => OpenCause::NoMemory,
        }
    }

    // Why a book was refused.
    fn of_book(error: Errno) -> OpenCause
        ensures { result ≡ refused_book error }
    {
        match error {
            Errno::Invalid => OpenCause::Invalid,
            Errno::BookFull => OpenCause::BookFull,
            _ => OpenCause::NoMemory,
        }
    }
}

/// Why a service wasn't opened, and the tree, whose entries and open handles are as they were.
#[derive(Debug, Drop)]
pub struct OpenRefusal<T> {
    pub cause: OpenCause,
    pub tree: T,
}

// A session more, at a root in the tree.
fn add_session<T: Tree>(
    alloc: Global,
    tree: &T,
    sessions: &mut Vec<Session>,
    owner: Owner,
    root: HandleNo,
) -> Result<(), NoMemory>
    ensures { OnOk result (sessions.new.items ≡ sessions.old.items ++ begun owner root ∷ []) }
{
    sessions.push(Session::begin(alloc, tree, owner, root)?)?;
    Ok(())
}

// The book of a tree, and the tree as it is opened.
fn open_book<T: Tree>(
    alloc: Global,
    tree: T,
    lines: u32,
) -> Result<(Book<T>, Snapshot), OpenRefusal<T>>
    ensures opened { IfOk result (λ opened. (opened.1 ≡ T.state tree) × (book_cause (T.state tree) lines ≡ None)) }
    ensures book { IfOk result (λ opened. opened.0 ≡ opened_book opened.1 lines) }
    ensures refused { IfErr result (λ refused. (refused.tree ≡ tree)
        × ((book_cause (T.state tree) lines ≡ Some refused.cause) ⊎ (refused.cause ≡ OpenCause.NoMemory))) }
{
    let Ok(opening) = tree.snapshot(alloc) else {
        let cause = OpenCause::NoMemory;
        return Err(OpenRefusal { cause, tree });
    };
    match Book::open(alloc, tree, lines) {
        Ok(book) => Ok((book, opening)),
        Err(refusal) => Err(OpenRefusal {
            cause: OpenCause::of_book(refusal.cause),
            tree: refusal.tree,
        }),
    }
}

// Closes a handle that was granted.
fn take_back<T: Tree>(alloc: Global, tree: &mut T, actor: Actor, handle: HandleNo)
    ensures { T.state tree.new ≡ (outcome (T.state tree.old) actor (CloseStep handle)).after }
{
    let _ = tree.step(alloc, actor, &StepOf::Close(handle));
}

// The first session, and the others.
fn first_session(sessions: &[Session]) -> Option<(&Session, &[Session])>
    ensures some { IfSome result (λ found. sessions.now ≡ found.0.now ∷ found.1.now) }
    ensures none { IfNone result (sessions.now ≡ []) }
{
    sessions.split_first()
}

// Takes back what was granted to these sessions, the last one's first.
fn take_back_all<T: Tree>(alloc: Global, tree: &mut T, sessions: &[Session])
    ensures { TakesBack sessions.now (T.state tree.old) (T.state tree.new) }
{
    let Some((first, others)) = first_session(sessions) else {
        return;
    };
    take_back_all(alloc, tree, others);
    take_back(alloc, tree, first.owner.actor, first.root);
}

// The same as `open_book`, and where it fails, what was granted to the sessions is taken back.
fn open_book_of<T: Tree>(
    alloc: Global,
    tree: T,
    sessions: &[Session],
    lines: u32,
) -> Result<(Book<T>, Snapshot), OpenRefusal<T>>
    ensures opened { IfOk result (λ opened. (opened.1 ≡ T.state tree) × (book_cause (T.state tree) lines ≡ None)) }
    ensures book { IfOk result (λ opened. opened.0 ≡ opened_book opened.1 lines) }
    ensures cause { IfErr result (λ refused.
        (book_cause (T.state tree) lines ≡ Some refused.cause) ⊎ (refused.cause ≡ OpenCause.NoMemory)) }
    ensures tree { IfErr result (λ refused. TakesBack sessions.now (T.state tree) (T.state refused.tree)) }
{
    match open_book(alloc, tree, lines) {
        Ok(opened) => Ok(opened),
        Err(refusal) => {
            let OpenRefusal { cause, mut tree } = refusal;
            take_back_all(alloc, &mut tree, sessions);
            Err(OpenRefusal { cause, tree })
        }
    }
}

// The first root, and the others.
fn first_root(roots: &[Names]) -> Option<(&Names, &[Names])>
    ensures some { IfSome result (λ found. roots.now ≡ found.0.now ∷ found.1.now) }
    ensures none { IfNone result (roots.now ≡ []) }
{
    roots.split_first()
}

// Grants the roots from that place on, each to the actor of its place. Where it fails, what was granted here is taken
// back. All happens on one tree: a tree in each frame would take much stack.
fn grant_from<T: Tree>(
    alloc: Global,
    tree: &mut T,
    roots: &[Names],
    tag: u64,
    place: usize,
    sessions: &mut Vec<Session>,
) -> Result<(), OpenCause>
    requires { place + length roots.now ≤ 64 }
    ensures granted { OnOk result (granted (T.state tree.old) place roots.now ≡ Ok (T.state tree.new)) }
    ensures sessions { OnOk result (sessions.new.items
        ≡ sessions.old.items ++ first_sessions tag place (length (T.state tree.old).handles) roots.now) }
    ensures cause { IfErr result (λ cause.
        (granted (T.state tree.old) place roots.now ≡ Err cause) ⊎ (cause ≡ OpenCause.NoMemory)) }
    ensures tree { OnErr result (IsAsItWas (T.state tree.old) (T.state tree.new)) }
{
    let Some((names, others)) = first_root(roots) else {
        return Ok(());
    };
    let actor = Actor::new(place as u32);
    let handle = match tree.grant(alloc, actor, names) {
        Ok(handle) => handle,
        Err(error) => return Err(OpenCause::of_root(place, error)),
    };
    if add_session(alloc, tree, sessions, Owner { tag, actor }, handle).is_err() {
        take_back(alloc, tree, actor, handle);
        return Err(OpenCause::NoMemory);
    }
    match grant_from(alloc, tree, others, tag, place + 1, sessions) {
        Ok(()) => Ok(()),
        Err(cause) => {
            take_back(alloc, tree, actor, handle);
            Err(cause)
        }
    }
}

impl<T: Tree> Service<T> {
    /// A service of that many sessions as there are roots, over a tree and with a book of that many lines. The tree
    /// gets a handle for each root, and is else as it was given. Session i has the tag, the actor i, and the handle
    /// on the directory at the names in place i from the top, no link followed; its log is empty. The caller keeps
    /// the tags of services distinct.
    ///
    /// Errors, in this order: TooManySessions over 64 roots; for the first root that is refused RootNotFound,
    /// RootNotDir or TooMany with its place; Invalid over 1,000,000 lines; BookFull for fewer lines than open
    /// handles; NoMemory, which may come in place of any but the first. The tree comes back with its entries, and
    /// what was granted is closed.
    pub fn open(
        alloc: Global,
        tree: T,
        roots: &[Names],
        tag: u64,
        lines: u32,
    ) -> Result<(Service<T>, Vec<Session>), OpenRefusal<T>>
        ensures opened { IfOk result (λ opened. (opening_cause (T.state tree) roots.now lines ≡ None)
            × IsOpened (T.state tree) roots.now tag lines opened.0 opened.1.items) }
        ensures cause { IfErr result (λ refused. (opening_cause (T.state tree) roots.now lines ≡ Some refused.cause)
            ⊎ (refused.cause ≡ OpenCause.NoMemory)) }
        ensures tree { IfErr result (λ refused. IsAsItWas (T.state tree) (T.state refused.tree)) }
    {
        if roots.len() > SESSIONS_MAX {
            let cause = OpenCause::TooManySessions;
            return Err(OpenRefusal { cause, tree });
        }
        let (mut tree, mut sessions) = (tree, Vec::new(alloc));
        if let Err(cause) = grant_from(alloc, &mut tree, roots, tag, 0, &mut sessions) {
            return Err(OpenRefusal { cause, tree });
        }
        let (book, opening) = open_book_of(alloc, tree, &sessions, lines)?;
        let service = Service {
            book: Mutex::new(SharedBook::new(book)),
            tag,
            count: roots.len() as u32,
            lines,
            opening,
        };
        Ok((service, sessions))
    }
}
