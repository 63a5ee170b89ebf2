//! What a step's system calls gave, as the answer to a proved call.
use path_text::{Bytes, Errno, Names};
use std::alloc::Global;
use tree_model::{Answer, HandleNo, Kind, Node};

pub(crate) const LINK: u8 = 3;

/// The number of a kind, for C.
pub(crate) fn number_of(kind: Kind) -> u8 {
    match kind {
        Kind::Dir => 1,
        Kind::File => 2,
        Kind::Link => LINK,
    }
}

/// The handle's number doubles as the node's: no answer depends on the latter.
pub(crate) fn opened(handle: u64, kind: Kind) -> Answer {
    Answer::Opened {
        handle: HandleNo::new(handle),
        node: Node::new(handle),
        kind,
    }
}

/// As if there had been no memory for the step: the call closes what it opened, and ends.
pub(crate) fn unmade() -> Answer {
    Answer::Refused(Errno::NoMemory)
}

pub(crate) fn text(alloc: Global, text: &[u8]) -> Answer {
    match Bytes::from_slice(alloc, text) {
        Ok(text) => Answer::Text(text),
        Err(_) => unmade(),
    }
}

/// The names below the root, a slash before each, or a slash alone; else the object isn't below the root.
pub(crate) fn names(alloc: Global, text: &[u8]) -> Answer {
    match Names::read(alloc, text) {
        Ok(Some(names)) => Answer::Names(names),
        Ok(None) => Answer::NotBelow,
        Err(_) => unmade(),
    }
}

/// The names of a directory's entries, in the same way.
pub(crate) fn listed(alloc: Global, text: &[u8]) -> Answer {
    match Names::read(alloc, text) {
        Ok(Some(names)) => Answer::Listed(names),
        Ok(None) => Answer::Refused(Errno::BadHandle),
        Err(_) => unmade(),
    }
}
