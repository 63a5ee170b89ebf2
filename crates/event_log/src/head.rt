//! What the line of an answer begins with.
use path_text::Errno;
use tree_model::{HandleNo, Kind, Node};

/// An answer without its names, and with the bytes of its text where they lie, as in a buffer of many.
#[derive(Clone, Copy, Debug)]
pub enum AnswerHead<'a> {
    Opened {
        handle: HandleNo,
        node: Node,
        kind: Kind,
    },
    Text(&'a [u8]),
    Names,
    NotBelow,
    /// How many names there are.
    Listed(usize),
    Done,
    Refused(Errno),
}
