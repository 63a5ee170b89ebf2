//! What holds of every search: a law, the contract of a function without a body.
ghost use Rattle.open_partial.specs.Promises.{TriesHold};

/// Of each whole conversation, whatever the answers are: the whole path is tried first, and then parts. What is given
/// was opened by a try of so many pieces. Either these are all of the path's, or a try of one piece more found
/// something missing: each at its own moment. What is given is open in the end, and nothing else is that a try opened.
/// It fails by the error of the last try. That says not only that something is missing; or the try was of no piece, so
/// that not even the directory is there where the path begins.
///
/// There are two tries at most of a path of one piece, or none; else they are two more than how often the pieces can be
/// halved, rounded up: 13 of a path of 4,095 bytes. Each is followed by one close at most.
pub fn tries_hold()
    ensures { TriesHold }
{}
