//! Conversations as rows of text: what is due, and what it gave.
pub(crate) use fixtures::rows::{name_of, number};
use std::alloc::{AllocError, Global};
use std::process::Abort;

/// The word of this number, from 1 on.
pub(crate) fn word_of<'w>(number: u8, words: &'w str) -> &'w str {
    words
        .split(' ')
        .nth(usize::from(number).saturating_sub(1))
        .unwrap_or("?")
}

/// What answers come to.
pub(crate) trait Room: Sized {
    /// Begun by the words before a conversation.
    fn begun(alloc: Global, words: &'static str) -> Self;

    /// What is due by the answers so far.
    fn due(&self, alloc: Global) -> Result<String, AllocError>;

    /// Takes an answer, or nothing of words that are none.
    fn take(&mut self, gave: &'static str) -> Option<()>;

    /// In the end, what else must hold.
    fn is_right(&mut self) -> bool {
        true
    }
}

/// Each part of a talk, `DUE = GAVE`, is due by the answers before it; the last part may have no answer.
pub(crate) fn goes<R: Room>(
    rt: &impl Abort,
    alloc: Global,
    room: &mut R,
    talk: &'static str,
) -> Result<(), AllocError> {
    for part in talk.split("; ") {
        let (wanted, gave) = part.split_once(" = ").unwrap_or((part, ""));
        let due = room.due(alloc)?;
        assert!(rt; due.as_str() == wanted, "{talk}: {due}");
        let is_taken = gave.is_empty() || room.take(gave).is_some();
        assert!(rt; is_taken, "{talk}: {gave}");
    }
    Ok(())
}

/// Each row is a conversation, by all the words before it, or a comment.
pub(crate) fn all_go<R: Room + Drop>(
    rt: &impl Abort,
    alloc: Global,
    rows: &'static str,
) -> Result<(), AllocError> {
    for row in rows.lines() {
        let (words, talk) = row.split_once(": ").unwrap_or(("", row));
        for words in words.split(", ") {
            if !row.starts_with('#') {
                let mut room = R::begun(alloc, words);
                goes(rt, alloc, &mut room, talk)?;
                assert!(rt; room.is_right(), "{row}");
            }
        }
    }
    Ok(())
}

/// A room for a path has so many bytes.
pub(crate) const ROOM: usize = 4096;

static LETTERS: [u8; ROOM] = [b'a'; ROOM];

/// A room with this path at its beginning.
pub(crate) fn laid(path: &str) -> [u8; ROOM] {
    let mut room = [0; ROOM];
    let length = path.len().min(ROOM);
    room[..length].copy_from_slice(&path.as_bytes()[..length]);
    room
}

/// The path of so many bytes, or how many they are.
pub(crate) fn shown(alloc: Global, room: &[u8], length: usize) -> Result<String, AllocError> {
    if length > 99 {
        return format!(in alloc; "{length} bytes");
    }
    String::from_utf8_lossy(alloc, room.get(..length).unwrap_or(b"?"))
}

/// So many letters, 4,096 at most.
pub(crate) fn letters(count: &str) -> Option<&'static [u8]> {
    LETTERS.get(..count.parse().ok()?)
}
