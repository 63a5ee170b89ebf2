//! The name of an entry, which is kept: it has 255 bytes at most.
use crate::path::front;

const ROOM: usize = 256;

#[derive(Clone, Copy)]
pub(crate) struct Name {
    bytes: [u8; 256],
    length: usize,
}

impl Name {
    pub(crate) fn empty() -> Name {
        Name {
            bytes: [0; 256],
            length: 0,
        }
    }

    /// Keeps as much of a text as there is room for.
    pub(crate) fn keep(&mut self, text: &[u8]) {
        let kept = front(text, ROOM);
        self.length = kept.len();
        if kept.len() <= ROOM {
            self.bytes[..kept.len()].copy_from_slice(kept);
        }
    }

    /// The same; of a text that is no name, since there is no room for it, nothing is kept.
    pub(crate) fn keep_whole(&mut self, text: &[u8]) {
        if text.len() < ROOM {
            self.keep(text);
        } else {
            self.clear();
        }
    }

    pub(crate) fn clear(&mut self) {
        self.length = 0;
    }

    pub(crate) fn text(&self) -> &[u8] {
        front(&self.bytes, self.length)
    }
}
