//! The names that a walk has passed, from the root on, as far as they are known: behind `..` from the place on that
//! was found there. The proved call has its own, which count. Here they are looked up from the root, and the result
//! is compared with the object at hand: so wrong names cost only time.
use crate::by_steps::name::Name;
use crate::by_steps::slots::Handles;
use crate::path::front;
use find_place::BY_ROOT;
use path_text::SLASH;
use std::alloc::Global;

// A path, and a NUL.
const ROOM: usize = 4096;

const LINK: u8 = 3;

#[derive(Drop)]
pub(crate) struct Passed {
    // A slash before each name.
    names: Vec<u8>,
    // The directory at these names, or 0; and how long they are.
    handle: u64,
    length: usize,
    // The link that was opened last, its directory, its name, and how long the names are that lead to it.
    link: u64,
    link_dir: u64,
    link_length: usize,
    link_name: Name,
}

impl Passed {
    pub(crate) fn new(alloc: Global) -> Passed {
        Passed {
            names: Vec::new(alloc),
            handle: 0,
            length: 0,
            link: 0,
            link_dir: 0,
            link_length: 0,
            link_name: Name::empty(),
        }
    }

    pub(crate) fn clear(&mut self) {
        self.names.clear();
        self.handle = 0;
        self.length = 0;
        self.link = 0;
        self.link_dir = 0;
        self.link_length = 0;
        self.link_name.clear();
    }

    // How long the names are that lead to a directory's handle.
    fn base_of(&self, handles: &Handles, handle: u64) -> Option<usize> {
        if handles.at(handle).way == BY_ROOT {
            Some(0)
        } else if handle == self.handle {
            Some(self.length)
        } else {
            None
        }
    }

    // Puts a name behind the first names. They are as long as this then; or 0, if there is no room.
    fn add(&mut self, base: usize, name: &[u8]) -> usize {
        if base >= ROOM || name.len() >= ROOM || base + 1 + name.len() >= ROOM {
            return 0;
        }
        self.names.truncate(base);
        if self.names.push(SLASH).is_err() || self.names.extend_from_slice(name).is_err() {
            return 0;
        }
        self.names.len()
    }

    /// Keeps by which name the walk has come from a directory to what was opened. A link may be followed: then the
    /// walk stands in its directory still, and so that one's names stay.
    pub(crate) fn keep_name(
        &mut self,
        handles: &Handles,
        dir: u64,
        name: &[u8],
        handle: u64,
        kind: u8,
    ) {
        let passed = match self.base_of(handles, dir) {
            Some(base) => self.add(base, name),
            None => 0,
        };
        if kind == LINK {
            self.link = handle;
            self.link_dir = dir;
            self.link_length = passed;
            self.link_name.keep_whole(name);
        } else {
            self.handle = if passed > 0 { handle } else { 0 };
            self.length = passed;
        }
    }

    /// The same of a directory whose place was found: the names, a slash before each, or a slash alone.
    pub(crate) fn keep_place(&mut self, dir: u64, place: &[u8]) {
        self.names.clear();
        let fits = place.len() < ROOM;
        let kept = if fits && place.len() > 1 {
            self.names.extend_from_slice(place).is_ok()
        } else {
            fits
        };
        self.handle = if kept { dir } else { 0 };
        self.length = self.names.len();
    }

    /// The names that lead from the root to a handle, a slash before each, if they are known.
    pub(crate) fn names_of(&self, handle: u64) -> Option<&[u8]> {
        let length = if handle == self.link {
            self.link_length
        } else if handle == self.handle {
            self.length
        } else {
            0
        };
        if length > 0 {
            Some(front(self.names.as_slice(), length))
        } else {
            None
        }
    }

    /// The directory of a link's handle, and its name there, if it is the link that was opened last.
    pub(crate) fn entry_of(&self, link: u64) -> Option<(u64, &[u8])> {
        if link == self.link {
            Some((self.link_dir, self.link_name.text()))
        } else {
            None
        }
    }
}
