//! The handles of a proved call: each has a slot with its descriptor.
use std::alloc::Global;

/// The root's own handle: the first of a call, in the first slot.
pub(crate) const ROOT: u64 = 0x1_0000_0000;

const FEW: usize = 8;

// In place of a descriptor.
const NO_DESCRIPTOR: u32 = 0xffff_ffff;

/// What is kept for a handle.
#[derive(Clone, Copy)]
pub(crate) struct Slot {
    /// None where it was let go.
    pub fd: Option<u32>,
    /// While a tree is removed: how far below the directory that has the tree.
    pub depth: u32,
    /// So many bytes of names the call holds for it.
    pub listed: usize,
    /// How it was opened (`find_place`).
    pub way: u8,
    /// 1 a directory, 2 a file, 3 a link.
    pub kind: u8,
    /// Of a free one: the next free one.
    pub next: Option<usize>,
}

impl Slot {
    pub(crate) fn new(fd: Option<u32>, kind: u8, way: u8) -> Slot {
        Slot {
            fd,
            depth: 0,
            listed: 0,
            way,
            kind,
            next: None,
        }
    }
}

#[derive(Drop)]
pub(crate) struct Handles {
    slots: Vec<Slot>,
    // The first slot that is free again.
    free: Option<usize>,
    // The last handle's number above its slot.
    serial: u32,
}

fn place_of(handle: u64) -> usize {
    (handle & 0xffff_ffff) as usize
}

impl Handles {
    pub(crate) fn new(alloc: Global) -> Handles {
        Handles {
            slots: Vec::new(alloc),
            free: None,
            serial: 0,
        }
    }

    pub(crate) fn clear(&mut self) {
        self.slots.clear();
        self.free = None;
        self.serial = 0;
    }

    /// Whether there is room for one more handle.
    pub(crate) fn reserve(&mut self) -> bool {
        self.free.is_some() || self.slots.len() < self.slots.capacity() || self.grow()
    }

    fn grow(&mut self) -> bool {
        let few = self.slots.len().max(FEW);
        self.slots.try_reserve(few).is_ok()
    }

    /// A handle on what was opened, for which room was made. Its number counts up above its slot: none comes twice in
    /// a call.
    pub(crate) fn put(&mut self, slot: Slot) -> u64 {
        let at = match self.free {
            Some(at) => {
                self.free = self.at(at as u64).next;
                self.set(at as u64, slot);
                at
            }
            None => {
                let at = self.slots.len();
                let _ = self.slots.push(slot);
                at
            }
        };
        self.serial = self.serial.wrapping_add(1);
        self.serial as u64 * ROOT + (at & 0xffff_ffff) as u64
    }

    /// The slot of a handle.
    pub(crate) fn at(&self, handle: u64) -> Slot {
        match self.slots.get(place_of(handle)) {
            Some(slot) => *slot,
            None => Slot::new(None, 0, 0),
        }
    }

    /// The handle's descriptor; one that is none, where it was let go.
    pub(crate) fn fd(&self, handle: u64) -> u32 {
        self.at(handle).fd.unwrap_or(NO_DESCRIPTOR)
    }

    pub(crate) fn set(&mut self, handle: u64, slot: Slot) {
        match self.slots.get_mut(place_of(handle)) {
            Some(place) => *place = slot,
            None => (),
        }
    }

    /// The handle's descriptor was closed, or was let go.
    pub(crate) fn close(&mut self, handle: u64) {
        let closed = Slot {
            fd: None,
            next: self.free,
            ..self.at(handle)
        };
        self.set(handle, closed);
        self.free = Some(place_of(handle));
    }
}
