//! What is kept of a call between two turns.
ghost use Rattle.std.specs.Prelude.{◌≡◌, Some, None, Option, IsSome, false};
ghost use Rattle.linux_call.specs.Kept.{held_coded, kept_owns};
ghost use Rattle.linux_call.specs.declared.by_steps.state.Steps.{Steps};

mod parts;

use crate::by_steps::Steps;
use find_proc::{File, Kept as Proc, Known};
use kernel_calls::{Closes, NO_CLOSES};
use make_through_links::Making;
use open_or_make::{Course, Outcome};
use parts::Parts;
use std::alloc::Global;
use std::marker::Model;
use system_calls::{MachineFlags, Opening};

/// A call by single steps by its pointer, or none. To drop one that holds a call leaves the call's memory as it is.
#[repr(C)]
#[derive(Drop)]
pub struct Kept {
    at: *mut u8,
    alloc: Global,
    pub ghost held: { Option Steps } by { held_coded },
}

impl Model for Kept {
    ghost also_owns = { λ k. kept_owns k.alloc k.at k.held };
}

impl Kept {
    /// No call.
    pub(crate) fn empty(alloc: Global) -> Kept
        ensures { result.held ≡ None }
    {
        Kept {
            at: std::ptr::null_mut(),
            alloc,
        }
    }

    /// Keeps what is in the box.
    pub(crate) fn of_box(held: Box<Steps>) -> Kept
        ensures { result.held ≡ Some held.value }
    {
        Kept::of_parts(Parts::of(held))
    }

    /// The box of what is kept.
    pub(crate) fn into_box(self) -> Box<Steps>
        requires { IsSome self.held }
        ensures { self.held ≡ Some result.value }
    {
        self.into_parts().into_box()
    }

    fn of_parts(parts: Parts<Steps, Global>) -> Kept
        ensures { result.held ≡ Some parts.value }
    {
        let Parts { ptr, alloc } = parts;
        Kept {
            at: ptr as *mut u8,
            alloc,
        }
    }

    fn into_parts(self) -> Parts<Steps, Global>
        requires { IsSome self.held }
        ensures { self.held ≡ Some result.value }
    {
        let Kept { at, alloc } = self;
        Parts {
            ptr: at as *mut Steps,
            alloc,
        }
    }
}

/// What is kept of a call between two turns. It is zero before the first one, and left alone between two.
#[repr(C)]
#[derive(Drop)]
pub struct State {
    pub steps: Kept,
    /// What the last call of several gave, when it failed the error, and the step to blame.
    pub(crate) given: u64,
    pub(crate) opening: Opening,
    pub(crate) course: Course,
    pub(crate) making: Making,
    /// What the calls of a pass over the path gave: so many.
    pub(crate) outcomes: [Outcome; 7],
    pub(crate) heard: u32,
    /// What is known as single steps go on.
    pub(crate) known: Known,
    /// What is closed behind the change of an entry.
    pub(crate) closes: Closes,
    pub(crate) error: u32,
    /// So many answers stand. So many of them aren't of the single step that is under way.
    pub(crate) count: u32,
    pub(crate) base: u32,
    pub(crate) step: u8,
    pub(crate) begun: bool,
    /// The first answer is that of the look-up of the first path.
    pub(crate) looked: bool,
    /// What the first answer opens is the reply.
    pub(crate) opens: bool,
    /// The change of an entry is due: if no error comes, the reply is 0.
    pub(crate) changes: bool,
    /// STEPS holds a call.
    pub by_steps: bool,
}

const NO_OPENING: Opening = Opening {
    error: 0,
    finds: false,
    makes: false,
    follows: false,
    directory: false,
    asks_kind: false,
    by_path: false,
    nameless: false,
    directory_error: 0,
    other_error: 0,
    found_flags: 0,
    made_flags: 0,
};

const NO_MAKING: Making = Making {
    length: 0,
    above: 0,
    pause: 0,
    links: 0,
    tries: 0,
    file: false,
    parted: false,
    follows: false,
    may_retry: false,
};

const NO_OUTCOME: Outcome = Outcome {
    rest: 0,
    error: 0,
    descriptor: 0,
    directory: false,
};

const NOTHING_KNOWN: Known = Known {
    kept: Proc {
        file: File {
            device: 0,
            inode: 0,
            mount: 0,
        },
        fd: 0,
        there: false,
        handed_in: false,
        claimed: false,
    },
    machine: MachineFlags {
        directory: 0,
        nofollow: 0,
        direct: 0,
        largefile: 0,
    },
    has_floor: false,
};

impl State {
    /// What is kept before the first turn.
    pub fn empty(alloc: Global) -> State
        ensures { result.by_steps ≡ false }
    {
        State {
            steps: Kept::empty(alloc),
            given: 0,
            opening: NO_OPENING,
            course: open_or_make::begin(0, &NO_OPENING, true, false),
            making: NO_MAKING,
            outcomes: [NO_OUTCOME; 7],
            heard: 0,
            known: NOTHING_KNOWN,
            closes: NO_CLOSES,
            error: 0,
            count: 0,
            base: 0,
            step: 0,
            begun: false,
            looked: false,
            opens: false,
            changes: false,
            by_steps: false,
        }
    }
}
