//! What comes before the first question, as a walk asks for the place of what it holds.
ghost use Rattle.std.specs.Prelude.{◌≡◌};
ghost use Rattle.find_place.specs.Held.{are_looked_up, before_questions, behind_look_up};

/// The object is the root itself, by a second descriptor.
pub const BY_ROOT: u8 = 0;

/// A name led to it.
pub const BY_NAME: u8 = 1;

/// The kernel opened it by its names from the root, with RESOLVE_BENEATH (openat2(2)), right before.
pub const SEEN_BELOW: u8 = 2;

/// `..` led to it.
pub const BY_PARENT: u8 = 3;

/// It stands at a slash alone.
pub const AT_ROOT: u8 = 1;

/// The names that the walk passed are looked up from the root, with RESOLVE_BENEATH (openat2(2)).
pub const LOOK_UP: u8 = 2;

/// It stands at these names.
pub const AT_NAMES: u8 = 3;

/// It is asked where it stands: `begin`.
pub const ASK: u8 = 4;

/// What is known of what a walk holds, as its place is due.
#[repr(C)]
#[derive(Clone, Copy, Debug, PartialEq, Eq)]
pub struct Held {
    /// How it was opened: BY_ROOT, BY_NAME, SEEN_BELOW or BY_PARENT.
    pub way: u8,
    /// `..` of another directory led to it, by whatever it was opened.
    pub above: bool,
    /// It is a directory.
    pub directory: bool,
    /// The names are known that the walk passed to it.
    pub named: bool,
    /// The kernel's own check is enough, by which the object is below the root, at whichever names.
    pub below: bool,
}

// What `..` led to is asked where it stands, since the walk goes on from there by the names.
fn are_looked_up(held: &Held) -> bool
    ensures { result ≡ are_looked_up held.now }
{
    held.named && !held.above && (held.below || !held.directory)
}

/// What comes first: AT_ROOT, LOOK_UP, AT_NAMES or ASK. Takes no memory.
pub fn before_questions(held: &Held) -> u8
    ensures { result ≡ before_questions held.now }
{
    if held.way == BY_ROOT {
        AT_ROOT
    } else if !are_looked_up(held) {
        ASK
    } else if held.way == BY_NAME {
        LOOK_UP
    } else if held.way == SEEN_BELOW && held.below {
        AT_NAMES
    } else {
        ASK
    }
}

/// What comes behind LOOK_UP, by whether it has found the object: AT_NAMES or ASK. Takes no memory.
pub fn behind_look_up(held: &Held, found: bool) -> u8
    ensures { result ≡ behind_look_up held.now found }
{
    if found && held.below { AT_NAMES } else { ASK }
}
