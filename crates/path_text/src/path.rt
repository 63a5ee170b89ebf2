//! Path texts and their parts.

use crate::errno::Errno;
use crate::name::Name;
use crate::parts::Parts;
use std::alloc::Global;
use std::marker::Model;

/// The longest path or link text, in bytes (PATH_MAX of limits.h, less the final NUL).
pub const TEXT_MAX: usize = 4095;

/// The most parts that a text of `TEXT_MAX` bytes has.
pub const PARTS_MAX: usize = 2048;

/// A path as it is read from a text. Contracts see it as a `Reading`: the same three fields. It may hold more
/// than a text can spell: its parts, printed with slashes, may come to more than `TEXT_MAX` bytes.
#[derive(Debug, Drop)]
pub struct Path {
    /// Whether the text begins with a slash.
    pub absolute: bool,
    /// The parts, of which there are at most `PARTS_MAX`.
    pub parts: Parts,
    /// Whether the text ends in a slash that gave the last part, a `Cur`.
    pub slash: bool,
}

impl Model for Path {
    ghost use Rattle.path_text.specs.Reading.{Reading, IsReading};

    ghost Value = { Reading };

    ghost view = { λ p. record { absolute = p.absolute; parts = p.parts; slash = p.slash } };

    ghost invariant = { λ p. IsReading (record { absolute = p.absolute; parts = p.parts; slash = p.slash }) };
}

/// What an operation does with a path that ends in a slash.
#[derive(Clone, Copy, Debug, PartialEq, Eq)]
pub enum Rule {
    /// The slash is taken away.
    Drop,
    /// The path is refused.
    Refuse,
}

/// A path taken apart into the directory and the name of an entry in it.
#[derive(Debug, Drop)]
pub struct Split {
    /// The path of the directory, without the slash at its end.
    pub dir: Path,
    /// The entry's name.
    pub name: Name,
    /// Whether the path ended in a slash.
    pub slash: bool,
}
