//! What is asked of a search.
use layered_search::Limits;
use outcome_text::Property;

/// The most turns of a list that is gone through.
pub const TURNS_MAX: u32 = 100_000;

/// A megabyte, in bytes.
pub const MEGABYTE: u64 = 1_000_000;

/// The most megabytes that may be asked for.
pub const MEMORY_MAX: u32 = 1_000_000;

/// What is asked of a world.
#[derive(Debug, Drop)]
pub struct Asked {
    /// The actors whose replies alone make an outcome; with none the replies of all, the tree and the open handles do.
    pub named: Vec<u32>,
    /// Which lists are gone through, and how many worlds are gone through at most.
    pub limits: Limits,
    /// Whether it is told how many steps of each actor acted outside of its root.
    pub outside: bool,
    /// How many megabytes may be taken at most; with none any number.
    pub memory: Option<u32>,
    /// Which reports count, and properties of each of these, whatever actors are named.
    pub properties: Vec<Property>,
}
