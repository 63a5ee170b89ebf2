//! The layer that a search goes on from, and the next one.

pub(crate) mod edges;
pub(crate) mod ends;
pub(crate) mod layer;
pub(crate) mod passing;
pub(crate) mod table;
pub(crate) mod transitions;
pub(crate) mod visited_set;
