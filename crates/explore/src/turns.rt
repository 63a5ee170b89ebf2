//! What turns come to, remembered.
pub(crate) mod known_turns;
pub(crate) mod memo;
pub(crate) mod world_counts;
