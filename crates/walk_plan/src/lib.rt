//! What a walk along a path still has to do: the parts to come, the names passed, the links left.
//!
//! A link's text is spliced in: its parts come before all others, since a symbolic link is resolved before
//! the rest of the path (path_resolution(7)). The layer above asks a `Plan` for its next part and says what
//! became of it, by `stayed`, `went_up`, `went_down`, `entered` or `through`; each is one word of the
//! specification, and each takes one part off.
#![tactic(auto)]

mod goal;
mod laws;
mod plan;

pub use goal::Goal;
pub use laws::{fewer_parts_are_left, link_limit_is_a_number, plans_keep_their_limits};
pub use plan::{LINKS_MAX, Plan};
