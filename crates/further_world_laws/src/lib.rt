//! Further laws of worlds, which no crate above uses.
//!
//! A world that is given up after some turns is left as one that ran to its end, in which each actor had planned just
//! the calls that it had begun (`specs/GivenUpWorlds.antt`). So the laws of reports of `race_core` speak of it, too.
//! And whatever a call under way had opened is closed then.
//!
//! A call tells of a want of memory only where one of its turns lacked memory (`specs/WantCauses.antt`).
//!
//! What all schedules of a world come to has one answer but for the order of its classes (`specs/OneAnswer.antt`).
//! Where they are parted by the turns that they begin with, the answers for the parts make it (`specs/Parts.antt`).
//!
//! The laws stand on what `World::new` and `World::turn` of `race_core` ensure, and on what its `specs/GivenUp.antt`
//! says of the calls that `World::give_up` gives up. That function drops the tree, so its own contract can name
//! nothing of what it left.
#![tactic(auto)]

mod answer_laws;
mod laws;
mod want_laws;

pub use answer_laws::{
    all_beginnings_cover, answers_are_one, merged_parts_are_whole, searches_tell_parts,
};
pub use laws::{given_up_closes_all, given_up_is_reported};
pub use want_laws::want_has_a_cause;
