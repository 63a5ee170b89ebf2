//! Outcomes of one world whose new nodes are numbered anew, in the order in which they are met.
//!
//! Which number a node gets that is made in a run depends on what others made before it. Two outcomes count as one
//! where the one becomes the other when new nodes change numbers, and those of the opening tree keep theirs.
//! `renumber` numbers the new nodes of an outcome anew, and the layers above compare what it gives. Its contract,
//! `IsRenumbered` of `specs/Renumbered.antt`, says that this is the same outcome by other numbers of new nodes: so
//! what is equal then is alike. That alike outcomes become equal rests on the order in which nodes are met
//! (`meeting.rt`). It is tested, and not proved.
#![tactic(auto)]

mod copies;
mod exchange;
mod meeting;
mod whole;

pub use whole::{Renumbered, renumber};
