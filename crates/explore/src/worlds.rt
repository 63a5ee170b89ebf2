//! Where each schedule begins, and worlds gone through from there by lists of turns.
pub(crate) mod beginnings;
pub(crate) mod replayed;
pub(crate) mod scene;
