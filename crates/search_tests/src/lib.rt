//! Graphs of turns, systems whose schedules are counted by hand, keys of worlds and what is kept of them, limits of
//! searches, and what they find beside each list gone through by itself, by tables. What searches find is shown by
//! outputs of the program.
//!
//! Other tests have the scripts from here (`scenes`).
#![tactic(auto)]

#[cfg(test)]
mod components;
#[cfg(test)]
mod graphs;
#[cfg(test)]
mod keys;
#[cfg(test)]
mod lists;
pub mod scenes;
#[cfg(test)]
mod searches;
#[cfg(test)]
mod systems;
