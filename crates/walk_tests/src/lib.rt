//! Handles' states, plans, walks, refusals and the plain resolution, by tables of paths and answers; and callers of the
//! resolver, each called.
#![tactic(auto)]

#[cfg(test)]
mod callers;
#[cfg(test)]
mod plain;
#[cfg(test)]
mod plans;
#[cfg(test)]
mod refusals;
#[cfg(test)]
mod states;
#[cfg(test)]
mod walks;
#[cfg(test)]
mod words;
