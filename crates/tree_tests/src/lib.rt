//! Paths, steps as lines, and events, by tables of texts; nodes, lists of entries, handles and the cache of entries, by
//! tables. Steps and answers on trees are the rows of `compare_trees`.
#![tactic(auto)]

#[cfg(test)]
mod built;
#[cfg(test)]
mod cache;
#[cfg(test)]
mod events;
#[cfg(test)]
mod grown;
#[cfg(test)]
mod nodes;
#[cfg(test)]
mod paths;
#[cfg(test)]
mod rows;
#[cfg(test)]
mod steps_read;
#[cfg(test)]
mod texts;
#[cfg(test)]
mod whole;
