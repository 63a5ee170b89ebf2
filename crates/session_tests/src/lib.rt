//! Sessions and workers, on one thread and on several. What a path means is openat2(2)'s RESOLVE_IN_ROOT.
#![tactic(auto)]

#[cfg(test)]
mod calling;
#[cfg(test)]
mod closing;
#[cfg(test)]
mod jobs;
#[cfg(test)]
mod opening;
#[cfg(test)]
mod race;
#[cfg(test)]
mod threads;
