//! MkdirAll and RemoveAll among others' steps; calls on both trees, and calls that differ in their handles' numbers
//! alone; all by tables.
#![tactic(auto)]

#[cfg(test)]
mod bulk_calls;
#[cfg(test)]
mod bulk_rows;
#[cfg(test)]
mod calls;
#[cfg(test)]
mod copies;
#[cfg(test)]
mod like;
#[cfg(test)]
mod mkdir_all;
#[cfg(test)]
mod pairs;
#[cfg(test)]
mod passes;
#[cfg(test)]
mod remove_all;
#[cfg(test)]
mod requests;
