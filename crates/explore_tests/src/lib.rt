//! What searches print: surveys as text, parts of searches and what they make together, limits of memory, and options
//! read, by tables. The scripts are those of `search_tests`.
#![tactic(auto)]

#[cfg(test)]
mod gauges;
#[cfg(test)]
mod laws;
#[cfg(test)]
mod merges;
#[cfg(test)]
mod options;
#[cfg(test)]
mod parts;
#[cfg(test)]
mod surveys;
