//! What is asked of the kernel and what its answers say, by worked answers: texts, records and numbers; where an object
//! stands; files that are opened and made, paths opened in part, trees removed and directories listed.
#![tactic(auto)]

#[cfg(test)]
mod callings;
#[cfg(test)]
mod courses;
#[cfg(test)]
mod held;
#[cfg(test)]
mod laws;
#[cfg(test)]
mod listings;
#[cfg(test)]
mod makings;
#[cfg(test)]
mod objects;
#[cfg(test)]
mod openings;
#[cfg(test)]
mod places;
#[cfg(test)]
mod placings;
#[cfg(test)]
mod procs;
#[cfg(test)]
mod records;
#[cfg(test)]
mod removals;
#[cfg(test)]
mod rows;
#[cfg(test)]
mod searches;
#[cfg(test)]
mod steps;
#[cfg(test)]
mod talk;
