//! What command lines ask for, what commands write, and the statuses that the program ends with; walks over both trees
//! that no script makes, faults that no script meets, and what is told of a fault.
#![tactic(auto)]

#[cfg(test)]
mod commands;
#[cfg(test)]
mod faults;
#[cfg(test)]
mod messages;
#[cfg(test)]
mod reads;
#[cfg(test)]
mod walks;
#[cfg(test)]
mod written;
