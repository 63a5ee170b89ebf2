//! Calls from C: whole ones, their single steps, and what is decided of one by its path.
#![tactic(auto)]

#[cfg(test)]
mod c_paths;
#[cfg(test)]
mod calls;
#[cfg(test)]
mod kernel_dialogues;
#[cfg(test)]
mod laws;
#[cfg(test)]
mod talks;
