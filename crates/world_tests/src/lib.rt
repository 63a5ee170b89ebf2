//! Books, and worlds on both trees, by tables of steps, plans, turns and what reports tell; reports, their renumbering,
//! pictures, JSON and pages of runs, by tables of lines.
#![tactic(auto)]

#[cfg(test)]
mod books;
#[cfg(test)]
mod copies;
#[cfg(test)]
mod json;
#[cfg(test)]
mod like;
#[cfg(test)]
mod pictures;
#[cfg(test)]
mod planned;
#[cfg(test)]
mod plans;
#[cfg(test)]
mod quoted;
#[cfg(test)]
mod refused;
#[cfg(test)]
mod releases;
#[cfg(test)]
mod renaming;
#[cfg(test)]
mod reports;
#[cfg(test)]
mod schedules;
#[cfg(test)]
mod seats;
#[cfg(test)]
mod told;
#[cfg(test)]
mod worlds;
