//! Systems of actors whose schedules are searched: three, small and proved, to be copied.
//!
//! `plain.rt` has what they share. A `PlainSystem` is one whose states are values that the search keeps, and no two of
//! which are alike; `Whole` makes it a `TransitionSystem` of `layered_search`. Its laws are proved once, in
//! `specs/Plain.antt`.
//!
//! - `counter.rt`: actors add one to a number that they share, by a read and a write. Some additions are lost.
//! - `lock.rt`: they take a lock before they count. None is lost.
//! - `philosophers.rt`: philosophers take two forks each. Some schedules end where nobody can take another.
#![tactic(auto)]

mod counter;
mod lock;
mod philosophers;
mod plain;
mod rows;

pub use counter::{Counter, Counting};
pub use lock::{Lock, Locking};
pub use philosophers::{Meal, Philosophers, Table};
pub use plain::{PlainSystem, Whole};
pub use rows::ROW;
