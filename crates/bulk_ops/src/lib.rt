//! Calls that make or remove many entries, one step at a time, while others change the tree in between.
//!
//! `MkdirAll` makes what is missing of a path (`mkdir -p`), and `RemoveAll` removes an entry with all that is below
//! it (`rm -r`). Each asks for one step at a time and is told its answer, as a `Walk` does. Their `start`, `due` and
//! `take` are exactly the orders of steps of `specs/MakeAllOrder.antt` and `specs/RemoveAllOrder.antt`, and each
//! `take` leaves fewer steps to come: none that clears comes after `CLEARING_STEPS_MAX` of them. What a call did,
//! and what its end tells, in every legal history are the laws `makes_tell` and `remove_all_tells`, stated in
//! `specs/MakeAllTells.antt` and `specs/RemoveAllTells.antt`; `start` and `take` tell it themselves, by their clause
//! `tells`. What they mean where nobody else acts are the laws `quiet_makes_mean` and `quiet_remove_all`, stated in
//! `specs/MakeAllQuiet.antt` and `specs/RemoveAllQuiet.antt`: the chain of directories that is missing is made, or a
//! part of it where something ran short; the target goes with every row below it. The layers above use the orders of
//! steps and these laws. `is_like` compares two calls but for the numbers of their handles, and `push_handles` lists
//! these, as `specs/Renamed.antt` has it: the law `like_bulk_calls_agree` says that like calls are told apart by
//! these alone.
#![tactic(auto)]

mod held;
mod like_laws;
mod make_all;
mod make_all_laws;
mod remove_all;
mod turn;

pub use like_laws::like_bulk_calls_agree;
pub use make_all::MkdirAll;
pub use make_all_laws::{
    makes_tell, quiet_makes_mean, raced_makes_need_a_change, steps_after_the_walk,
    worked_make_call, worked_makes,
};
pub use remove_all::{
    CLEARING_STEPS_MAX, RemoveAll, clearing_limit_is_a_number, quiet_remove_all,
    raced_removals_need_a_change, remove_all_tells,
};
pub use turn::BulkTurn;
