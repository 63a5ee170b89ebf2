//! The operations of a root, each as a call that asks for one step at a time.
//!
//! A `Call` is begun with a `Request`, asks for its `due` step and is told the answer, until it ends with a `Reply`;
//! others may change the tree in between. It walks to what the path means, or to the directory of its last name,
//! makes its one step by the handle that the walk found, and closes what it opened (mkdirat(2), unlinkat(2),
//! renameat2(2), readlinkat(2)); or it is a bulk call of `bulk_ops`. Its `start`, `due`, `take` and `pass` are exactly
//! the order of steps of `specs/Order.antt`, which is over that of a walk and those of the bulk calls, and each `take`
//! leaves fewer steps to come. `pass` is `take` in place, of most turns of a walk. Where nobody else acts,
//! `run_call` carries an operation out whole, with no box. The layers above use these contracts, and the laws
//! `five_steps_after_walks`, `calls_tell`, which says what handles a call's end leaves open, `quiet_calls_mean`,
//! which says what it comes to where nobody else acts, `calls_act`, which says what the step after the walks does
//! while others act, and `each_call_tells`, which says these three of one call, of the walk with which it begins
//! the headline, and of a bulk call what it did. `four_handles_are_enough` says when a call needs no more handles, and
//! `vain_calls_need_changes` what it takes to have call after call end in EAGAIN.
//!
//! Requests, calls and answers are also compared but for the numbers of their handles (`is_like`, `like_answers`),
//! and these are listed one by one (`push_handles`): two that are alike are the same once their handles get the same
//! numbers, which is the law `like_calls_agree`. A call looks at no number of a handle or a node, `calls_are_blind`,
//! and so tells what each call tells by any numbers, `calls_tell_by_any_numbers`. What its own lines open they close,
//! but for what is told, of no history: `opened_are_closed`.
#![tactic(auto)]

mod acts_laws;
mod aim;
mod answers;
mod begin;
mod below;
mod call;
mod copy;
mod doing;
mod driver;
mod first;
mod laws;
mod like;
mod like_laws;
mod op;
mod quiet_laws;
mod reply;

pub use acts_laws::calls_act;
pub use aim::{Aim, Change, Renaming, Wanted};
pub use below::Below;
pub use call::{Call, CallTurn};
pub use driver::run_call;
pub use laws::{
    bulk_calls_tell, calls_are_blind, calls_tell, calls_tell_by_any_numbers, each_call_tells,
    five_steps_after_walks, four_handles_are_enough, opened_are_closed, vain_calls_need_changes,
};
pub use like::{like_answers, like_roots, like_standings, push_answer_handles};
pub use like_laws::like_calls_agree;
pub use op::{Op, Request};
pub use quiet_laws::{operations_keep_trees, quiet_calls_mean, worked_operations, worked_rename};
pub use reply::Reply;
