//! What it means that steps and their answers lead a call from its beginning to its end.
//!
//! A walk, a MkdirAll, a RemoveAll and each operation on a root run in the same way. The call names one step that is
//! due. Its driver makes the step on a tree and hands in the answer, and the call is then in its next state, or at its
//! end. What the four have in common is said here, once:
//! - `specs/Told.antt`: the lines of a call. A line is a step with its answer, one whose answer found no memory, or a
//!   step that was not made.
//! - `specs/Machine.antt`: a machine says which step is due in each state, and what each answer makes of the call.
//!   `LeadsTo` says which lines lead from one turn of a machine to another, line by line.
//! - `specs/Tells.antt`: what a turn tells of every history in which the call's lines led to it.
//! - `specs/OnTree.antt`: the answer that a call is given to a step that a tree makes. `answer_to` makes one.
//!
//! Each of the four is a record `Machine` in the specs of its crate. The lemmas on all machines are in `proofs`: lines
//! that lead on from where others led; and a machine within another, as a walk within an operation, whose lines are
//! the first of the other's. A law works one small machine.
#![tactic(auto)]

mod answer;
mod laws;

pub use answer::answer_to;
pub use laws::worked_look_up;
