//! A tree of directories, files and links, the single steps on it, and the histories that steps make.
//!
//! The layers above use `Tree::step`, whose contract is the step table: one function from the state of the
//! tree, the actor and the step to the answer and the state after it. The laws on that table stand on public
//! functions without a body.
#![tactic(auto)]

mod answer;
mod inode;
mod laws;
mod nodes;
mod number;
mod row;
mod snapshot;
mod step;
mod tree;

pub use answer::{Answer, Event};
pub use inode::{Inode, Object, OpenHandle, Place};
pub use laws::{
    base_tree_answers, entries_lead_to_nodes, gone_nodes_have_no_entries, handles_are_counted,
    handles_stay, histories_are_step_by_step, histories_keep_trees, legal_histories_join,
    listed_in_order, lookups_lead_to_nodes, name_below_is_standing, numbers_stay, rows_are_entries,
    steps_keep_trees, steps_leave_the_rest, tree_limits_are_numbers,
};
pub use nodes::{child, has_entries, is_dir, is_gone, object_at, parent, place_at, top};
pub use number::{Actor, HandleNo, Node};
pub use row::Row;
pub use snapshot::{Snapshot, same_nodes};
pub use step::{Kind, LentStep, Mode, Step, StepOf};
pub use tree::{HANDLES_MAX, NUMBERS_MAX, Tree};
