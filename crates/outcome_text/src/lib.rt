//! A survey of schedules as text: what it is asked, what it tells, and why it tells nothing. Nothing is searched here.
//!
//! A *full list* of turns is one after which no actor has anything left to do. Whoever goes through them knows of each
//! outcome how many full lists lead to it, the least of them, and its report. `told_of` is what is told of one, and
//! `outcome_text` the text of all: a block for each outcome, with a schedule that leads to it, and then whether each
//! property that was asked for holds of every one. Where conditions are asked for, only the lists whose report has the
//! line of each one count (`conditions.rt`). `merge` makes one text of the outcomes of several beginnings.
//!
//! `explore_command` uses these contracts for what a search finds. `command_line` uses the types alone: the options of
//! `explore`, and its faults.
#![tactic(auto)]

mod apart;
mod asked;
mod begins;
mod changes;
mod conditions;
mod counts;
mod fault;
mod laws;
mod looks;
mod merging;
mod nearby;
mod order;
mod outcome;
mod part;
mod property;
mod ranked;
mod schedule;
mod survey;
mod tellable;
mod telling;
mod writing;

pub use asked::{OptionFault, Options};
pub use begins::beside;
pub use counts::COUNT_MAX;
pub use fault::{ExploreFault, SearchFault};
pub use laws::{
    count_limit_is_a_number, pieces_tell_the_whole, replies_have_heads, same_reports_are_told_alike,
};
pub use merging::{MergeFault, merge};
pub use part::Part;
pub use property::{Property, Rule, read_property};
pub use ranked::{Survey, told_in_order};
pub use schedule::{before_tail, schedule_words};
pub use survey::{Frame, Told, all_hold};
pub use tellable::first_untold;
pub use telling::{Found, told_of};
