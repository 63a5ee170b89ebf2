//! What the program is asked for, and how it ends: its command line, and its statuses.
//!
//! `asked` is the request that the arguments of `command` make, `script_named` the file of its script, `is_strict`
//! whether this is to be read strictly, `order_of` the turns that a text of them says, `row_line` the line that a text
//! with an entry's path means, `style_of` how a picture is drawn, and `status` the one of five that the program ends
//! with, whatever happened. `advise`, `reason_of`, `entry_text`, `position_of` and `add_no_json` tell more of a fault:
//! the limit that was met, what is wrong with the script, what it has there, and where. The program takes these from
//! here, and hands what it reads and writes to the libraries below.
#![tactic(auto)]

mod advice;
mod commands;
mod cut;
mod ending;
mod entry;
mod no_json;
mod options;
mod order;
mod position;
mod reason;
mod rows;
mod style;

pub use advice::advise;
pub use commands::{Drawing, Replaying, Request, Walking, asked, is_strict, script_named};
pub use ending::{Fault, status};
pub use entry::{entry_of, entry_text};
pub use no_json::{add_caret, add_excerpt, add_no_json};
pub use options::command;
pub use order::{begun, blamed, order_of};
pub use position::position_of;
pub use reason::reason_of;
pub use rows::{can_be_named, row_line};
pub use style::{Screen, style_of};
