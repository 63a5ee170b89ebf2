//! The /proc by which a program's calls go: how one is found, which proc(5) is believed, whose a new one is, and how
//! one of the library's own is made; each as a dialogue.
//!
//! The layer above uses `find`, `is_lost`, `hand_in` and `make_private`. No function makes a system call or takes
//! memory.
#![tactic(auto)]

mod asks;
mod handed;
mod laws;
mod private;
mod search;

pub use asks::{AT_FDCWD, File, Kept, Known, Proc, has_floor};
pub use handed::hand_in;
pub use laws::{a_proc_is_found, a_proc_is_handed_in, a_proc_is_made, the_kept_one_is_looked_at};
pub use private::make_private;
pub use search::{find, is_lost};
