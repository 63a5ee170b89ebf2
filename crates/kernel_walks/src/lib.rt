//! Calls of `root_ops` whose walks the kernel makes as a whole, by one openat2(2).
//!
//! Nobody is told the single steps of such a walk, nor the names at which its object stood. So the laws are about
//! whatever lines lead a call to its reply, where the call was told at the end of a walk that the object stands at the
//! names passed, and the history has whatever names there. `follows_at_once` says which paths the kernel may walk.
//! Where one system call found a name of a path missing, a resolve needs no single steps: `misses_at_once` says of
//! which paths, and the law `fails_at_once_tell` what holds of them. `split` divides a path into its directory's path,
//! which the kernel looks up, and its last name.
#![tactic(auto)]

mod at_once;
mod followed;
mod last_name;
mod laws;

pub use at_once::misses_at_once;
pub use followed::follows_at_once;
pub use last_name::{Parted, split};
pub use laws::{
    entries_are_changed_behind_walks, fails_at_once_tell, kernel_walks_tell, resolves_seen_below,
};
