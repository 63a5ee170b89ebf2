//! What a walk is for.
ghost use Rattle.std.specs.Prelude.{◌≡◌, ◌++◌, ◌↔◌, IsTrue, IfOk};
ghost use Rattle.root_ops.specs.Renamed.{aim_by, aim_handles};

use crate::aim::{Aim, Change, Renaming};
use path_text::{NoMemory, Path};
use tree_model::HandleNo;

// Whether the paths are equal.
fn same_path(path: &Path, other: &Path) -> bool
    ensures { IsTrue result ↔ (path.now ≡ other.now) }
{
    path.absolute == other.absolute && path.slash == other.slash && path.parts.same(&other.parts)
}

// Whether the changes are equal.
fn same_change(change: &Change, other: &Change) -> bool
    ensures { IsTrue result ↔ (change.now ≡ other.now) }
{
    match (change, other) {
        (Change::MakeFile, Change::MakeFile) => true,
        (Change::MakeDir, Change::MakeDir) => true,
        (Change::MakeLink(text), Change::MakeLink(t)) => text.same(t),
        (Change::RemoveFile, Change::RemoveFile) => true,
        (Change::RemoveDir, Change::RemoveDir) => true,
        _ => false,
    }
}

/// Whether the renames are equal.
pub(crate) fn same_renaming(renaming: &Renaming, other: &Renaming) -> bool
    ensures { IsTrue result ↔ (renaming.now ≡ other.now) }
{
    renaming.old.same(&other.old)
        && renaming.new.same(&other.new)
        && renaming.mode == other.mode
        && renaming.slash == other.slash
}

/// Whether the aims are the same but for the handle that is held.
pub(crate) fn like_aims(aim: &Aim, other: &Aim) -> bool
    ensures { IsTrue result ↔ (aim_by (λ h. 0) aim.now ≡ aim_by (λ h. 0) other.now) }
{
    match (aim, other) {
        (Aim::Opens(goal), Aim::Opens(g)) => goal == g,
        (Aim::Reads, Aim::Reads) => true,
        (Aim::Changes(change, name), Aim::Changes(c, n)) => same_change(change, c) && name.same(n),
        (Aim::WalksOn(path, renaming), Aim::WalksOn(p, r)) => {
            same_path(path, p) && same_renaming(renaming, r)
        }
        (Aim::Renames(_, renaming), Aim::Renames(_, r)) => same_renaming(renaming, r),
        _ => false,
    }
}

/// Appends the handle that is held, where one is.
pub(crate) fn push_aim_handles(aim: &Aim, into: &mut Vec<HandleNo>) -> Result<(), NoMemory>
    ensures { IfOk result (λ u. into.new.items ≡ into.old.items ++ aim_handles aim.now) }
{
    if let Aim::Renames(old, _) = aim {
        into.push(*old)?;
    }
    Ok(())
}
