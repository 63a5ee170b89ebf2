//! Copies of what walks are for.
ghost use Rattle.std.specs.Prelude.{◌≡◌, IfOk};

use crate::aim::{Aim, Change, Renaming};
use path_text::{NoMemory, Path};
use std::alloc::Global;

impl Aim {
    // An equal aim.
    pub(crate) fn copy(&self, alloc: Global) -> Result<Aim, NoMemory>
        ensures { IfOk result (λ copy. copy ≡ self.now) }
    {
        Ok(match self {
            Aim::Opens(goal) => Aim::Opens(*goal),
            Aim::Reads => Aim::Reads,
            Aim::Changes(change, name) => Aim::Changes(change.copy(alloc)?, name.copy(alloc)?),
            Aim::WalksOn(path, renaming) => {
                Aim::WalksOn(copy_path(alloc, path)?, renaming.copy(alloc)?)
            }
            Aim::Renames(old, renaming) => Aim::Renames(*old, renaming.copy(alloc)?),
        })
    }
}

impl Change {
    // An equal change.
    fn copy(&self, alloc: Global) -> Result<Change, NoMemory>
        ensures { IfOk result (λ copy. copy ≡ self.now) }
    {
        Ok(match self {
            Change::MakeFile => Change::MakeFile,
            Change::MakeDir => Change::MakeDir,
            Change::MakeLink(text) => Change::MakeLink(text.copy(alloc)?),
            Change::RemoveFile => Change::RemoveFile,
            Change::RemoveDir => Change::RemoveDir,
        })
    }
}

impl Renaming {
    // An equal rename.
    pub(crate) fn copy(&self, alloc: Global) -> Result<Renaming, NoMemory>
        ensures { IfOk result (λ copy. copy ≡ self.now) }
    {
        Ok(Renaming {
            old: self.old.copy(alloc)?,
            new: self.new.copy(alloc)?,
            mode: self.mode,
            slash: self.slash,
        })
    }
}

// An equal path.
fn copy_path(alloc: Global, path: &Path) -> Result<Path, NoMemory>
    ensures { IfOk result (λ copy. copy ≡ path.now) }
{
    Ok(Path {
        absolute: path.absolute,
        parts: path.parts.copy(alloc)?,
        slash: path.slash,
    })
}
