//! Taking the last name off a path.
ghost use Rattle.std.specs.Prelude.{◌≡◌, MatchResult, Err};
ghost use Rattle.path_text.specs.Split.{parts_without_slash, split_of};

use crate::errno::Errno;
use crate::part::Part;
use crate::parts::Parts;
use crate::path::{Path, Rule, Split};
use std::alloc::Global;

impl Path {
    // The parts without the `Cur` that a slash at the end gave.
    fn parts_without_slash(self) -> Parts
        ensures { result ≡ parts_without_slash self }
    {
        let mut parts = self.parts;
        if self.slash {
            parts.drop_last();
        }
        parts
    }

    /// The directory and the name that a path says, with the slash at its end taken away. The directory
    /// keeps `absolute`, and takes over the parts before the name. The name is a copy.
    ///
    /// Errors, in this order: Invalid where no name is left at the end, but nothing, `.` or `..` (EINVAL),
    /// NotDir of a slash at the end under `Rule::Refuse` (ENOTDIR), TooLong of a name over 255 bytes
    /// (ENAMETOOLONG), NoMemory. Linux has several errors for the first two, by operation.
    pub fn split_last(self, alloc: Global, rule: Rule) -> Result<Split, Errno>
        ensures { MatchResult (split_of self rule)
            (λ split. MatchResult result (λ parted. parted ≡ split) (λ error. error ≡ Errno.NoMemory))
            (λ fault. result ≡ Err fault) }
    {
        let (absolute, slash) = (self.absolute, self.slash);
        let mut parts = self.parts_without_slash();
        let Some(Part::Named(component)) = parts.last() else {
            return Err(Errno::Invalid);
        };
        if slash && rule == Rule::Refuse {
            return Err(Errno::NotDir);
        }
        if component.is_too_long() {
            return Err(Errno::TooLong);
        }
        let name = component.to_name(alloc)?;
        parts.drop_last();
        Ok(Split {
            dir: Path {
                absolute,
                parts,
                slash: false,
            },
            name,
            slash,
        })
    }
}
