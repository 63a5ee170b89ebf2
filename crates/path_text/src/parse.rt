//! Reading a path from a text.
ghost use Rattle.std.specs.Prelude.{◌≡◌, MatchResult, MatchOption, Err};
ghost use Rattle.path_text.specs.Text.{text_fault, reading_of, begins_with_slash};

use crate::bytes::Bytes;
use crate::errno::Errno;
use crate::parts::Parts;
use crate::path::{Path, TEXT_MAX};
use crate::texts::begins_with_slash;
use std::alloc::Global;

impl Path {
    /// Why a text is no path, where it is none. Takes no memory.
    pub fn fault_of(text: &[u8]) -> Option<Errno>
        ensures { result ≡ text_fault text.now }
    {
        if text.is_empty() {
            return Some(Errno::NotFound);
        }
        if text.contains(&0) {
            return Some(Errno::Invalid);
        }
        if text.len() > TEXT_MAX {
            return Some(Errno::TooLong);
        }
        None
    }

    /// The path that a text spells: what stands between its slashes, as `.`, `..` or a name, and one
    /// more `.` for a slash at its end (POSIX.1, Pathname Resolution; path_resolution(7)).
    ///
    /// Errors, in this order: NotFound of an empty text (ENOENT), Invalid of one with a NUL, TooLong of
    /// one over 4,095 bytes (ENAMETOOLONG), NoMemory.
    pub fn parse(alloc: Global, text: &[u8]) -> Result<Path, Errno>
        ensures { MatchOption (text_fault text.now)
            (MatchResult result (λ path. path ≡ reading_of text.now) (λ error. error ≡ Errno.NoMemory))
            (λ fault. result ≡ Err fault) }
    {
        if let Some(fault) = Path::fault_of(text) {
            return Err(fault);
        }
        let mut parts = Parts::new(alloc);
        let slash = parts.replace_first(Bytes::from_slice(alloc, text)?)?;
        Ok(Path {
            absolute: begins_with_slash(text),
            parts,
            slash,
        })
    }
}
