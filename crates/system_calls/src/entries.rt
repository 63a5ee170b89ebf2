//! The entries that records of getdents64(2) tell of, one after another.
ghost use Rattle.std.specs.Prelude.{◌≡◌};
ghost use Rattle.system_calls.specs.Entries.{is_told_name, Comes};

use crate::records::{HEAD, first_record, is_entry};
use path_text::SLASH;

/// What records tell first.
#[derive(Clone, Copy, Debug, PartialEq, Eq)]
pub enum Coming<'a> {
    /// No entry any more.
    Nothing,
    /// What is no record, or has a name that no entry can have.
    Fault,
    /// An entry: its name, the type that stands beside it (getdents64(2)), and the records behind it.
    Entry(&'a [u8], u8, &'a [u8]),
}

fn is_told_name(name: &[u8]) -> bool
    ensures { result ≡ is_told_name name.now }
{
    !name.is_empty() && !name.contains(&SLASH)
}

/// The first entry that records tell of, as getdents64(2) wrote them, each a `struct linux_dirent64` with its length in
/// two bytes, the less significant one first, as on x86-64 and arm64. `.` and `..` are passed over. It is a Fault where
/// a record isn't longer than the 19 bytes before its name, runs past the end of the records, or has no NUL behind its
/// name, and where a name is empty or has a slash. A name may have more than 255 bytes, as on vfat. Takes no memory.
pub fn next_entry(records: &[u8]) -> Coming<'_>
    ensures { Comes records.now result }
{
    let mut rest = records;
    while !rest.is_empty() {
        let Some((size, name)) = first_record(rest) else {
            return Coming::Fault;
        };
        if is_entry(name) {
            return if is_told_name(name) {
                Coming::Entry(name, rest[HEAD - 1], &rest[size..])
            } else {
                Coming::Fault
            };
        }
        rest = &rest[size..];
    }
    Coming::Nothing
}
