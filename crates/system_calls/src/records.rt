//! The names of the records that getdents64(2) writes.
ghost use Rattle.std.specs.Prelude.{◌≡◌, ◌+◌, ◌-◌, ◌<◌, ◌≤◌, ◌++◌, ◌∷◌, length, take, drop, true, false, Some, None, MatchOption};
ghost use Rattle.std.specs.Option.{option_copied};
ghost use Rattle.system_calls.specs.Listing.{before_nul, is_entry, is_whole, name_error, name_told, size_told, IsTaken};
ghost use Rattle.system_calls.specs.Records.{Steps};

use path_text::{Errno, Name, SLASH};

/// So many bytes of a record come before its name (`struct linux_dirent64` of getdents64(2)).
pub const HEAD: usize = 19;

/// The error of what is no record, or of a name that no entry can have: EIO of errno(3).
pub const NO_RECORD: u8 = 5;

/// What was taken of records.
#[repr(C)]
#[derive(Clone, Copy, Debug, PartialEq, Eq)]
pub struct Taken {
    /// So many bytes of names lie in the room now.
    pub used: usize,
    /// Whether there was no room for the name that is next.
    pub full: bool,
    /// 0, or the number of the error (errno(3)) of the record that is next.
    pub error: u8,
}

// What comes before the first NUL.
fn before_nul(bytes: &[u8]) -> Option<&[u8]>
    ensures { option_copied result ≡ before_nul bytes.now }
{
    match bytes.iter().position(|byte| *byte == 0) {
        Some(end) => Some(&bytes[..end]),
        None => None,
    }
}

// How long the record is that bytes begin with, where they begin with one that ends within them.
fn size_of(bytes: &[u8]) -> Option<usize>
    ensures { MatchOption result (is_whole bytes.now ≡ false)
        (λ size. (size ≡ size_told bytes.now) × (is_whole bytes.now ≡ true) × (HEAD < size)
        × (size ≤ length bytes.now)) }
{
    if bytes.len() <= HEAD {
        return None;
    }
    let size = usize::from(bytes[16]) + 256 * usize::from(bytes[17]);
    if size <= HEAD || size > bytes.len() {
        None
    } else {
        Some(size)
    }
}

// The record that bytes begin with: how long it is, and its name.
pub(crate) fn first_record(bytes: &[u8]) -> Option<(usize, &[u8])>
    ensures { MatchOption result (name_told bytes.now ≡ None)
        (λ it. (it.0 ≡ size_told bytes.now) × (HEAD < it.0) × (it.0 ≤ length bytes.now)
        × (name_told bytes.now ≡ Some it.1.now)) }
{
    let size = size_of(bytes)?;
    match before_nul(&bytes[HEAD..size]) {
        Some(name) => Some((size, name)),
        None => None,
    }
}

pub(crate) fn is_entry(name: &[u8]) -> bool
    ensures { result ≡ is_entry name.now }
{
    name != b".".as_slice() && name != b"..".as_slice()
}

// Why an entry can't have this name, as the number of an error, or 0.
fn name_error(name: &[u8]) -> u8
    ensures { result ≡ name_error name.now }
{
    if !is_entry(name) {
        return 0;
    }
    match Name::fault_of(name) {
        None => 0,
        Some(Errno::TooLong) => Errno::TooLong.number(),
        Some(_) => NO_RECORD,
    }
}

// Lays a slash and a name there.
pub(crate) fn lay_name(name: &[u8], at: usize, room: &mut [u8])
    requires { at + length name.now < length room.old }
    ensures { room.new ≡ take at room.old ++ (SLASH ∷ name.now ++ drop (at + (length name.now + 1)) room.old) }
{
    room[at] = SLASH;
    room[at + 1..at + 1 + name.len()].copy_from_slice(name);
}

// What became of a record.
enum Step {
    // Bytes of names lie in the room now.
    Used(usize),
    Full,
    Error(u8),
}

// Takes a name behind so many bytes of names, if it is an entry's.
fn take_name(name: &[u8], used: usize, room: &mut [u8]) -> Step
    requires { used ≤ length room.old }
    ensures { Steps name.now used room.old room.new result }
{
    let error = name_error(name);
    if error != 0 {
        return Step::Error(error);
    }
    if !is_entry(name) {
        return Step::Used(used);
    }
    if room.len() - used <= name.len() {
        return Step::Full;
    }
    lay_name(name, used, room);
    Step::Used(used + name.len() + 1)
}

/// Takes the names of records as getdents64(2) wrote them, each a `struct linux_dirent64` with its length in two
/// bytes, the less significant one first, as on x86-64 and arm64. The names come in the order of the records to the
/// beginning of the room, a slash before each. `.` and `..` are left out. It ends with the records, before the
/// first name for which there is no room, or at the first error. Takes no memory.
///
/// Errors: EIO (5) of a record that isn't longer than the 19 bytes before its name, that runs past the end of the
/// records or has no NUL behind its name, and of a name that is empty or has a slash; ENAMETOOLONG (36) of a name
/// over 255 bytes.
pub fn take_names(records: &[u8], room: &mut [u8]) -> Taken
    ensures { IsTaken records.now room.old room.new result }
{
    let mut rest = records;
    let mut used = 0;
    while !rest.is_empty() {
        let Some((size, name)) = first_record(rest) else {
            return Taken {
                used,
                full: false,
                error: NO_RECORD,
            };
        };
        match take_name(name, used, room) {
            Step::Used(now) => used = now,
            Step::Full => return Taken {
                used,
                full: true,
                error: 0,
            },
            Step::Error(error) => return Taken {
                used,
                full: false,
                error,
            },
        }
        rest = &rest[size..];
    }
    Taken {
        used,
        full: false,
        error: 0,
    }
}
