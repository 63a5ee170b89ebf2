//! The names of the records that were read.
ghost use Rattle.std.specs.Prelude.{◌≤◌, length};
ghost use Rattle.list_directory.specs.Names.{IsRead};

use crate::asking::Outcome;
use system_calls::take_names;

/// What Read gives by these records, where so many bytes of the room are names: theirs come behind those, a slash
/// before each, as long as there is room. No records are the end of the directory. Takes no memory.
///
/// Errors: EIO (5) or ENAMETOOLONG (36) of the records, as `system_calls::take_names` has them.
pub fn take_read(records: &[u8], room: &mut [u8], used: usize) -> Outcome
    requires used { used ≤ length room.old }
    ensures { IsRead used records.now room.old result room.new }
{
    let taken = take_names(records, &mut room[used..]);
    Outcome {
        error: u32::from(taken.error),
        descriptor: 0,
        used: used + taken.used,
        last: taken.full || records.is_empty(),
    }
}
