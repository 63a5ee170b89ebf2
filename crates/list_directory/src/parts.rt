//! How large a directory's part of the names is.
ghost use Rattle.std.specs.Prelude.{◌≡◌};
ghost use Rattle.list_directory.specs.Parts.{part_size};

// So many bytes of names a call holds, but for the least parts.
const ALL_NAMES: usize = 4_194_304;

// Two names of any length, with a slash before each.
const LEAST_PART: usize = 512;

const MOST_PART: usize = 1_048_576;

/// How many bytes of names a directory gets, where a call holds so many of other directories' names: a fourth of what
/// is left of 4 MiB, so that each level of a tree gets its part; but 512 bytes at least, and 1 MiB at most. Takes no
/// memory.
pub fn part_size(held: usize) -> usize
    ensures { result ≡ part_size held }
{
    let part = ALL_NAMES.saturating_sub(held) / 4;
    if part < LEAST_PART {
        LEAST_PART
    } else if part > MOST_PART {
        MOST_PART
    } else {
        part
    }
}
