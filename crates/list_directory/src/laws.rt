//! What holds of every listing, as laws: each function's contract is one, and its body is empty.
ghost use Rattle.std.specs.Prelude.{◌≡◌, ◌≤◌, ◌+◌, ◌*◌, ◌⊎◌, ℕ, true, List, [], ◌∷◌, length, take};
ghost use Rattle.path_text.specs.declared.name.TheConstants.{NAME_MAX};
ghost use Rattle.system_calls.specs.Listing.{entries_text};
ghost use Rattle.list_directory.specs.Names.{idle, names_after, room_after, used_after, AreRead, Reading};
ghost use Rattle.list_directory.specs.Parts.{beyond_least, held_after, part_size, Change, EachFits, ALL_NAMES, LEAST_PART, MOST_PART};
ghost use Rattle.list_directory.specs.Promises.{ListingsHold};

/// A directory's part of the names has 512 bytes at least, which are two names of any length, and 1 MiB at most. If it
/// has more than the least, four such parts fit into what is left of 4 MiB.
pub fn a_part_is_bounded()
    ensures least { (held : ℕ) → LEAST_PART ≤ part_size held }
    ensures names { LEAST_PART ≡ 2 * (NAME_MAX + 1) }
    ensures most { (held : ℕ) → part_size held ≤ MOST_PART }
    ensures share { (held : ℕ) → (part_size held ≡ LEAST_PART) ⊎ (held + 4 * part_size held ≤ ALL_NAMES) }
{}

/// However a call reads directories and lets their names go, it holds 4 MiB of names at most, beside 512 bytes for each
/// of the directories whose names it holds.
pub fn all_levels_are_bounded()
    ensures { (changes : List Change) → EachFits changes → beyond_least (held_after changes) ≤ ALL_NAMES }
{}

/// Of each conversation of so many parts, whatever the outcomes are. The directory is opened for the first time, or
/// after a signal. It is read and closed while it is open, and closed before its names are sorted: so each open is
/// closed once. It is read until a read fails, says that the directory is gone, or was the last one.
///
/// Where it ends with names, nothing failed, and they were sorted after the directory was closed. It fails by the
/// error of the open, of the last read or of the sort. A signal, or a directory that is gone as it is read, is no
/// failure. There is one question for each signal and each read, and three, at most.
pub fn listings_hold()
    ensures { ListingsHold }
{}

/// As records are read one after another, the names of all of them lie in the room, in their order, a slash before
/// each, and never take more than the room. The last read came to the directory's end, or the next name has no room:
/// then 255 bytes of the room are left at most, so that a call that removes these names, and lists the directory
/// again, comes to the others. There is one read for each byte of names, and one for each time that none of the records
/// was an entry's, at most.
pub fn names_are_those_of_the_records()
    ensures within { (first : List ℕ) (readings : List Reading) → AreRead first readings
        → used_after readings ≤ length first }
    ensures laid { (first : List ℕ) (readings : List Reading) → AreRead first readings
        → take (used_after readings) (room_after first readings) ≡ entries_text (names_after readings) }
    ensures last { (first : List ℕ) (r : Reading) (older : List Reading) → AreRead first (r ∷ older)
        → r.gave.last ≡ true → (r.records ≡ []) ⊎ (length first ≤ r.gave.used + NAME_MAX) }
    ensures few { (first : List ℕ) (readings : List Reading) → AreRead first readings
        → length readings ≤ idle readings + used_after readings }
{}
