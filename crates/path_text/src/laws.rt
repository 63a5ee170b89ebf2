//! What the definitions of this crate mean, as laws: each function's contract is one, and its body is
//! empty. The definitions are those of specs/Text.antt; specs/Spelling.antt says what POSIX.1 says of a
//! pathname's slashes.
ghost use Rattle.std.specs.Prelude.{◌≡◌, ℕ, List, map, All, None, Some, length, nat_lt, if◌then◌else◌, true, false};
ghost use Rattle.path_text.specs.declared.errno.Errno.TheVariants.{TooLong};
ghost use Rattle.path_text.specs.declared.part.Part.TheVariants.{Named};
ghost use Rattle.path_text.specs.declared.name.TheConstants.{SLASH, NAME_MAX};
ghost use Rattle.path_text.specs.declared.path.TheConstants.{TEXT_MAX, PARTS_MAX};
ghost use Rattle.path_text.specs.Name.{name_fault};
ghost use Rattle.path_text.specs.Print.{printed, names_read};
ghost use Rattle.path_text.specs.Spelling.{Run, IsSpelling, reading_spelled};
ghost use Rattle.path_text.specs.Text.{text_fault, reading_of};

/// Each text is slashes and pieces.
pub fn texts_are_spelled()
    ensures { (text : List ℕ) → (before : ℕ) × (runs : List Run) × IsSpelling text before runs }
{}

/// A text has one spelling.
pub fn spellings_are_unique()
    ensures { (text : List ℕ) (before : ℕ) (runs : List Run) (others : ℕ) (more : List Run)
        → IsSpelling text before runs → IsSpelling text others more → (before ≡ others) × (runs ≡ more) }
{}

/// A text is read as its spelling says: absolute where slashes come first, its pieces in order, and one
/// more `Cur` where slashes follow the last.
pub fn spellings_are_read()
    ensures { (text : List ℕ) (before : ℕ) (runs : List Run)
        → IsSpelling text before runs → reading_of text ≡ reading_spelled before runs }
{}

/// What names are printed as is read as those names: as a path from the root on, and by `Names::read`; and
/// where it isn't too long for a text it has no fault.
pub fn printed_names_are_read()
    ensures reading { (names : List (List ℕ)) → All (λ name. name_fault name ≡ None) names
        → reading_of (printed names) ≡ record { absolute = true; parts = map Named names; slash = false } }
    ensures fault { (names : List (List ℕ)) → All (λ name. name_fault name ≡ None) names
        → text_fault (printed names) ≡ (if nat_lt TEXT_MAX (length (printed names)) then Some TooLong else None) }
    ensures names { (names : List (List ℕ)) → All (λ name. name_fault name ≡ None) names
        → names_read (printed names) ≡ Some names }
{}

/// The limits that texts and names have, as numbers: a slash is the byte 47; a name has at most 255 bytes (NAME_MAX of
/// Linux's limits.h), a text at most 4,095 (PATH_MAX there, without the NUL), and so at most 2,048 parts.
pub fn text_limits_are_numbers()
    ensures slash { SLASH ≡ 47 }
    ensures name { NAME_MAX ≡ 255 }
    ensures text { TEXT_MAX ≡ 4095 }
    ensures parts { PARTS_MAX ≡ 2048 }
{}
