//! How a picture looks as text.
ghost use Rattle.std.specs.Prelude.{◌≡◌, ◌⊎◌, ◌<◌, ◌≤◌, None, IfSome};
ghost use Rattle.drawings.specs.declared.look.TheConstants.{COLUMNS, COLUMNS_MIN, COLUMNS_MAX};

/// How wide a line is at most where nobody says it, without the newline.
pub const COLUMNS: usize = 100;

/// The least number of columns that a picture may have.
pub const COLUMNS_MIN: usize = 40;

/// The greatest number of columns that a picture may have.
pub const COLUMNS_MAX: usize = 10_000;

/// How many columns a line has at most: 40 to 10,000.
#[derive(Clone, Copy, Debug, PartialEq, Eq)]
pub struct Columns {
    count: usize,
    ghost enough: { COLUMNS_MIN ≤ count },
    ghost few: { count ≤ COLUMNS_MAX },
}

impl Columns {
    /// That many; `None` where a picture may not have so many.
    pub fn new(count: usize) -> Option<Columns>
        ensures some { IfSome result (λ columns. columns.count ≡ count) }
        ensures none { result ≡ None → (count < COLUMNS_MIN) ⊎ (COLUMNS_MAX < count) }
    {
        if count < COLUMNS_MIN || count > COLUMNS_MAX {
            return None;
        }
        Some(Columns { count })
    }

    /// As many as where nobody says it.
    pub fn usual() -> Columns
        ensures { result.count ≡ COLUMNS }
    {
        Columns { count: COLUMNS }
    }

    /// That many.
    pub fn count(self) -> usize
        ensures is { result ≡ self.count }
        ensures enough { COLUMNS_MIN ≤ result }
        ensures few { result ≤ COLUMNS_MAX }
    {
        self.count
    }
}

/// Whether a tone is a colour of the terminal (ECMA-48, SGR).
#[derive(Clone, Copy, Debug, PartialEq, Eq)]
pub enum Colours {
    Off,
    On,
}

/// Whether a line below the heading says what is left out.
#[derive(Clone, Copy, Debug, PartialEq, Eq)]
pub enum Legend {
    /// No line.
    Off,
    /// The closes of handles are left out.
    NoCloses,
}

/// How a picture looks as text.
#[derive(Clone, Copy, Debug, PartialEq, Eq)]
pub struct Look {
    pub columns: Columns,
    pub colours: Colours,
    pub legend: Legend,
}
