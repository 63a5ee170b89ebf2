//! A small number for each actor.
ghost use Rattle.std.specs.Prelude.{◌≡◌, slice_set, slice_index_or};

/// How many actors a row has room for.
pub const ROW: usize = 3;

/// The actor's number, or 255 where the row has none.
pub(crate) fn entry(row: &[u8; ROW], actor: u8) -> u8
    ensures { result ≡ slice_index_or row.now actor 255 }
{
    match row.get(actor as usize) {
        Some(number) => *number,
        None => u8::MAX,
    }
}

/// The row with another number for that actor, if it has one for it.
pub(crate) fn with(row: &[u8; ROW], actor: u8, number: u8) -> [u8; ROW]
    ensures { result ≡ slice_set row.now actor number }
{
    let mut changed = *row;
    if (actor as usize) < ROW {
        changed[actor as usize] = number;
    }
    changed
}
