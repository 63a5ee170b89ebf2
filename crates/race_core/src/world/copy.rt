//! A copy of a world.
ghost use Rattle.std.specs.Prelude.{◌≡◌, IfOk, OnOk};

use super::{World, clear};
use crate::book::Book;
use crate::copy_tree::CopyTree;
use crate::seat::Seat;
use path_text::NoMemory;
use std::alloc::Global;
use tree_model::Tree;

// Equal seats. Where room is refused, the calls that were copied are given up, through this book.
fn copy_seats<T: Tree>(
    alloc: Global,
    book: &mut Book<T>,
    seats: &[Seat],
) -> Result<Vec<Seat>, NoMemory>
    ensures same { IfOk result (λ copies. copies.items ≡ seats.now) }
    ensures book { OnOk result (book.new ≡ book.old) }
{
    let mut copies = Vec::new(alloc);
    let reserved = copies.reserve(seats.len());
    if reserved.is_err() {
        copies.destroy_empty();
        return Err(NoMemory);
    }
    for seat in seats {
        match seat.copy(alloc) {
            Ok(copy) => copies.push_reserved(copy),
            Err(error) => {
                clear(alloc, book, copies);
                return Err(error);
            }
        }
    }
    Ok(copies)
}

impl<T: CopyTree> World<T> {
    /// An equal world over a copy of the tree: both go on by themselves, and by the same turns to the same ends.
    /// NoMemory where room was refused.
    pub fn copy(&self, alloc: Global) -> Result<World<T>, NoMemory>
    where
        T: Drop,
        ensures { IfOk result (λ copy. copy ≡ self.now) }
    {
        let mut book = self.book.copy(alloc)?;
        let seats = copy_seats(alloc, &mut book, self.seats.as_slice())?;
        Ok(World {
            book,
            seats,
            spent: self.spent,
        })
    }
}
