//! What an actor of a world has to do and what came of it, kept apart from the world.
ghost use Rattle.std.specs.Prelude.{◌≡◌, ◌<◌, ◌↔◌, length, slice_get, Some, IsTrue, IfOk};
ghost use Rattle.race_core.specs.GivenUp.{GivesUp};
ghost use Rattle.race_core.specs.Renamed.{LikeSeats};
ghost use Rattle.race_core.specs.WithoutOutcomes.{without_outcomes};
ghost use Rattle.race_core.specs.declared.seat.Seat.{Seat};

use super::World;
use crate::report::Outcome;
use crate::seat::Seat;
use path_text::NoMemory;
use std::alloc::Global;
use tree_model::Tree;

impl<T: Tree> World<T> {
    /// What came of those calls of the actor of that number that have ended, in their order.
    pub fn outcomes(&self, actor: usize) -> &[Outcome]
        requires { actor < length self.now.seats }
        ensures { (seat : Seat) → slice_get self.now.seats actor ≡ Some seat
            → result.now ≡ seat.ledger.outcomes }
    {
        let seat = &self.seats[actor];
        seat.ledger.outcomes.as_slice()
    }

    /// A copy of all else that the actor of that number has to do and holds, which a world gives up at last
    /// (`give_up_seat`). NoMemory where room was refused.
    pub fn seat_without_outcomes(&self, alloc: Global, actor: usize) -> Result<Seat, NoMemory>
        requires { actor < length self.now.seats }
        ensures { IfOk result (λ copy. (seat : Seat) → slice_get self.now.seats actor ≡ Some seat
            → copy ≡ without_outcomes seat) }
    {
        let seat = &self.seats[actor];
        seat.copy_without_outcomes(alloc)
    }

    /// Whether such a copy is the same as that one but for the numbers of handles. One that has outcomes is not. Takes
    /// no memory.
    pub fn is_like_seat(&self, actor: usize, other: &Seat) -> bool
        requires { actor < length self.now.seats }
        ensures { (seat : Seat) → slice_get self.now.seats actor ≡ Some seat
            → (IsTrue result ↔ LikeSeats (without_outcomes seat) other.now) }
    {
        let seat = &self.seats[actor];
        seat.is_like_without_outcomes(other)
    }

    /// Gives up a seat that is kept apart from its world: its call under way goes to its end without memory, by the
    /// Closes that are due, through the book of this world. Its actors stay as they were. Takes no memory.
    pub fn give_up_seat(&mut self, alloc: Global, seat: Seat)
        ensures book { GivesUp self.old.book seat self.new.book }
        ensures actors { self.new.seats ≡ self.old.seats }
        ensures spent { self.new.spent ≡ self.old.spent }
    {
        let _ledger = seat.give_up(alloc, &mut self.book);
    }
}
