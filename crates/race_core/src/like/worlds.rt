//! Whether the actors of two worlds are the same but for the numbers of their handles.
ghost use Rattle.std.specs.Prelude.{◌≡◌, ◌<◌, ◌++◌, ◌↔◌, length, slice_get, Some, IsTrue, IfOk};
ghost use Rattle.race_core.specs.declared.seat.Seat.{Seat};
ghost use Rattle.race_core.specs.Renamed.{LikeActors, LikeSeats, seat_handles};

use super::{Like, like_all};
use crate::book::Book;
use crate::world::World;
use path_text::NoMemory;
use tree_model::{HandleNo, Tree};

impl<T: Tree> World<T> {
    /// Whether there are as many actors in both worlds, and each has the same to do, to tell and to hold as the
    /// other's of its number but for the numbers of handles. The trees and the histories may differ. Takes no
    /// memory.
    #[tactic(auto, using(crate::proofs::LikeSeats::seats_map))]
    pub fn is_like(&self, other: &World<T>) -> bool
        ensures { IsTrue result ↔ LikeActors self.now.seats other.now.seats }
    {
        like_all(self.seats.as_slice(), other.seats.as_slice())
    }

    /// Whether the actor of that number has the same to do, to tell and to hold in both worlds but for the numbers of
    /// handles. The other actors, the trees and the histories may differ. Takes no memory.
    pub fn is_like_at(&self, other: &World<T>, actor: usize) -> bool
        requires here { actor < length self.now.seats }
        requires there { actor < length other.now.seats }
        ensures { (here there : Seat) → slice_get self.now.seats actor ≡ Some here
            → slice_get other.now.seats actor ≡ Some there → (IsTrue result ↔ LikeSeats here there) }
    {
        self.seats[actor].is_like(&other.seats[actor])
    }

    /// Appends the handles of the actor of that number, one by one: its root's, and those in its calls to come, in
    /// what came of the others, in what they still keep and in the call under way. One may come more than once.
    /// NoMemory where their room was refused; some of them may have been appended.
    pub fn push_handles(&self, actor: usize, into: &mut Vec<HandleNo>) -> Result<(), NoMemory>
        requires { actor < length self.now.seats }
        ensures { IfOk result (λ u. (seat : Seat) → slice_get self.now.seats actor ≡ Some seat
            → into.new.items ≡ into.old.items ++ seat_handles seat) }
    {
        let seat = &self.seats[actor];
        seat.push_handles(into)
    }

    /// The tree, and the history of all steps.
    pub fn book(&self) -> &Book<T>
        ensures { result.now ≡ self.now.book }
    {
        &self.book
    }
}
