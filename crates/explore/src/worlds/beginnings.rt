//! Where every schedule begins.
ghost use Rattle.std.specs.Prelude.{◌≡◌, [], IfOk, OnOk};

use path_text::NoMemory;
use race_core::World;
use std::alloc::Global;
use tree_model::Tree;

/// Where every schedule begins: one world, made anew for each run.
pub trait Beginnings<T: Tree> {
    ghost use Rattle.race_core.specs.Worlds.{WorldView};
    ghost use Rattle.local_states.specs.Local.{AreNumbered};

    /// The world that is made each time.
    ghost opening: { Self → WorldView };

    /// That world, in which no step was made yet, and each actor has its seat's number. NoMemory where its room was
    /// refused.
    fn world(&self, alloc: Global) -> Result<World<T>, NoMemory>
        ensures world { IfOk result (λ world. world ≡ opening self.now) }
        ensures fresh { OnOk result ((opening self.now).book.events ≡ []) }
        ensures numbered { OnOk result (AreNumbered (opening self.now).seats) };
}
