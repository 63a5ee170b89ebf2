//! How much memory a search may take.
ghost use Rattle.std.specs.Prelude.{◌≡◌, IfSome, MatchResult};
ghost use Rattle.explore.specs.Opened.{opened_world};
ghost use Rattle.explore_command.specs.Gauge.{IsOver, IsToldOver, SaysNoMore, SaysPeak};

use explore::{Beginnings, Scene, SearchFault, Silent};
use explore_parts::MEGABYTE;
use outcome_text::ExploreFault;
use path_text::NoMemory;
use race_core::World;
use std::alloc::Global;
use tree_list::ListTree;

/// Who knows how much memory the program has taken.
pub trait Gauge {
    ghost use Rattle.std.specs.Prelude.{ℕ, Option};

    /// What it may say.
    ghost may_say: { Self → Option ℕ → Type 0 };

    /// The most bytes that the program has taken at once so far, where that is known.
    fn most_taken(&self) -> Option<u64>
        ensures { may_say self.now result };
}

impl Gauge for Silent {
    ghost use Rattle.std.specs.Prelude.{◌≡◌, None};

    ghost may_say = { λ _ said. said ≡ None };

    fn most_taken(&self) -> Option<u64> {
        None
    }
}

/// Looks whether more than so many megabytes were taken, where there is a limit. Errors: `NoGauge` where that isn't
/// known, and `TooMuchMemory`.
pub(crate) fn look<G: Gauge>(gauge: &G, memory: Option<u32>) -> Result<(), ExploreFault>
    ensures { MatchResult result (λ _. SaysNoMore (G.may_say gauge.now) memory) (IsOver (G.may_say gauge.now) memory) }
{
    let Some(most) = memory else {
        return Ok(());
    };
    let Some(bytes) = gauge.most_taken() else {
        return Err(ExploreFault::NoGauge);
    };
    if bytes > u64::from(most) * MEGABYTE {
        return Err(ExploreFault::TooMuchMemory(most));
    }
    Ok(())
}

/// How it is told that a search finds nothing: where it has no memory, and the gauge says more than the limit, by this.
pub(crate) fn told_over<G: Gauge>(
    gauge: &G,
    memory: Option<u32>,
    fault: SearchFault,
) -> ExploreFault
    ensures { IsToldOver (G.may_say gauge.now) memory fault result }
{
    if let SearchFault::NoMemory = fault {
        if let Err(ExploreFault::TooMuchMemory(most)) = look(gauge, memory) {
            return ExploreFault::TooMuchMemory(most);
        }
    }
    ExploreFault::from(fault)
}

/// A scene whose worlds are made only while the gauge says no more than the limit, where there is one.
#[derive(Drop)]
pub(crate) struct Bounded<'a, G> {
    pub(crate) scene: &'a Scene,
    pub(crate) gauge: &'a G,
    pub(crate) memory: Option<u32>,
}

impl<G: Gauge> Beginnings<ListTree> for Bounded<'_, G> {
    ghost opening = { λ b. opened_world b.scene.now.tree b.scene.now.plans.items b.scene.now.lines };

    /// The scene's world. NoMemory also where the gauge says more than the limit, or nothing.
    fn world(&self, alloc: Global) -> Result<World<ListTree>, NoMemory> {
        if look(self.gauge, self.memory).is_err() {
            return Err(NoMemory);
        }
        self.scene.world(alloc)
    }
}

/// The most bytes that were resident at once, by the text of /proc/self/status: what its line `VmHWM:` says in units of
/// 1,024 bytes (proc_pid_status(5)).
pub fn peak_in(status: &str) -> Option<u64>
    ensures { IfSome result (SaysPeak status.now) }
{
    let (_, rest) = status.split_once("\nVmHWM:")?;
    let (number, _) = rest.split_once(" kB\n")?;
    let units: u64 = number.trim_start().parse().ok()?;
    if units > u64::MAX / 1024 {
        return None;
    }
    Some(units * 1024)
}
