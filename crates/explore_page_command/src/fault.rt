//! Why there is no page of an exploration.
ghost use Rattle.std.specs.Prelude.{◌≡◌};
ghost use Rattle.run_command.specs.declared.drawing.DrawFault.TheVariants as draw_fault;
ghost use Rattle.explore_page_command.specs.declared.fault.ExplorePageFault.TheVariants as page_fault;
ghost use Rattle.outcome_text.specs.declared.fault.ExploreFault.TheVariants as explore_fault;
ghost use Rattle.scripts.specs.declared.fault.RunFault.TheVariants.{NoMemory as OutOfMemory};

use outcome_text::ExploreFault;
use path_text::NoMemory;
use run_command::DrawFault;
use scripts::RunFault;
use thiserror::Error;

/// Why no page was written.
#[derive(Clone, Copy, Debug, PartialEq, Eq, Error)]
pub enum ExplorePageFault {
    /// The script isn't explored.
    #[error("{0}")]
    Explore(ExploreFault),
    /// A run isn't drawn.
    #[error("{0}")]
    Draw(DrawFault),
}

impl From<RunFault> for ExplorePageFault {
    ghost from_gives = { λ fault told. told ≡ page_fault.Explore (explore_fault.Run fault) };

    fn from(fault: RunFault) -> ExplorePageFault {
        ExplorePageFault::Explore(ExploreFault::Run(fault))
    }
}

impl From<DrawFault> for ExplorePageFault {
    ghost from_gives = { λ fault told. told ≡ page_fault.Draw fault };

    fn from(fault: DrawFault) -> ExplorePageFault {
        ExplorePageFault::Draw(fault)
    }
}

impl From<NoMemory> for ExplorePageFault {
    ghost from_gives = { λ _ told. told ≡ page_fault.Draw (draw_fault.Run OutOfMemory) };

    fn from(_error: NoMemory) -> ExplorePageFault {
        ExplorePageFault::Draw(DrawFault::Run(RunFault::NoMemory))
    }
}
