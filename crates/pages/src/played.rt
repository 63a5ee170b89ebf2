//! Runs that a page plays.
ghost use Rattle.std.specs.Prelude.{◌≡◌, ◌≢◌, IfOk, IfErr};
ghost use Rattle.drawings.specs.declared.picture.PictureFault.TheVariants.{NoMemory as OutOfMemory};
ghost use Rattle.drawings.specs.Picture.{drawn_of, IsPictureFault};
ghost use Rattle.pages.specs.Page.{played_of};

use crate::report::report_json;
use drawings::{CallWords, Closes, Picture, PictureFault};
use event_log::{EventLog, Output};
use race_core::Outcomes;
use std::alloc::Global;
use tree_list::ListTree;

/// A run that a page plays.
#[derive(Debug, Drop)]
pub struct Played {
    /// Its report as JSON.
    pub report: Output,
    pub picture: Picture,
}

impl Played {
    /// The run of these events from a tree in which the actors' roots are granted; `calls` has what each actor calls
    /// for, and `closes` says whether the picture shows the closes that are done.
    ///
    /// Errors: those of `Picture::of`; `NoMemory` in place of any of them too.
    pub fn of(
        alloc: Global,
        opening: ListTree,
        calls: &[CallWords],
        events: &EventLog,
        replies: &[Outcomes],
        closes: Closes,
    ) -> Result<Played, PictureFault>
        ensures ok { IfOk result (λ run. run ≡ played_of closes opening calls.now events.now.events replies.now) }
        ensures err { IfErr result (λ fault. fault ≢ OutOfMemory → IsPictureFault events.now.events
            (drawn_of closes opening calls.now events.now.events replies.now) fault) }
    {
        let again = opening.copy(alloc)?;
        let picture = Picture::of(alloc, again, calls, events, replies, closes)?;
        let mut report = Output::new(alloc);
        report_json(alloc, &mut report, opening, events, replies)?;
        Ok(Played { report, picture })
    }
}
