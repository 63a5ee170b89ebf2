//! Laws of walks, each the contract of a function without a body.
ghost use Rattle.further_walk_laws.specs.Retries.{RetriesNeedChanges};
ghost use Rattle.further_walk_laws.specs.TrailSteps.{StepsByTrail};

use step_resolver::raced_tells_of_change;

/// For every interleaving of actors' single steps, a walk makes at most four steps for each part that its trail
/// passes, and four more. The trail is one of which the headline tells: of the object or the deepest directory that
/// the walk opens, or up to where its failure was true. One that opens something passes just as many parts as its
/// path, or what of it comes before the rest, has together with the texts of links that the walk read; the walk took
/// as many off its plan. Another passes at most as many. A walk that ran short of memory, of room in a record of
/// events or of handles, or is under way, has such a trail or stop too, of which the headline doesn't tell.
pub fn steps_by_trail()
    ensures { StepsByTrail }
{}

/// So many walks of one actor that all end in EAGAIN, one after another, need as many changes of entries by others,
/// each in a walk's own window: steps that made, removed or renamed an entry. So 32 tries all meet EAGAIN only where
/// others changed entries 32 times meanwhile (openat2(2)).
pub fn retries_need_changes()
    ensures { RetriesNeedChanges }
{
    raced_tells_of_change();
}
