//! A part of a listing, as a dialogue.
ghost use Rattle.std.specs.Prelude.{◌≡◌, Option};
ghost use Rattle.dialogue.specs.Dialogue.{ran};
ghost use Rattle.list_directory.specs.Reading.{a_part, at, came_to, finished, read, read_so, sorted};

use crate::asking::{Asked, Outcome, Question, ask};
use system_calls::errors::{EINTR, ENOENT};

/// How far a listing has come before a part. The driver keeps it, beside a room for the names. At first nothing is open
/// and no byte is used (`default`).
#[derive(Clone, Copy, Debug, Default, PartialEq, Eq)]
pub struct Listing {
    /// By which descriptor the directory is read, once it is open.
    pub directory: Option<u32>,
    /// So many bytes of the room are names, a slash before each.
    pub used: usize,
}

/// How a part ends.
#[derive(Clone, Copy, Debug, PartialEq, Eq)]
pub enum Came {
    /// So many bytes of names were read, and sorted.
    Listed(usize),
    /// It failed by this error, and nothing is open.
    Failed(u32),
    /// Another part follows.
    Again(Listing),
}

fn sorted(used: usize, error: u32) -> Came
    ensures { result ≡ sorted used error }
{
    if error == 0 {
        Came::Listed(used)
    } else {
        Came::Failed(error)
    }
}

// Nothing more is read, or there was an error.
#[tactic(auto, using(dialogue::proofs::TalkLemmas::ran_then, dialogue::proofs::TalkLemmas::ran_ends), unfolding(crate::specs::Reading::finished))]
fn finished(outcomes: &mut &[Outcome], directory: u32, used: usize, error: u32) -> Asked<Came>
    ensures { came_to result outcomes.new.now ≡ ran (finished directory used error) outcomes.old.now }
{
    ask(outcomes, Question::Close(directory))?;
    if error != 0 {
        return Ok(Came::Failed(error));
    }
    let sort = ask(outcomes, Question::Sort(used))?;
    Ok(sorted(used, sort.error))
}

fn at(directory: u32, used: usize) -> Listing
    ensures { result ≡ at directory used }
{
    Listing {
        directory: Some(directory),
        used,
    }
}

// A directory that is gone has no more names.
#[tactic(auto, using(dialogue::proofs::TalkLemmas::ran_then, dialogue::proofs::TalkLemmas::ran_ends), unfolding(crate::specs::Reading::read_so))]
fn read_so(outcomes: &mut &[Outcome], directory: u32, used: usize, a: Outcome) -> Asked<Came>
    ensures { came_to result outcomes.new.now ≡ ran (read_so directory used a) outcomes.old.now }
{
    if a.error == EINTR {
        return Ok(Came::Again(at(directory, used)));
    }
    if a.error == ENOENT {
        return finished(outcomes, directory, used, 0);
    }
    if a.error != 0 || a.last {
        return finished(outcomes, directory, a.used, a.error);
    }
    Ok(Came::Again(at(directory, a.used)))
}

#[tactic(auto, using(dialogue::proofs::TalkLemmas::ran_then, dialogue::proofs::TalkLemmas::ran_ends), unfolding(crate::specs::Reading::read))]
fn read(outcomes: &mut &[Outcome], directory: u32, used: usize) -> Asked<Came>
    ensures { came_to result outcomes.new.now ≡ ran (read directory used) outcomes.old.now }
{
    let a = ask(outcomes, Question::Read(directory))?;
    read_so(outcomes, directory, used, a)
}

/// A part of a listing: the directory is opened, unless it is open; records are read; and after the last ones it is
/// closed, and the names are sorted. It asks four questions at most. Takes no memory.
///
/// EINTR (4) of openat(2) or getdents64(2) has that call made again. ENOENT (2) of getdents64(2) says that the
/// directory is gone: it has no more names.
///
/// Errors: any other one of openat(2) or getdents64(2); that of the records (`take_read`), or of the sort.
#[tactic(auto, using(dialogue::proofs::TalkLemmas::ran_then, dialogue::proofs::TalkLemmas::ran_ends), unfolding(crate::specs::Reading::a_part))]
pub fn a_part(outcomes: &mut &[Outcome], listing: &Listing) -> Asked<Came>
    ensures { came_to result outcomes.new.now ≡ ran (a_part listing.now) outcomes.old.now }
{
    if let Some(directory) = listing.directory {
        return read(outcomes, directory, listing.used);
    }
    let a = ask(outcomes, Question::Open)?;
    if a.error == 0 {
        return read(outcomes, a.descriptor, listing.used);
    }
    if a.error == EINTR {
        return Ok(Came::Again(*listing));
    }
    Ok(Came::Failed(a.error))
}
