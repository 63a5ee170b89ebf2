//! One try of a search for what is there of a path, as a dialogue.
ghost use Rattle.std.specs.Prelude.{◌≡◌, Option, length};
ghost use Rattle.path_text.specs.Text.{pieces};
ghost use Rattle.dialogue.specs.Dialogue.{ran};
ghost use Rattle.open_partial.specs.Search.{a_try, begun, came_to, closed, is_missing, is_whole, seen, tried, tried_so};

use crate::asking::{Asked, Outcome, Question, ask};
use crate::beginnings::count_pieces;
use system_calls::errors::{ENOENT, ENOTDIR};

/// How far a search has come before a try. The driver keeps it.
#[derive(Clone, Copy, Debug, PartialEq, Eq)]
pub struct Search {
    /// The path has so many pieces.
    pub pieces: usize,
    /// So many are there, as far as is known.
    pub there: usize,
    /// So many are not; one more than the path has, as long as nothing was missing.
    pub missing: usize,
    /// What is open, which is what those mean that are there.
    pub held: Option<u32>,
}

/// How a try ends.
#[derive(Clone, Copy, Debug, PartialEq, Eq)]
pub enum Came {
    /// So many pieces are there, and this descriptor is what they mean.
    Found(usize, u32),
    /// It failed by this error, and nothing is open.
    Failed(u32),
    /// Another try follows.
    Again(Search),
}

fn is_missing(error: u32) -> bool
    ensures { result ≡ is_missing error }
{
    error == ENOENT || error == ENOTDIR
}

fn is_whole(search: &Search) -> bool
    ensures { result ≡ is_whole search.now }
{
    search.missing > search.pieces
}

// All pieces, and then half of those between what is there and what is missing.
fn tried(search: &Search) -> usize
    ensures { result ≡ tried search.now }
{
    if is_whole(search) {
        search.pieces
    } else {
        search.there + search.missing.saturating_sub(search.there) / 2
    }
}

fn seen(search: Search) -> Came
    ensures { result ≡ seen search }
{
    match search.held {
        Some(fd) if search.missing.saturating_sub(search.there) <= 1 => {
            Came::Found(search.there, fd)
        }
        _ => Came::Again(search),
    }
}

// What was open is closed, if something was.
#[tactic(auto, using(dialogue::proofs::TalkLemmas::ran_then, dialogue::proofs::TalkLemmas::ran_ends), unfolding(crate::specs::Search::closed))]
fn closed(outcomes: &mut &[Outcome], held: Option<u32>, came: Came) -> Asked<Came>
    ensures { came_to result outcomes.new.now ≡ ran (closed held came) outcomes.old.now }
{
    if let Some(fd) = held {
        ask(outcomes, Question::Close(fd))?;
    }
    Ok(came)
}

#[tactic(auto, using(dialogue::proofs::TalkLemmas::ran_then, dialogue::proofs::TalkLemmas::ran_ends), unfolding(crate::specs::Search::tried_so))]
fn tried_so(outcomes: &mut &[Outcome], search: &Search, tried: usize, a: Outcome) -> Asked<Came>
    ensures { came_to result outcomes.new.now ≡ ran (tried_so tried search.now a) outcomes.old.now }
{
    if a.error == 0 {
        let more = Search {
            there: tried,
            held: Some(a.descriptor),
            ..*search
        };
        return closed(outcomes, search.held, seen(more));
    }
    if is_missing(a.error) && tried != 0 {
        return Ok(seen(Search {
            missing: tried,
            ..*search
        }));
    }
    closed(outcomes, search.held, Came::Failed(a.error))
}

/// Begins to look for as much of this path as is there. Takes no memory.
pub fn begin(text: &[u8]) -> Search
    ensures { result ≡ begun (length (pieces text.now)) }
{
    let pieces = count_pieces(text);
    Search {
        pieces,
        there: 0,
        missing: pieces + 1,
        held: None,
    }
}

/// A try. Takes no memory.
///
/// The whole path is tried first. If a part of it is missing (ENOENT (2), ENOTDIR (20)), half of the pieces are tried
/// that lie between what is there and what is missing, until nothing lies between. If not even the first piece is
/// there, what is opened is the directory where the path begins.
///
/// Errors: any other one of a try, and each one of a try of no piece.
#[tactic(auto, using(dialogue::proofs::TalkLemmas::ran_then, dialogue::proofs::TalkLemmas::ran_ends), unfolding(crate::specs::Search::a_try))]
pub fn a_try(outcomes: &mut &[Outcome], search: &Search) -> Asked<Came>
    ensures { came_to result outcomes.new.now ≡ ran (a_try search.now) outcomes.old.now }
{
    let tried = tried(search);
    let outcome = ask(outcomes, Question::Try(tried, is_whole(search)))?;
    tried_so(outcomes, search, tried, outcome)
}
