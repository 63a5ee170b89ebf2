//! How many words there are, and the least of them.
ghost use Rattle.std.specs.Prelude.{◌≡◌, ◌<◌, ◌+◌, ◌^◌, ◌++◌, ◌∷◌, [], Some, None, min, max, length, slice_get, IfOk, OnOk};
ghost use Rattle.schedule_graph.specs.Words.{is_not_after, is_at_most};
ghost use Rattle.schedule_graph.specs.Adding.{went, lesser, added};
ghost use Rattle.schedule_graph.specs.declared.count.TheConstants.{COUNT_CAP};

use crate::graph::Edge;
use path_text::NoMemory;
use smallvec::SmallVec;
use std::alloc::Global;
use std::marker::Model;

/// From here on numbers of words aren't told apart: it stands for itself and all that is more.
pub const COUNT_CAP: u64 = 1_000_000_000_000_000_000;

/// So many labels of a least word lie in its value. Where it has more, all are in an allocation.
pub const LABELS_IN_PLACE: usize = 64;

/// A word, and what it is ordered by. Contracts see it as a `Rank`.
#[derive(Debug, Drop)]
pub struct Least {
    /// How many of its edges are a cut.
    pub cuts: u64,
    /// How many of its edges are a change.
    pub changes: u64,
    /// Its labels.
    pub word: SmallVec<u8, LABELS_IN_PLACE>,
}

impl Model for Least {
    ghost use Rattle.schedule_graph.specs.Words.{Rank};

    ghost Value = { Rank };

    ghost view = { λ least. record { cuts = least.cuts; changes = least.changes; turns = least.word.items } };
}

/// How many words of some kind there are, and the least of them.
#[derive(Debug, Drop)]
pub struct Count {
    /// How many there are, or `COUNT_CAP` where they are more.
    pub words: u64,
    /// How many labels the longest of them has, and 0 where there is none.
    pub longest: usize,
    /// The one with the fewest cuts, of these one with the fewest changes, and of these the first one as lists of
    /// numbers go. None where there is none.
    pub least: Option<Least>,
}

/// What a graph comes to.
#[derive(Debug, Drop)]
pub struct Counts {
    /// Of each class.
    pub classes: Vec<Count>,
    /// Of all classes together, also those that weren't asked for.
    pub all: Count,
}

// The label at that place of a list that has one more behind it.
fn label_at(labels: &[u8], last: u8, at: usize) -> Option<u8>
    ensures { result ≡ slice_get (labels.now ++ last ∷ []) at }
{
    if at == labels.len() {
        return Some(last);
    }
    labels.get(at).copied()
}

// Whether the first list isn't after the others with that one more behind them.
fn is_not_after_with(labels: &[u8], others: &[u8], last: u8) -> bool
    ensures { result ≡ is_not_after labels.now (others.now ++ last ∷ []) }
{
    for (at, label) in labels.iter().enumerate() {
        let Some(other) = label_at(others, last, at) else {
            return false;
        };
        if *label != other {
            return *label < other;
        }
    }
    true
}

/// Whether the first list isn't after the second, in the order of words: the two are equal, or the first ends where the
/// second goes on, or its label is less where they first differ.
pub fn is_not_after(labels: &[u8], others: &[u8]) -> bool
    ensures { result ≡ is_not_after labels.now others.now }
{
    match others.split_last() {
        Some((last, others)) => is_not_after_with(labels, others, *last),
        None => labels.is_empty(),
    }
}

impl Least {
    // The word of no labels.
    pub(crate) fn start(alloc: Global) -> Least
        ensures { result ≡ record { cuts = 0; changes = 0; turns = [] } }
    {
        Least {
            cuts: 0,
            changes: 0,
            word: SmallVec::new(alloc),
        }
    }

    // Whether the word isn't after the other: by the cuts, then by the changes, then as lists.
    fn is_at_most(&self, other: &Least) -> bool
        ensures { result ≡ is_at_most self.now other.now }
    {
        if self.cuts != other.cuts {
            return self.cuts < other.cuts;
        }
        if self.changes != other.changes {
            return self.changes < other.changes;
        }
        is_not_after(self.word.as_slice(), other.word.as_slice())
    }

    // The same, where the other word goes on by that edge.
    fn is_at_most_by(&self, other: &Least, edge: &Edge) -> bool
        requires cuts { other.now.cuts + 1 < 2 ^ 64 }
        requires changes { other.now.changes + 1 < 2 ^ 64 }
        ensures { result ≡ is_at_most self.now (went other.now edge.now) }
    {
        let cuts = other.cuts + u64::from(edge.cut);
        if self.cuts != cuts {
            return self.cuts < cuts;
        }
        let changes = other.changes + u64::from(edge.change);
        if self.changes != changes {
            return self.changes < changes;
        }
        is_not_after_with(self.word.as_slice(), other.word.as_slice(), edge.label)
    }

    // The same word. NoMemory where its room was refused.
    pub(crate) fn copy(&self, alloc: Global) -> Result<Least, NoMemory>
        ensures { IfOk result (λ least. least ≡ self.now) }
    {
        Ok(Least {
            cuts: self.cuts,
            changes: self.changes,
            word: SmallVec::from_slice(alloc, self.word.as_slice())?,
        })
    }

    // The word that goes on by that edge. NoMemory where its room was refused.
    pub(crate) fn then(&self, alloc: Global, edge: &Edge) -> Result<Least, NoMemory>
        requires cuts { self.now.cuts + 1 < 2 ^ 64 }
        requires changes { self.now.changes + 1 < 2 ^ 64 }
        requires labels { length self.now.turns + 1 < 2 ^ 64 }
        ensures { IfOk result (λ least. least ≡ went self.now edge.now) }
    {
        let mut word = SmallVec::with_capacity(alloc, self.word.len() + 1)?;
        word.extend_from_slice(self.word.as_slice())?;
        word.push(edge.label)?;
        Ok(Least {
            cuts: self.cuts + u64::from(edge.cut),
            changes: self.changes + u64::from(edge.change),
            word,
        })
    }
}

impl Count {
    // Nothing counted yet.
    pub(crate) fn none() -> Count
        ensures { result ≡ record { words = 0; longest = 0; least = None } }
    {
        Count {
            words: 0,
            longest: 0,
            least: None,
        }
    }

    // So many words more, none longer than that.
    fn grow(&mut self, words: u64, length: usize)
        ensures { self.new ≡ record self.old {
          words = min (self.old.words + words) COUNT_CAP;
          longest = max self.old.longest length;
        } }
    {
        self.words = self.words.saturating_add(words).min(COUNT_CAP);
        self.longest = self.longest.max(length);
    }

    // Counts so many words more, of which that is the least, and none longer.
    pub(crate) fn add(&mut self, words: u64, least: Least)
        ensures { self.new ≡ added self.old words least }
    {
        self.grow(words, least.word.len());
        self.keep(least);
    }

    // Counts so many words more, of which the least goes on from that one by the edge, and none is longer. It takes
    // room only where it keeps that word. NoMemory where its room was refused.
    pub(crate) fn add_by(
        &mut self,
        alloc: Global,
        words: u64,
        least: &Least,
        edge: &Edge,
    ) -> Result<(), NoMemory>
        requires cuts { least.now.cuts + 1 < 2 ^ 64 }
        requires changes { least.now.changes + 1 < 2 ^ 64 }
        requires labels { length least.now.turns + 1 < 2 ^ 64 }
        ensures { OnOk result (self.new ≡ added self.old words (went least.now edge.now)) }
    {
        self.grow(words, least.word.len() + 1);
        self.keep_by(alloc, least, edge)
    }

    // Keeps the lesser of the two, where the other one goes on by that edge.
    fn keep_by(&mut self, alloc: Global, least: &Least, edge: &Edge) -> Result<(), NoMemory>
        requires cuts { least.now.cuts + 1 < 2 ^ 64 }
        requires changes { least.now.changes + 1 < 2 ^ 64 }
        requires labels { length least.now.turns + 1 < 2 ^ 64 }
        ensures { OnOk result (self.new
            ≡ record self.old { least = Some (lesser self.old.least (went least.now edge.now)) }) }
    {
        if let Some(kept) = &self.least {
            if kept.is_at_most_by(least, edge) {
                return Ok(());
            }
        }
        self.least = Some(least.then(alloc, edge)?);
        Ok(())
    }

    // Keeps the lesser of the two.
    fn keep(&mut self, least: Least)
        ensures { self.new ≡ record self.old { least = Some (lesser self.old.least least) } }
    {
        if let Some(kept) = &self.least {
            if kept.is_at_most(&least) {
                return;
            }
        }
        self.least = Some(least);
    }
}
