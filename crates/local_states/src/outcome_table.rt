//! How calls ended, each once but for the numbers of handles.
ghost use Rattle.std.specs.Prelude.{◌≡◌, ◌↔◌, [], ℕ, length, Some, slice_get, IsTrue, IfOk, IfSome, IfNone};
ghost use Rattle.race_core.specs.Renamed.{outcome_by, outcomes_by};
ghost use Rattle.local_states.specs.HandleTables.{AreNamed};
ghost use Rattle.local_states.specs.Distinct.{Keeps, AreEachOnce};

use path_text::NoMemory;
use race_core::{Outcome, is_like_outcome};
use std::alloc::Global;
use std::marker::Model;

/// Outcomes of calls, no two of them the same but for the numbers of handles, each known by its place. Contracts see
/// them with 0 for each of these numbers.
#[derive(Drop)]
pub(crate) struct OutcomeTable {
    outcomes: Vec<Outcome>,
}

impl Model for OutcomeTable {
    ghost use Rattle.std.specs.Prelude.{List, map};
    ghost use Rattle.race_core.specs.declared.report.Outcome.{Outcome};
    ghost use Rattle.race_core.specs.Renamed.{outcome_by};
    ghost use Rattle.local_states.specs.Distinct.{AreEachOnce};

    ghost Value = { List Outcome };

    ghost view = { λ t. map (outcome_by (λ h. 0)) t.outcomes.items };

    ghost invariant = { λ t. AreEachOnce (map (outcome_by (λ h. 0)) t.outcomes.items) };
}

impl OutcomeTable {
    /// No outcome yet.
    pub(crate) fn new(alloc: Global) -> OutcomeTable
        ensures { result ≡ [] }
    {
        OutcomeTable {
            outcomes: Vec::new(alloc),
        }
    }

    /// No two of them are equal.
    pub(crate) fn are_once(&self)
        ensures { AreEachOnce self.now }
    {
        let _ = &self.outcomes;
    }

    // How many there are.
    fn len(&self) -> usize
        ensures { result ≡ length self.now }
    {
        self.outcomes.len()
    }

    // Whether the outcome at that place is like that one.
    fn is_at(&self, at: usize, outcome: &Outcome) -> bool
        ensures { IsTrue result ↔ (slice_get self.now at ≡ Some (outcome_by (λ h. 0) outcome.now)) }
    {
        match self.outcomes.get(at) {
            Some(other) => is_like_outcome(other, outcome),
            None => false,
        }
    }

    // The place of an outcome like that one. Where there is none, no outcome is.
    fn place_of(&self, outcome: &Outcome) -> Option<usize>
        ensures there { IfSome result (λ at. slice_get self.now at ≡ Some (outcome_by (λ h. 0) outcome.now)) }
        ensures nowhere { IfNone result ((at : ℕ)
            → slice_get self.now at ≡ Some (outcome_by (λ h. 0) outcome.now) → ⊥) }
    {
        for at in 0..self.len() {
            if self.is_at(at, outcome) {
                return Some(at);
            }
        }
        None
    }

    // The place of an outcome like that one; a copy is put after the others where none is. NoMemory where its room was
    // refused: the outcomes are as they were then.
    fn put(&mut self, alloc: Global, outcome: &Outcome) -> Result<usize, NoMemory>
        ensures keeps { Keeps self.old self.new }
        ensures there { IfOk result (λ at. slice_get self.new at ≡ Some (outcome_by (λ h. 0) outcome.now)) }
    {
        if let Some(at) = self.place_of(outcome) {
            return Ok(at);
        }
        let at = self.len();
        self.outcomes.push(outcome.copy(alloc)?)?;
        Ok(at)
    }

    /// The places of outcomes like those, one by one; copies of those that are like none are put after the others.
    /// NoMemory where room was refused: some of them may have been put then.
    pub(crate) fn put_all(
        &mut self,
        alloc: Global,
        outcomes: &[Outcome],
    ) -> Result<Vec<usize>, NoMemory>
        ensures keeps { Keeps self.old self.new }
        ensures there { IfOk result (λ places. AreNamed self.new places.items (outcomes_by (λ h. 0) outcomes.now)) }
    {
        let mut places = Vec::with_capacity(alloc, outcomes.len())?;
        for outcome in outcomes {
            places.push(self.put(alloc, outcome)?)?;
        }
        Ok(places)
    }
}
