//! A world: a tree, and actors who take turns on it.
ghost use Rattle.std.specs.Prelude.{◌≡◌, ◌≢◌, ◌<◌, ◌≤◌, ◌+◌, ◌++◌, ℕ, length, None, true, false, IfOk, IfErr, OnOk, OnErr, slice_get, vec_len, vec_capacity};
ghost use Rattle.race_core.specs.Worlds.{IsTurnAt, IsCutTurnAt, LacksRoom, Lowers, is_busy_at, is_within_at, TakesTurn, first_beyond, Runs, GoesToEnd, AllGoToEnd, numbers_below, RunsOut, AllOver, ledgers_in, Reports, RunsTo, RefusesRun, Turns};
ghost use Rattle.race_core.specs.GivenUp.{AllGiveUp};

use crate::book::Book;
use crate::ledger::Ledger;
use crate::report::{Report, WorldFault};
use crate::seat::Seat;
use path_text::NoMemory;
use std::alloc::Global;
use std::marker::Model;
use tree_model::Tree;

mod copy;
mod seats;

/// A tree, and actors who take turns on it: a turn is one due step of the actor's call under way, or of its next
/// one. It can't be let go: `run` goes to its end. Contracts see it as a `WorldView`.
pub struct World<T: Tree> {
    pub(crate) book: Book<T>,
    pub(crate) seats: Vec<Seat>,
    // Memory for the report ran short.
    pub(crate) spent: bool,
}

impl<T: Tree> Model for World<T> {
    ghost use Rattle.race_core.specs.Worlds.{WorldView};

    ghost Value = { WorldView };

    ghost view = { λ w. record { book = w.book; seats = w.seats.items; spent = w.spent } };
}

// The first of these numbers that is no actor's.
fn first_beyond(schedule: &[u32], actors: usize) -> Option<u32>
    ensures { result ≡ first_beyond actors schedule.now }
{
    for actor in schedule {
        if *actor as usize >= actors {
            return Some(*actor);
        }
    }
    None
}

// One turn of the actor at that place. NoMemory where there was no room to take down the end of a call: the turn was
// made.
fn turn_seat<T: Tree>(
    alloc: Global,
    book: &mut Book<T>,
    seats: &mut [Seat],
    at: usize,
) -> Result<(), NoMemory>
    requires { at < length seats.old }
    ensures turned { OnOk result (IsTurnAt book.old seats.old at book.new seats.new) }
    ensures fewer { OnOk result (Lowers seats.old at seats.new) }
    ensures cut { OnErr result (IsCutTurnAt book.old seats.old at book.new seats.new) }
    ensures others { (i : ℕ) → i ≢ at → slice_get seats.new i ≡ slice_get seats.old i }
{
    let seat = &mut seats[at];
    seat.turn(alloc, book)
}

// Gives all calls under way up, the actors in their order.
fn clear<T: Tree>(alloc: Global, book: &mut Book<T>, seats: Vec<Seat>)
    ensures { AllGiveUp book.old seats.items book.new }
{
    let mut seats = seats.into_iter();
    while let Some(seat) = seats.next() {
        let _ledger = seat.give_up(alloc, book);
    }
    seats.destroy_empty();
}

// What came of each actor's calls, where no call is under way.
fn vacate<T: Tree>(alloc: Global, book: &mut Book<T>, seats: Vec<Seat>, ledgers: &mut Vec<Ledger>)
    requires over { AllOver seats.items }
    requires room { vec_len ledgers.old + vec_len seats ≤ vec_capacity ledgers.old }
    ensures ledgers { ledgers.new.items ≡ ledgers.old.items ++ ledgers_in seats.items }
    ensures book { book.new ≡ book.old }
{
    let mut seats = seats.into_iter();
    while let Some(seat) = seats.next() {
        ledgers.push_reserved(seat.give_up(alloc, book));
    }
    seats.destroy_empty();
}

// The report on this book and these ledgers. NoMemory where its room was refused.
fn report_on<T: Tree + Drop>(
    alloc: Global,
    book: Book<T>,
    ledgers: Vec<Ledger>,
) -> Result<Report<T>, NoMemory>
    ensures { IfOk result (λ report.
        Reports book ledgers.items
        (T.state report.tree) report.events.events report.replies.items report.kept.items) }
{
    let mut replies = Vec::new(alloc);
    let mut kept = Vec::new(alloc);
    for ledger in ledgers {
        let (outcomes, mut others) = ledger.into_parts();
        replies.push(outcomes)?;
        kept.append(&mut others)?;
    }
    let (tree, events, _opening) = book.into_parts();
    Ok(Report {
        events,
        replies,
        kept,
        tree,
    })
}

impl<T: Tree> World<T> {
    // One turn of the actor of that number. NoMemory where room for the report was refused, now or before.
    fn turn_at(&mut self, alloc: Global, at: usize) -> Result<(), NoMemory>
        requires { at < length self.old.seats }
        ensures turned { OnOk result (TakesTurn self.old at self.new) }
        ensures cut { OnErr result (LacksRoom self.old at self.new) }
        ensures actors { length self.new.seats ≡ length self.old.seats }
        ensures fewer { OnOk result (Lowers self.old.seats at self.new.seats) }
        ensures others { (i : ℕ) → i ≢ at → slice_get self.new.seats i ≡ slice_get self.old.seats i }
    {
        if self.spent {
            return Err(NoMemory);
        }
        let turned = turn_seat(alloc, &mut self.book, self.seats.as_mut_slice(), at);
        if turned.is_err() {
            self.spent = true;
        }
        turned
    }

    // Whether the actor of that number has something left to do.
    fn is_busy(&self, at: usize) -> bool
        requires { at < length self.now.seats }
        ensures { result ≡ is_busy_at self.now.seats at }
    {
        let seat = &self.seats[at];
        seat.is_busy()
    }

    // The actor of that number alone goes to its end. NoMemory as for a turn.
    fn to_end(&mut self, alloc: Global, at: usize) -> Result<(), NoMemory>
        requires { at < length self.old.seats }
        ensures end { OnOk result (GoesToEnd self.old at self.new) }
        ensures actors { length self.new.seats ≡ length self.old.seats }
        ensures others { (i : ℕ) → i ≢ at → slice_get self.new.seats i ≡ slice_get self.old.seats i }
    {
        'turns: while self.is_busy(at) {
            self.turn_at(alloc, at)?;
        }
        Ok(())
    }

    // The turns of a schedule, in order. NoMemory as for a turn.
    fn play(&mut self, alloc: Global, schedule: &[u32]) -> Result<(), NoMemory>
        requires { first_beyond (length self.old.seats) schedule.now ≡ None }
        ensures runs { OnOk result (Runs self.old schedule.now self.new) }
        ensures actors { length self.new.seats ≡ length self.old.seats }
    {
        for actor in schedule {
            self.turn_at(alloc, *actor as usize)?;
        }
        Ok(())
    }

    // The actors in the order of their numbers, each to its end. NoMemory as for a turn.
    fn all_to_end(&mut self, alloc: Global) -> Result<(), NoMemory>
        ensures rest { OnOk result (AllGoToEnd self.old (numbers_below (length self.old.seats)) self.new) }
        ensures over { OnOk result (AllOver self.new.seats) }
    {
        for at in 0..self.seats.len() {
            self.to_end(alloc, at)?;
        }
        Ok(())
    }

    // The schedule, and then all to their ends. NoMemory as for a turn.
    fn run_out(&mut self, alloc: Global, schedule: &[u32]) -> Result<(), NoMemory>
        requires { first_beyond (length self.old.seats) schedule.now ≡ None }
        ensures runs { OnOk result (RunsOut self.old schedule.now self.new) }
        ensures over { OnOk result (AllOver self.new.seats) }
    {
        self.play(alloc, schedule)?;
        self.all_to_end(alloc)
    }

    /// One turn of the actor of that number. It begins its next call, if none is under way, and makes one due step,
    /// which is at most one event. A call that is done at its start takes the whole turn. An actor without calls
    /// left does nothing. If memory, or room in the book, runs short for a step, the call gets that as the step's
    /// refusal.
    ///
    /// Errors: NoSuchActor where there is none of that number, which changes nothing; NoMemory where room for the
    /// report was refused, and from then on for good. The first NoMemory comes where there is no room to take down
    /// how a call ended: the turn was made then, and that end isn't taken down. Each later one changes nothing.
    pub fn turn(&mut self, alloc: Global, actor: u32) -> Result<(), WorldFault>
        ensures { Turns self.old actor self.new result }
    {
        let at = actor as usize;
        if at >= self.seats.len() {
            return Err(WorldFault::NoSuchActor(actor));
        }
        match self.turn_at(alloc, at) {
            Ok(()) => Ok(()),
            Err(_) => Err(WorldFault::NoMemory),
        }
    }

    /// How many actors there are.
    pub fn actors(&self) -> usize
        ensures { result ≡ length self.now.seats }
    {
        self.seats.len()
    }

    /// Whether the actor of that number has something left to do: a call under way, or calls to come. Nobody's number
    /// has nothing.
    #[tactic(auto, using(std::proofs::lemmas::Option::slice_get_past))]
    pub fn has_turns(&self, actor: u32) -> bool
        ensures { result ≡ is_busy_at self.now.seats actor }
    {
        let at = actor as usize;
        at < self.seats.len() && self.is_busy(at)
    }

    /// Whether a call of the actor of that number is under way.
    #[tactic(auto, using(std::proofs::lemmas::Option::slice_get_past))]
    pub fn is_within_call(&self, actor: u32) -> bool
        ensures { result ≡ is_within_at self.now.seats actor }
    {
        let at = actor as usize;
        if at >= self.seats.len() {
            return false;
        }
        let seat = &self.seats[at];
        seat.is_within_call()
    }

    /// Ends the world without its turns: each call under way is given up, by the Closes that are due, and nothing is
    /// told of what came of the others. Takes no memory.
    pub fn give_up(self, alloc: Global)
    where
        T: Drop,
    {
        let World {
            mut book,
            seats,
            spent: _,
        } = self;
        clear(alloc, &mut book, seats);
    }

    // The report on a world in which nobody has anything left to do. NoMemory where its room was refused.
    fn report(self, alloc: Global) -> Result<Report<T>, NoMemory>
    where
        T: Drop,
        requires { AllOver self.seats }
        ensures { IfOk result (λ report.
            Reports self.book (ledgers_in self.seats)
            (T.state report.tree) report.events.events report.replies.items report.kept.items) }
    {
        let World {
            mut book,
            seats,
            spent: _,
        } = self;
        let mut ledgers = Vec::new(alloc);
        let reserved = ledgers.reserve(seats.len());
        if reserved.is_err() {
            clear(alloc, &mut book, seats);
            return Err(NoMemory);
        }
        vacate(alloc, &mut book, seats, &mut ledgers);
        report_on(alloc, book, ledgers)
    }

    /// The turns of a schedule, one after another, and then the actors in the order of their numbers, each to its
    /// end; and what came of it. What a call still keeps at the end stays open.
    ///
    /// Errors: NoSuchActor of the first number of the schedule that is no actor's, before any turn; NoMemory where
    /// room for the report was refused, now or in an earlier turn. Each call under way is given up then.
    pub fn run(mut self, alloc: Global, schedule: &[u32]) -> Result<Report<T>, WorldFault>
    where
        T: Drop,
        ensures ran { IfOk result (λ report.
            RunsTo self schedule.now
            (T.state report.tree) report.events.events report.replies.items report.kept.items) }
        ensures refused { IfErr result (RefusesRun self schedule.now) }
    {
        if let Some(actor) = first_beyond(schedule, self.seats.len()) {
            self.give_up(alloc);
            return Err(WorldFault::NoSuchActor(actor));
        }
        if self.spent || self.run_out(alloc, schedule).is_err() {
            self.give_up(alloc);
            return Err(WorldFault::NoMemory);
        }
        match self.report(alloc) {
            Ok(report) => Ok(report),
            Err(_) => Err(WorldFault::NoMemory),
        }
    }
}
