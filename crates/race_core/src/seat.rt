//! One actor's place in a world: what it has to do, and its call under way.
ghost use Rattle.std.specs.Prelude.{◌≡◌, ◌+◌, None, OnOk, OnErr};
ghost use Rattle.race_core.specs.TurnView.{seat_at, LacksEnd, Starts, IsCutAtStart, GoesOn, IsCutGoingOn, IsTurned, IsCutShort, is_busy, steps_then, turns_of, turns_left, Lowers, is_within};
ghost use Rattle.race_core.specs.GivenUp.{GivesUp};

use crate::advance::{advance, give_up};
use crate::book::Book;
use crate::ledger::Ledger;
use path_text::NoMemory;
use root_ops::{Call, CallTurn};
use std::alloc::Global;
use tree_model::Tree;

/// What an actor has to do and what came of it, and its call under way. It can't be let go while one is: a world gives
/// it up.
pub struct Seat {
    pub(crate) ledger: Ledger,
    pub(crate) doing: Option<Call>,
}

impl Seat {
    // Keeps a call that goes on, and takes down the end of one that doesn't.
    fn settle(&mut self, alloc: Global, turn: CallTurn) -> Result<(), NoMemory>
        requires { self.old.doing ≡ None }
        ensures settled { OnOk result (self.new ≡ seat_at self.old.ledger turn) }
        ensures cut { OnErr result (LacksEnd (seat_at self.old.ledger turn) self.new) }
        ensures left { turns_left self.new ≡ steps_then turn + turns_of self.old.ledger.to_come }
    {
        match turn {
            CallTurn::More(call) => {
                match self.doing.replace(call) {
                    None => {}
                    Some(_lost) => unreachable!(),
                }
                Ok(())
            }
            CallTurn::Done(reply) => self.ledger.end(alloc, reply),
        }
    }

    // Begins the next call where none is under way, if one is to come.
    fn start(&mut self, alloc: Global) -> Result<(), NoMemory>
        ensures started { OnOk result (Starts self.old self.new) }
        ensures cut { OnErr result (IsCutAtStart self.old self.new) }
    {
        if self.doing.is_some() {
            return Ok(());
        }
        match self.ledger.begin(alloc) {
            Some(turn) => self.settle(alloc, turn),
            None => Ok(()),
        }
    }

    // Makes the step that is due, if a call is under way, and takes its answer.
    fn go_on<T: Tree>(&mut self, alloc: Global, book: &mut Book<T>) -> Result<(), NoMemory>
        ensures gone_on { OnOk result (GoesOn book.old self.old book.new self.new) }
        ensures cut { OnErr result (IsCutGoingOn book.old self.old book.new self.new) }
    {
        match self.doing.take() {
            Some(call) => {
                let turn = advance(alloc, book, self.ledger.actor(), call);
                self.settle(alloc, turn)
            }
            None => Ok(()),
        }
    }

    /// One turn: one due step of the call under way, which is the next one where none is. A call that is done at its
    /// start is the whole turn, and an actor without calls left does nothing. NoMemory where the room to take down a
    /// call's end was refused: then the turn was made, and that end isn't taken down.
    pub(crate) fn turn<T: Tree>(
        &mut self,
        alloc: Global,
        book: &mut Book<T>,
    ) -> Result<(), NoMemory>
        ensures turned { OnOk result (IsTurned book.old self.old book.new self.new) }
        ensures fewer { OnOk result (Lowers self.old self.new) }
        ensures cut { OnErr result (IsCutShort book.old self.old book.new self.new) }
    {
        self.start(alloc)?;
        self.go_on(alloc, book)
    }

    /// Whether the actor has something left to do.
    pub(crate) fn is_busy(&self) -> bool
        ensures { result ≡ is_busy self.now }
    {
        self.doing.is_some() || !self.ledger.is_done()
    }

    /// Whether a call is under way.
    pub(crate) fn is_within_call(&self) -> bool
        ensures { result ≡ is_within self.now }
    {
        self.doing.is_some()
    }

    /// Gives the call under way up, and leaves what came of the others.
    pub(crate) fn give_up<T: Tree>(self, alloc: Global, book: &mut Book<T>) -> Ledger
        ensures ledger { result ≡ self.ledger }
        ensures given_up { GivesUp book.old self book.new }
        ensures book { self.doing ≡ None → book.new ≡ book.old }
    {
        let Seat { ledger, doing } = self;
        if let Some(call) = doing {
            give_up(alloc, book, ledger.actor(), call);
        }
        ledger
    }
}
