//! Turns that are asked for in place of a script's schedule.
ghost use Rattle.std.specs.Prelude.{◌≡◌, ◌≢◌, ◌<◌, ◌≤◌, ◌^◌, ◌++◌, ℕ, List, map, decimal, replicate, Some, Ok, IfOk, IfErr, OnOk, MatchOption};
ghost use Rattle.scripts.specs.declared.turns.Turns.{Turns};
ghost use Rattle.scripts.specs.Fault.{IsFaultOf};
ghost use Rattle.scripts.specs.Limits.{MOST_ACTORS, MOST_TURNS};
ghost use Rattle.scripts.specs.Turns.{words_of, AreTurns, AllSay, SaysTurns, few_turns, turns_asked};

use crate::fault::{RunFault, ScriptFault};
use crate::schedule::TURNS_MAX;
use itoa::Buffer;
use path_text::NoMemory;
use std::alloc::Global;

/// Turns of one actor, one after another.
#[derive(Clone, Copy, Debug, PartialEq, Eq)]
pub struct Turns {
    pub actor: u32,
    pub times: u32,
}

/// Whose turns a world takes.
#[derive(Debug, Drop)]
pub enum TurnOrder {
    /// Those of the script's schedule.
    OfScript,
    /// Those that are asked for in its place.
    Asked(Vec<Turns>),
}

/// The number below 2^32 that a text says, if it says one: in decimal digits, with no zero before them.
pub fn number_of(text: &str) -> Option<u32>
    ensures cases { MatchOption result ((n : ℕ) → n < 2 ^ 32 → text.now ≢ decimal n) (λ n. text.now ≡ decimal n) }
    ensures only { (n : ℕ) → n < 2 ^ 32 → text.now ≡ decimal n → result ≡ Some n }
{
    let Ok(number) = text.parse::<u32>() else {
        return None;
    };
    let mut buffer = Buffer::new();
    if buffer.format(number) == text {
        Some(number)
    } else {
        None
    }
}

/// How often an actor comes, if the text is the number of so many turns.
fn times_of(text: &str) -> Option<u32>
    ensures { MatchOption result ((n : ℕ) → 1 ≤ n → n ≤ MOST_TURNS → text.now ≢ decimal n)
        (λ n. (text.now ≡ decimal n) × (1 ≤ n) × (n ≤ MOST_TURNS)) }
{
    let times = number_of(text)?;
    if 1 <= times && times <= TURNS_MAX as u32 {
        Some(times)
    } else {
        None
    }
}

/// The turns that the words of a piece say: the actor's number, and how often it comes.
fn turns_by(words: &[&str]) -> Option<Turns>
    ensures { MatchOption result ((turns : Turns) → AreTurns (map (λ word. word.now) words.now) turns → ⊥)
        (AreTurns (map (λ word. word.now) words.now)) }
{
    match words {
        [actor] => {
            let actor = number_of(actor)?;
            Some(Turns { actor, times: 1 })
        }
        [actor, times] => {
            let actor = number_of(actor)?;
            let times = times_of(times)?;
            Some(Turns { actor, times })
        }
        _ => None,
    }
}

/// The turns that a piece between commas says, `I` or `I*N`.
fn turns_in(alloc: Global, piece: &str) -> Result<Option<Turns>, NoMemory>
    ensures { IfOk result (λ said.
        MatchOption said ((turns : Turns) → AreTurns (words_of piece.now) turns → ⊥)
        (AreTurns (words_of piece.now))) }
{
    let words: Vec<&str> = piece.split('*').collect(alloc)?;
    Ok(turns_by(&words))
}

/// The turns that pieces say, one after another.
fn all_turns_in(alloc: Global, pieces: &[&str]) -> Result<Option<Vec<Turns>>, NoMemory>
    ensures { IfOk result (λ said.
        MatchOption said ((turns : List Turns) → AllSay (map (λ piece. piece.now) pieces.now) turns → ⊥)
        (λ turns. AllSay (map (λ piece. piece.now) pieces.now) turns.items)) }
{
    let mut all = Vec::with_capacity(alloc, pieces.len())?;
    for piece in pieces {
        let Some(turns) = turns_in(alloc, piece)? else {
            return Ok(None);
        };
        all.push(turns)?;
    }
    Ok(Some(all))
}

/// The turns that a text says, if it says some: `-` for none, or else commas between `I` and `I*N`, where I is an
/// actor's number below 2^32 and N is how often it comes, from 1 to 100,000. Numbers are written in decimal digits,
/// with no zero before them. NoMemory where room was refused.
pub fn read_turns(alloc: Global, text: &str) -> Result<Option<Vec<Turns>>, NoMemory>
    ensures { IfOk result (λ said.
        MatchOption said ((turns : List Turns) → SaysTurns text.now turns → ⊥)
        (λ turns. SaysTurns text.now turns.items)) }
{
    if text == "-" {
        return Ok(Some(Vec::new(alloc)));
    }
    let pieces: Vec<&str> = text.split(',').collect(alloc)?;
    all_turns_in(alloc, &pieces)
}

/// Adds the turns of one actor.
fn add_turns(schedule: &mut Vec<u32>, turns: Turns) -> Result<(), NoMemory>
    ensures { OnOk result (schedule.new.items ≡ schedule.old.items ++ replicate turns.times turns.actor) }
{
    for taken in 0..turns.times {
        schedule.push(turns.actor)?;
    }
    Ok(())
}

/// All turns that are asked for, one by one. Errors: `TooManyTurns` past `TURNS_MAX` of them; `NoMemory`.
fn one_by_one(alloc: Global, asked: &[Turns]) -> Result<Vec<u32>, RunFault>
    ensures ok { IfOk result (λ schedule. few_turns asked.now ≡ Ok schedule.items) }
    ensures err { IfErr result (IsFaultOf (few_turns asked.now)) }
{
    let mut schedule = Vec::new(alloc);
    for turns in asked {
        if turns.times as usize > TURNS_MAX - schedule.len() {
            return Err(RunFault::Script(ScriptFault::TooManyTurns));
        }
        add_turns(&mut schedule, *turns)?;
    }
    Ok(schedule)
}

/// The turns that are asked for, one by one, of so many actors. Errors, in this order: `TooManyTurns` past
/// `TURNS_MAX` of them; `Turn` of the first that is no actor's; `NoMemory`.
pub fn turns_asked(alloc: Global, actors: usize, asked: &[Turns]) -> Result<Vec<u32>, RunFault>
    requires { actors ≤ MOST_ACTORS }
    ensures ok { IfOk result (λ schedule. turns_asked actors asked.now ≡ Ok schedule.items) }
    ensures err { IfErr result (IsFaultOf (turns_asked actors asked.now)) }
{
    let schedule = one_by_one(alloc, asked)?;
    match schedule.iter().position(|actor| *actor as usize >= actors) {
        Some(at) => Err(RunFault::Script(ScriptFault::Turn(at))),
        None => Ok(schedule),
    }
}
