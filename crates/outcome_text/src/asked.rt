//! What `explore` is asked by the options of a command line, before it is read.
ghost use Rattle.std.specs.Prelude.{◌≡◌};
ghost use Rattle.outcome_text.specs.declared.asked.OptionFault.TheVariants as option_fault;

use path_text::NoMemory;
use thiserror::Error;

/// The texts of the options, of each as often as it was given.
#[derive(Clone, Copy, Debug, Default)]
pub struct Options<'a> {
    pub actors: &'a [&'a str],
    pub cuts: Option<&'a str>,
    pub begin: Option<&'a str>,
    pub states: Option<&'a str>,
    pub memory: Option<&'a str>,
    pub outside: bool,
    pub when: &'a [&'a str],
    pub never: &'a [&'a str],
    pub always: &'a [&'a str],
}

/// Which option has a text of another form.
#[derive(Clone, Copy, Debug, PartialEq, Eq, Error)]
pub enum OptionFault {
    #[error("--actor is an actor's number, counted from 0")]
    Actor,
    #[error("--cuts is a number up to 1000000")]
    Cuts,
    #[error("--begin is I or I*N between commas, I an actor and N 1 to 100000, or - for none; 100000 turns at most")]
    Begin,
    #[error("--states is a number from 1 to 10000000")]
    States,
    #[error("--memory is a number from 1 to 1000000")]
    Memory,
    #[error("--when, --never and --always take a line's beginning: reply, row or held, or outside with --outside, and words after it")]
    Text,
    /// Room was refused.
    #[error("no memory")]
    NoMemory,
}

impl From<NoMemory> for OptionFault {
    ghost from_gives = { λ _ fault. fault ≡ option_fault.NoMemory };

    fn from(_error: NoMemory) -> OptionFault {
        OptionFault::NoMemory
    }
}
