//! What is told of a refused script beside the check that failed.
use crate::actors::ACTORS_MAX;
use crate::call_fault::{CallFault, Field};
use crate::calls::CALLS_MAX;
use crate::fault::{Cause, JsonFault, Loose, RunFault, ScriptFault};
use crate::input::SCRIPT_MAX;
use crate::keys::Keys;
use crate::nesting::LEVELS_MAX;
use crate::scenario::LINES_MAX;
use crate::schedule::TURNS_MAX;
use crate::tree::ENTRIES_MAX;
use path_text::Errno;
use std::fmt::{self, Display, Formatter};

/// What was wanted where a script is refused. Its `Display` is one line, without its end.
#[derive(Clone, Copy, Debug, PartialEq, Eq)]
pub struct Detail {
    fault: ScriptFault,
}

impl RunFault {
    ghost use Rattle.std.specs.Prelude.{◌≡◌};
    ghost use Rattle.scripts.specs.Fault.{detail_of};

    /// What was wanted, where a script is refused.
    pub fn detail(&self) -> Option<Detail>
        ensures { result ≡ detail_of self.now }
    {
        match self {
            RunFault::Script(fault) => Some(Detail { fault: *fault }),
            RunFault::ReadFailed
            | RunFault::WriteFailed
            | RunFault::NoMemory
            | RunFault::BookFull => None,
        }
    }
}

/// Why the tree has no place for an entry (the errors of `ListTree::from_entries`).
fn entry_words(error: Errno) -> &'static str {
    match error {
        Errno::NotFound => "its directory is no entry before it, or its link text is empty",
        Errno::NotDir => "what it lies in is no directory",
        Errno::Exists => "its place is taken",
        Errno::Invalid => "its link text has a NUL",
        Errno::TooLong => "its link text is too long",
        // Building a tree fails with no other.
        _ => "it has no place",
    }
}

/// Why an actor has no root there (the errors of `Tree::grant`).
fn root_words(error: Errno) -> &'static str {
    match error {
        Errno::NotFound => "its root is no entry of the tree",
        Errno::NotDir => "its root is no directory",
        // A first handle is granted but for these.
        _ => "it has no root there",
    }
}

/// What the field of a call is that has another shape.
fn shape_words(field: Field) -> &'static str {
    match field {
        Field::Mode => "none of plain, noreplace and exchange",
        Field::Beneath | Field::NoLinks => "neither true nor false",
        Field::Name | Field::New => "no name of an entry",
        _ => "no text",
    }
}

impl Display for JsonFault {
    fn fmt<W: fmt::Write>(&self, f: &mut Formatter<W>) -> fmt::Result {
        let what = if self.is_cut_short {
            "the text ends too soon"
        } else {
            "no JSON"
        };
        let (line, column) = (self.line, self.column);
        write!(f, "{what} at line {line}, column {column}")
    }
}

impl Display for CallFault {
    fn fmt<W: fmt::Write>(&self, f: &mut Formatter<W>) -> fmt::Result {
        match *self {
            CallFault::Missing(field) => write!(f, "\"{}\" is missing", field.key()),
            CallFault::Shape(field) => write!(f, "\"{}\" is {}", field.key(), shape_words(field)),
            CallFault::Unknown(Field::Step) => f.write_str("\"step\" names no step"),
            CallFault::Unknown(_) => f.write_str("\"op\" names no operation"),
            CallFault::NotGiven(field) => {
                write!(
                    f,
                    "\"{}\" is no label that a call before it gives",
                    field.key()
                )
            }
            CallFault::Taken => f.write_str(
                "\"as\" is root, or a label that a call before it gives",
            ),
            CallFault::ReleasesRoot => f.write_str("\"on\" is root, which is never released"),
        }
    }
}

impl Display for Keys {
    fn fmt<W: fmt::Write>(&self, f: &mut Formatter<W>) -> fmt::Result {
        f.write_str(match self {
            Keys::Script => "version, tree, actors, schedule and lines",
            Keys::Actor => "root and calls",
            Keys::Opening => "op, path, as, beneath and no_links",
            Keys::OnPath => "op, path, beneath and no_links",
            Keys::CreateLink => "op, path, text, beneath and no_links",
            Keys::Rename => "op, from, to, mode, beneath and no_links",
            Keys::Release => "op and on",
            Keys::Looking => "op, step and on",
            Keys::OnName => "op, step, on and name",
            Keys::MakeLink => "op, step, on, name and text",
            Keys::RenameStep => "op, step, on, name, to, new and mode",
        })
    }
}

/// Tells which keys there may be, or who looks at it.
fn write_loose<W: fmt::Write>(loose: Loose, f: &mut Formatter<W>) -> fmt::Result {
    match loose {
        Loose::Key => write!(f, "a script has {}", Keys::Script),
        Loose::ActorKey(_) => write!(f, "an actor has {}", Keys::Actor),
        Loose::CallKey(_, _, keys) => write!(f, "such a call has {keys}"),
        Loose::Restriction(_, _) => f.write_str("\"beneath\" and \"no_links\" are of version 2"),
        Loose::Label(_, _) => {
            f.write_str("no step and no release after it uses the label under \"as\"")
        }
    }
}

impl Display for Detail {
    fn fmt<W: fmt::Write>(&self, f: &mut Formatter<W>) -> fmt::Result {
        match self.fault {
            ScriptFault::TooLong => write!(f, "a script has at most {SCRIPT_MAX} bytes"),
            ScriptFault::TooDeep => write!(
                f,
                "at most {LEVELS_MAX} lists and objects stand in one another"
            ),
            ScriptFault::NotJson(fault) => write!(f, "{fault}"),
            ScriptFault::NotObject => f.write_str("a script is a JSON object"),
            ScriptFault::Version => f.write_str("\"version\" is 1 or 2"),
            ScriptFault::Lines => write!(f, "\"lines\" is 1 to {LINES_MAX}"),
            ScriptFault::Tree => f.write_str("\"tree\" is a list of entries"),
            ScriptFault::TooManyEntries => write!(f, "a tree has at most {ENTRIES_MAX} entries"),
            ScriptFault::TreeEntry(_, Cause::Shape) => f.write_str(
                "an entry is [\"dir\", PATH], [\"file\", PATH] or [\"link\", PATH, TEXT], and PATH has a slash before each name",
            ),
            ScriptFault::TreeEntry(_, Cause::Refused(error)) => {
                let (name, words) = (error.name(), entry_words(error));
                write!(f, "{name}: {words}")
            }
            ScriptFault::Actors => f.write_str("\"actors\" is a list with at least one actor"),
            ScriptFault::TooManyActors => write!(f, "a script has at most {ACTORS_MAX} actors"),
            ScriptFault::Actor(_, Cause::Shape) => f.write_str(
                "an actor is an object with a \"root\", which is / or has a slash before each name",
            ),
            ScriptFault::Actor(_, Cause::Refused(error)) => {
                let (name, words) = (error.name(), root_words(error));
                write!(f, "{name}: {words}")
            }
            ScriptFault::TooManyCalls(_) => write!(f, "an actor has at most {CALLS_MAX} calls"),
            ScriptFault::Call(_, _, Some(fault)) => write!(f, "{fault}"),
            // By `each_refusal_is_told` there is none without its fault.
            ScriptFault::Call(_, _, None) => f.write_str("a call has an \"op\" with its fields"),
            ScriptFault::NoJob(_) => f.write_str(
                "the first actor's calls are jobs, which have no order: no step and no release is among them",
            ),
            ScriptFault::Schedule => f.write_str("\"schedule\" is a list of actors' numbers"),
            ScriptFault::TooManyTurns => write!(f, "a schedule has at most {TURNS_MAX} turns"),
            ScriptFault::Turn(_) => f.write_str("a turn is an actor's number, counted from 0"),
            ScriptFault::Loose(loose) => write_loose(loose, f),
        }
    }
}
