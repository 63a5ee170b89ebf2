//! The words of a script that stand for what is to be done.
ghost use Rattle.std.specs.Prelude.{◌≡◌};
ghost use Rattle.scripts.specs.Words.{op_name_of, step_name_of, mode_of};

use tree_model::Mode;

/// What the `op` of a call asks for, where that is an operation.
#[derive(Clone, Copy, Debug, PartialEq, Eq)]
pub enum OpName {
    Resolve,
    ResolveNoFollow,
    MkdirAll,
    ReadLink,
    CreateFile,
    CreateDir,
    CreateLink,
    RemoveFile,
    RemoveDir,
    RemoveAll,
    Rename,
}

/// What the `step` of a single step asks for.
#[derive(Clone, Copy, Debug, PartialEq, Eq)]
pub enum StepName {
    ReadLink,
    List,
    Below,
    MakeDir,
    MakeFile,
    MakeLink,
    RemoveFile,
    RemoveDir,
    Rename,
}

/// The operation that the word is the name of, if it is one.
pub fn op_name_of(word: &str) -> Option<OpName>
    ensures { result ≡ op_name_of word.now }
{
    match word {
        "resolve" => Some(OpName::Resolve),
        "resolve_nofollow" => Some(OpName::ResolveNoFollow),
        "mkdir_all" => Some(OpName::MkdirAll),
        "read_link" => Some(OpName::ReadLink),
        "create_file" => Some(OpName::CreateFile),
        "create_dir" => Some(OpName::CreateDir),
        "create_link" => Some(OpName::CreateLink),
        "remove_file" => Some(OpName::RemoveFile),
        "remove_dir" => Some(OpName::RemoveDir),
        "remove_all" => Some(OpName::RemoveAll),
        "rename" => Some(OpName::Rename),
        _ => None,
    }
}

/// What the `step` of a single step asks for, if the word is one.
pub fn step_name_of(word: &str) -> Option<StepName>
    ensures { result ≡ step_name_of word.now }
{
    match word {
        "read_link" => Some(StepName::ReadLink),
        "list" => Some(StepName::List),
        "below" => Some(StepName::Below),
        "make_dir" => Some(StepName::MakeDir),
        "make_file" => Some(StepName::MakeFile),
        "make_link" => Some(StepName::MakeLink),
        "remove_file" => Some(StepName::RemoveFile),
        "remove_dir" => Some(StepName::RemoveDir),
        "rename" => Some(StepName::Rename),
        _ => None,
    }
}

/// How a rename treats an entry that is there already, if the word says so.
pub fn mode_of(word: &str) -> Option<Mode>
    ensures { result ≡ mode_of word.now }
{
    match word {
        "plain" => Some(Mode::Plain),
        "noreplace" => Some(Mode::NoReplace),
        "exchange" => Some(Mode::Exchange),
        _ => None,
    }
}
