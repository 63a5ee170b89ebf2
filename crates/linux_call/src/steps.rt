//! The steps that an error may be of, by their numbers: those of a proved call, and the library's own.
pub(crate) use kernel_calls::steps::*;
use tree_model::{HandleNo, LentStep, StepOf};

/// A proved call's step: its number, the handle that the step is about, and its name. Of a rename, the old directory
/// and name.
pub(crate) fn parts_of<'s>(step: &LentStep<'s>) -> (u8, HandleNo, &'s [u8]) {
    let nameless = b"".as_slice();
    match step {
        StepOf::Open(dir, name) => (OPEN, *dir, name.bytes()),
        StepOf::Dup(dir) => (DUP, *dir, nameless),
        StepOf::Parent(dir) => (PARENT, *dir, nameless),
        StepOf::ReadLink(link) => (READ_LINK, *link, nameless),
        StepOf::NameBelow(_, object) => (NAME_BELOW, *object, nameless),
        StepOf::List(dir) => (LIST, *dir, nameless),
        StepOf::Close(object) => (CLOSE, *object, nameless),
        StepOf::MakeDir(dir, name) => (MAKE_DIR, *dir, name.bytes()),
        StepOf::MakeFile(dir, name) => (MAKE_FILE, *dir, name.bytes()),
        StepOf::MakeLink(dir, name, _) => (MAKE_LINK, *dir, name.bytes()),
        StepOf::RemoveFile(dir, name) => (REMOVE_FILE, *dir, name.bytes()),
        StepOf::RemoveDir(dir, name) => (REMOVE_DIR, *dir, name.bytes()),
        StepOf::Rename(dir, name, _, _, _) => (RENAME, *dir, name.bytes()),
    }
}
