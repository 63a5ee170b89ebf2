//! How a step ends.
use path_text::Errno;
use tree_model::Kind;

/// How a step ends.
#[derive(Clone, Copy, Debug)]
pub enum Ended {
    /// An object is open by this descriptor, and of this kind.
    Opened(u32, Kind),
    /// A link's text was read, of so many bytes.
    Text(u32),
    /// What was open is closed.
    Done,
    /// The step table refuses the step so.
    Refused(Errno),
    /// The step wasn't made, for this error (errno(3)).
    Unmade(u32),
}

/// Whether a directory is there still.
#[derive(Clone, Copy, Debug)]
pub enum There {
    Yes,
    /// It was removed.
    No,
    /// Its file system, or a directory of one that keeps links, can't be asked.
    Unknown,
    /// The directory can't be asked at all, by this error.
    Fails(u32),
}
