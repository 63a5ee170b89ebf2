//! How a call restricts its resolution.

/// The restrictions of one call, of openat2(2). Both false is plain in-root resolution.
#[derive(Clone, Copy, Debug, PartialEq, Eq, Default)]
pub struct Flags {
    /// RESOLVE_BENEATH: nothing may lead out of the root, not even to have it absorbed there.
    pub beneath: bool,
    /// RESOLVE_NO_SYMLINKS: no symbolic link is followed.
    pub no_links: bool,
}
