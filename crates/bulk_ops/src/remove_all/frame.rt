//! A directory that is being cleared.
ghost use Rattle.std.specs.Prelude.{◌≡◌, ◌<◌, [], ◌∷◌, MatchResult, length};

use handles::Reached;
use path_text::{LentName, Names};

/// A directory that is held, and the names of the entries that are to be cleared in it: those before the place are,
/// and the one at the place is under way.
#[derive(Debug)]
pub(crate) struct Frame {
    pub(crate) dir: Reached,
    pub(crate) names: Names,
    pub(crate) at: usize,
    ghost under_way: { at < length names },
}

impl Frame {
    ghost use Rattle.bulk_ops.specs.RemoveAllView.{level_of, level_at};

    /// The directory with the first of its entries under way; or the directory itself, where it has none.
    pub(crate) fn first(dir: Reached, names: Names) -> Result<Frame, Reached>
        ensures { MatchResult result (λ frame. level_at dir.handle names ≡ level_of frame ∷ [])
            (λ empty. (names ≡ []) × (empty ≡ dir)) }
    {
        if names.is_empty() {
            Err(dir)
        } else {
            Ok(Frame { dir, names, at: 0 })
        }
    }

    /// The directory with the next of its entries under way; or the directory itself, where that was the last.
    pub(crate) fn next(self) -> Result<Frame, Reached>
        ensures { MatchResult result
            (λ frame. level_at self.dir.handle (level_of self).others ≡ level_of frame ∷ [])
            (λ cleared. ((level_of self).others ≡ []) × (cleared ≡ self.dir)) }
    {
        let Frame { dir, names, at } = self;
        let count = names.len();
        if at + 1 < count {
            Ok(Frame {
                dir,
                names,
                at: at + 1,
            })
        } else {
            Err(dir)
        }
    }

    /// The directory alone.
    pub(crate) fn into_dir(self) -> Reached
        ensures { result ≡ self.dir }
    {
        let Frame {
            dir,
            names: _,
            at: _,
        } = self;
        dir
    }

    /// The name of the entry under way, lent.
    pub(crate) fn name(&self) -> LentName<'_>
        ensures { result ≡ (level_of self.now).name }
    {
        self.names.lend(self.at)
    }
}
