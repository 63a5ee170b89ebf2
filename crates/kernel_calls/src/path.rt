//! The texts of a request.
ghost use Rattle.std.specs.Prelude.{◌≡◌, ◌≤◌, ◌+◌, false, length, take, drop};
ghost use Rattle.path_text.specs.Text.{ends_with_slash, pieces};
ghost use Rattle.kernel_calls.specs.Path.{place_in};

use path_text::{SLASH, before_slashes};

/// A path with a slash before it.
#[derive(Clone, Copy)]
pub struct PathOf<'n> {
    pub slashed: &'n [u8],
}

impl<'n> PathOf<'n> {
    #[inline(always)]
    pub fn new(slashed: &'n [u8]) -> PathOf<'n>
        ensures { result.slashed.now ≡ slashed.now }
    {
        PathOf { slashed }
    }

    #[inline(always)]
    pub fn text(self) -> &'n [u8]
        ensures { result.now ≡ drop 1 self.entry.slashed.now }
    {
        match self.slashed.split_first() {
            Some((_, text)) => text,
            None => self.slashed,
        }
    }

    /// A slash, and what stands behind it.
    #[inline(always)]
    pub fn place(self) -> &'n [u8]
        ensures { result.now ≡ place_in self.entry.slashed.now }
    {
        let text = self.text();
        if text.first() == Some(&SLASH) {
            text
        } else {
            self.slashed
        }
    }

    /// Its first bytes.
    #[inline(always)]
    pub fn front(self, length: usize) -> PathOf<'n>
        ensures { result.slashed.now ≡ take (1 + length) self.entry.slashed.now }
    {
        let slashed = self.slashed;
        PathOf {
            slashed: if length < slashed.len() {
                &slashed[..length + 1]
            } else {
                slashed
            },
        }
    }

    /// Its first bytes; `.` in the place of none.
    pub fn front_or_here(self, length: usize) -> PathOf<'n> {
        if length > 0 {
            self.front(length)
        } else {
            PathOf { slashed: b"/." }
        }
    }

    /// So many bytes from there on, before which a slash stands.
    #[inline(always)]
    pub fn part(self, at: usize, length: usize) -> PathOf<'n>
        ensures { result.slashed.now ≡ take (1 + length) (drop at self.entry.slashed.now) }
    {
        PathOf {
            slashed: behind(self.slashed, at),
        }
        .front(length)
    }

    #[inline(always)]
    pub fn piece(self, at: usize, length: usize) -> &'n [u8]
        ensures { result.now ≡ take length (drop at (drop 1 self.entry.slashed.now)) }
    {
        self.part(at, length).text()
    }
}

#[inline(always)]
fn behind(text: &[u8], at: usize) -> &[u8]
    ensures { result.now ≡ drop at text.now }
{
    if at < text.len() {
        &text[at..]
    } else {
        &text[..0]
    }
}

/// So many bytes of a text, from there on.
pub fn piece(text: &[u8], at: usize, length: usize) -> &[u8]
    ensures { result.now ≡ take length (drop at text.now) }
{
    front(behind(text, at), length)
}

/// The first bytes of a text.
#[inline(always)]
pub fn front(text: &[u8], length: usize) -> &[u8]
    ensures { result.now ≡ take length text.now }
{
    if length < text.len() {
        &text[..length]
    } else {
        text
    }
}

/// How long a text's first bytes are without the slashes at their end.
#[inline(always)]
pub(crate) fn unslashed(text: &[u8], count: usize) -> usize
    ensures pieces { pieces (take result text.now) ≡ pieces (take count text.now) }
    ensures last { ends_with_slash (take result text.now) ≡ false }
    ensures within { result ≤ length (take count text.now) }
{
    before_slashes(front(text, count)).len()
}
