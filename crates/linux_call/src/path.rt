//! The texts of a request.
pub(crate) use kernel_calls::{PathOf, front, piece};

/// The texts of a request; and the text that was read last, behind which anything may lie.
#[derive(Clone, Copy)]
pub(crate) struct Texts<'n> {
    pub first: PathOf<'n>,
    pub second: PathOf<'n>,
    /// The text of a link that is made.
    pub target: &'n [u8],
    pub read: &'n [u8],
    /// The first answer is that of the first path's look-up.
    pub looked: bool,
}

impl<'n> Texts<'n> {
    /// Of a call on another path.
    pub(crate) fn on(self, first: PathOf<'n>) -> Texts<'n> {
        Texts {
            first,
            looked: false,
            ..self
        }
    }
}
