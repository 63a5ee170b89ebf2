//! What is seen of a path's text before it is read.
ghost use Rattle.std.specs.Prelude.{◌≡◌, ◌≢◌, ◌≤◌, ◌++◌, ◌∷◌, [], ℕ, ◌==◌, false, length, MatchOption};
ghost use Rattle.path_text.specs.Parts.{BeginsWith, IsBeforePiece, IsSeparated};
ghost use Rattle.path_text.specs.Text.{begins_with_slash, ends_with_slash, has_final_slash, name_size, pieces};

use crate::name::SLASH;

/// Whether a text begins with a slash, and so at the root (path_resolution(7)).
pub fn begins_with_slash(text: &[u8]) -> bool
    ensures { result ≡ begins_with_slash text.now }
{
    text.first() == Some(&SLASH)
}

/// Whether a text ends with a slash.
#[tactic(auto, using(crate::proofs::TextLemmas::ends_with_slash_last))]
pub fn ends_with_slash(text: &[u8]) -> bool
    ensures { result ≡ ends_with_slash text.now }
{
    text.last().copied() == Some(SLASH)
}

/// How many pieces a text has: what is between its slashes, `.` and `..` too, if it isn't empty (POSIX.1, Pathname
/// Resolution).
pub fn count_pieces(text: &[u8]) -> usize
    ensures { result ≡ length (pieces text.now) }
{
    text.split(|byte| *byte == SLASH)
        .filter(|piece| !piece.is_empty())
        .count()
}

/// Whether a text with this many pieces has one, and a slash at its end.
pub fn has_final_slash(text: &[u8], count: usize) -> bool
    requires { count ≡ length (pieces text.now) }
    ensures { result ≡ has_final_slash text.now }
{
    count > 0 && ends_with_slash(text)
}

/// How many bytes a text's first name has: those before the first slash, or all (path_resolution(7)).
pub fn name_length(text: &[u8]) -> usize
    ensures exact { result ≡ name_size text.now }
    ensures within { result ≤ length text.now }
{
    match text.iter().position(|byte| *byte == SLASH) {
        Some(at) => at,
        None => text.len(),
    }
}

// The text without the slash at its end, where it has one.
#[tactic(auto, using(crate::proofs::PlacesLemmas::ends_with_last))]
fn before_slash(text: &[u8]) -> Option<&[u8]>
    ensures { MatchOption result (ends_with_slash text.now ≡ false)
        (λ before. text.now ≡ before.now ++ SLASH ∷ []) }
{
    let (last, before) = text.split_last()?;
    if *last == SLASH { Some(before) } else { None }
}

/// The text without the slashes at its end: it has the same pieces.
pub fn before_slashes(text: &[u8]) -> &[u8]
    ensures beginning { BeginsWith text.now result.now }
    ensures pieces { pieces result.now ≡ pieces text.now }
    ensures last { ends_with_slash result.now ≡ false }
{
    let mut rest = text;
    while let Some(before) = before_slash(rest) {
        rest = before;
    }
    rest
}

// The text without its last byte, where that is there and no slash.
#[tactic(auto, using(crate::proofs::PlacesLemmas::separated_after))]
fn before_other(text: &[u8]) -> Option<&[u8]>
    ensures { MatchOption result (IsSeparated text.now) (λ before. (byte : ℕ)
        × (text.now ≡ before.now ++ byte ∷ []) × ((byte == SLASH) ≡ false)) }
{
    let (last, before) = text.split_last()?;
    if *last == SLASH { None } else { Some(before) }
}

/// A text that ends in a piece, without that piece: it is empty, or ends with a slash.
pub fn before_piece(text: &[u8]) -> &[u8]
    requires some { text.now ≢ [] }
    requires last { ends_with_slash text.now ≡ false }
    ensures { IsBeforePiece text.now result.now }
{
    let mut rest = text;
    while let Some(before) = before_other(rest) {
        rest = before;
    }
    rest
}
