//! Where the pieces of a text lie in it.
ghost use Rattle.std.specs.Prelude.{◌≡◌, ◌≤◌, ◌<◌, ◌+◌, ◌++◌, length, drop, map, false, ◌==◌};
ghost use Rattle.std.specs.List.{list_any};
ghost use Rattle.std.specs.Vec.{vec_len, vec_capacity};
ghost use Rattle.path_text.specs.Name.{NUL};
ghost use Rattle.path_text.specs.Parts.{parts_at, ArePlaces, BeginsWith};
ghost use Rattle.path_text.specs.Text.{pieces, part_of, ends_with_slash};

use crate::texts::{before_piece, before_slashes};

/// Where the bytes of a part lie in a buffer.
#[derive(Clone, Copy, Debug)]
pub(crate) struct Span {
    pub(crate) start: usize,
    pub(crate) end: usize,
}

// Puts the places of the pieces that stand in the buffer from `low` on onto the others, that of the first one last.
pub(crate) fn push_pieces(spans: &mut Vec<Span>, buffer: &[u8], low: usize)
    requires low { low ≤ length buffer.now }
    requires clean { list_any (λ b. b == NUL) (drop low buffer.now) ≡ false }
    requires room { vec_len spans.old + length (pieces (drop low buffer.now)) ≤ vec_capacity spans.old }
    requires places { ArePlaces buffer.now spans.old.items }
    ensures parts { parts_at buffer.now spans.new.items
        ≡ map part_of (pieces (drop low buffer.now)) ++ parts_at buffer.now spans.old.items }
    ensures places { ArePlaces buffer.now spans.new.items }
{
    let mut rest = &buffer[low..];
    while !rest.is_empty() {
        rest = push_last(spans, buffer, low, before_slashes(rest));
    }
}

// Puts the place of the last piece of a text, with which the buffer goes on from `low`, onto the others. The answer
// is the text before it.
fn push_last<'a>(spans: &mut Vec<Span>, buffer: &[u8], low: usize, ended: &'a [u8]) -> &'a [u8]
    requires low { low ≤ length buffer.now }
    requires beginning { BeginsWith (drop low buffer.now) ended.now }
    requires last { ends_with_slash ended.now ≡ false }
    requires clean { list_any (λ b. b == NUL) (drop low buffer.now) ≡ false }
    requires room { vec_len spans.old + length (pieces ended.now) ≤ vec_capacity spans.old }
    requires places { ArePlaces buffer.now spans.old.items }
    ensures beginning { BeginsWith (drop low buffer.now) result.now }
    ensures shorter { 0 < length result.now → length result.now < length ended.now }
    ensures parts { map part_of (pieces result.now) ++ parts_at buffer.now spans.new.items
        ≡ map part_of (pieces ended.now) ++ parts_at buffer.now spans.old.items }
    ensures room { vec_len spans.new + length (pieces result.now) ≤ vec_capacity spans.new }
    ensures places { ArePlaces buffer.now spans.new.items }
{
    if ended.is_empty() {
        return ended;
    }
    let before = before_piece(ended);
    let span = Span {
        start: low + before.len(),
        end: low + ended.len(),
    };
    spans.push_reserved(span);
    before
}
