//! A list of parts, as a path text is read.
ghost use Rattle.std.specs.Prelude.{◌≡◌, ◌<◌, ◌≤◌, ◌+◌, ◌-◌, List, [], ◌∷◌, ◌++◌, length, take, drop, slice_get, Some, IsTrue, ◌↔◌, IfOk, OnOk, OnErr, false, ◌==◌, if◌then◌else◌};
ghost use Rattle.std.specs.List.{list_any};
ghost use Rattle.std.specs.Vec.{vec_len, vec_capacity};
ghost use Rattle.path_text.specs.Name.{NUL};
ghost use Rattle.path_text.specs.Parts.{parts_at, ArePlaces};
ghost use Rattle.path_text.specs.Text.{pieces, parts_of, has_final_slash};

use crate::bytes::Bytes;
use crate::errno::NoMemory;
use crate::part::Part;
use crate::places::{Span, push_pieces};
use crate::texts::{count_pieces, has_final_slash};
use std::alloc::Global;
use std::marker::Model;

/// Parts in order, whose bytes lie in one buffer. Contracts see them as their list.
#[derive(Debug, Drop)]
pub struct Parts {
    // The texts that the parts were read from.
    bytes: Vec<u8>,
    // Where the parts lie in the bytes, the first part's place last: there it is taken off without moving the others.
    spans: Vec<Span>,
}

impl Model for Parts {
    ghost use Rattle.std.specs.Prelude.{List};
    ghost use Rattle.path_text.specs.declared.part.Part.{Part};
    ghost use Rattle.path_text.specs.Parts.{parts_at, ArePlaces};

    ghost Value = { List Part };

    ghost view = { λ p. parts_at p.bytes.items p.spans.items };

    ghost invariant = { λ p. ArePlaces p.bytes.items p.spans.items };
}

// Takes the first part off. After the only one, the bytes go too.
fn take_first(bytes: &mut Vec<u8>, spans: &mut Vec<Span>)
    requires { ArePlaces bytes.old.items spans.old.items }
    ensures parts { parts_at bytes.new.items spans.new.items ≡ drop 1 (parts_at bytes.old.items spans.old.items) }
    ensures places { ArePlaces bytes.new.items spans.new.items }
    ensures few { (vec_len bytes.new ≤ vec_len bytes.old) × (vec_len spans.new ≤ vec_len spans.old) }
    ensures capacity { (vec_capacity bytes.new ≡ vec_capacity bytes.old)
        × (vec_capacity spans.new ≡ vec_capacity spans.old) }
{
    let _ = spans.pop();
    if spans.is_empty() {
        bytes.clear();
    }
}

// Puts the empty place onto the others, where the text ends in a slash.
fn push_slash(spans: &mut Vec<Span>, slash: bool, end: usize)
    requires { vec_len spans.old < vec_capacity spans.old }
    ensures items { spans.new.items
        ≡ spans.old.items ++ (if slash then record { start = end; end = end } ∷ [] else []) }
    ensures few { vec_len spans.new ≤ vec_len spans.old + 1 }
    ensures capacity { vec_capacity spans.new ≡ vec_capacity spans.old }
{
    if slash {
        spans.push_reserved(Span { start: end, end });
    }
}

// Puts the parts of a text, for which there is room, before all others.
fn put_parts(bytes: &mut Vec<u8>, spans: &mut Vec<Span>, text: &[u8], slash: bool)
    requires bytes { vec_len bytes.old + length text.now ≤ vec_capacity bytes.old }
    requires spans { vec_len spans.old + length (pieces text.now) + 1 ≤ vec_capacity spans.old }
    requires clean { list_any (λ b. b == NUL) text.now ≡ false }
    requires slash { slash ≡ has_final_slash text.now }
    requires places { ArePlaces bytes.old.items spans.old.items }
    ensures parts { parts_at bytes.new.items spans.new.items
        ≡ parts_of text.now ++ parts_at bytes.old.items spans.old.items }
    ensures places { ArePlaces bytes.new.items spans.new.items }
{
    let low = bytes.len();
    // There is room.
    let _ = bytes.extend_from_slice(text);
    push_slash(spans, slash, bytes.len());
    push_pieces(spans, bytes.as_slice(), low);
}

// Puts the parts of the text that the buffer is, where there are no others.
fn put_only(bytes: &[u8], spans: &mut Vec<Span>, slash: bool)
    requires room { length (pieces bytes.now) + 1 ≤ vec_capacity spans.old }
    requires none { spans.old.items ≡ [] }
    requires clean { list_any (λ b. b == NUL) bytes.now ≡ false }
    requires slash { slash ≡ has_final_slash bytes.now }
    ensures parts { parts_at bytes.now spans.new.items ≡ parts_of bytes.now }
    ensures places { ArePlaces bytes.now spans.new.items }
{
    push_slash(spans, slash, bytes.len());
    push_pieces(spans, bytes, 0);
}

impl Parts {
    /// No parts. Takes no memory.
    pub fn new(alloc: Global) -> Parts
        ensures { result ≡ [] }
    {
        Parts {
            bytes: Vec::new(alloc),
            spans: Vec::new(alloc),
        }
    }

    /// How many parts there are.
    pub fn len(&self) -> usize
        ensures { result ≡ length self.now }
    {
        self.spans.len()
    }

    /// Whether there is no part.
    pub fn is_empty(&self) -> bool
        ensures { IsTrue result ↔ (self.now ≡ []) }
    {
        self.spans.is_empty()
    }

    // How many bytes the texts have that the parts are of: no fewer than the parts together.
    pub(crate) fn size(&self) -> usize {
        self.bytes.len()
    }

    /// The part at a place, counted from 0.
    pub fn get<'a>(&'a self, at: usize) -> Part<'a>
        requires { at < length self.now }
        ensures { slice_get self.now at ≡ Some result }
    {
        let span = self.spans[self.spans.len() - 1 - at];
        Part::of_bytes(&self.bytes[span.start..span.end])
    }

    /// The first part, if there is one.
    pub fn first<'a>(&'a self) -> Option<Part<'a>>
        ensures { result ≡ slice_get self.now 0 }
    {
        if self.is_empty() {
            return None;
        }
        Some(self.get(0))
    }

    /// The last part, if there is one.
    pub fn last<'a>(&'a self) -> Option<Part<'a>>
        ensures { result ≡ slice_get self.now (length self.now - 1) }
    {
        if self.is_empty() {
            return None;
        }
        Some(self.get(self.len() - 1))
    }

    /// Takes the first part off, if there is one. Takes no memory.
    pub fn drop_first(&mut self)
        ensures { self.new ≡ drop 1 self.old }
    {
        take_first(&mut self.bytes, &mut self.spans);
    }

    /// Takes the last part off, if there is one. Takes no memory.
    pub fn drop_last(&mut self)
        ensures { self.new ≡ take (length self.old - 1) self.old }
    {
        if !self.spans.is_empty() {
            let _ = self.spans.remove(0);
        }
    }

    /// Puts the parts of a text without NUL in the place of the first part, or where there is none, before all.
    /// The answer is whether a slash at the text's end gave one of them. Where no other part is left, the text is kept
    /// as it came. NoMemory where room was refused, before anything changed.
    pub fn replace_first(&mut self, text: Bytes) -> Result<bool, NoMemory>
        requires { list_any (λ b. b == NUL) text ≡ false }
        ensures ok { OnOk result (self.new ≡ parts_of text ++ drop 1 self.old) }
        ensures slash { IfOk result (λ slash. slash ≡ has_final_slash text) }
        ensures err { OnErr result (self.new ≡ self.old) }
    {
        if self.spans.len() > 1 {
            self.put_with_others(text.as_slice())
        } else {
            self.put_alone(text.into_vec())
        }
    }

    // The same where other parts are left: the text is added to theirs.
    #[tactic(auto, using(crate::proofs::TextLemmas::pieces_half))]
    fn put_with_others(&mut self, text: &[u8]) -> Result<bool, NoMemory>
        requires { list_any (λ b. b == NUL) text.now ≡ false }
        ensures ok { OnOk result (self.new ≡ parts_of text.now ++ drop 1 self.old) }
        ensures slash { IfOk result (λ slash. slash ≡ has_final_slash text.now) }
        ensures err { OnErr result (self.new ≡ self.old) }
    {
        self.bytes.reserve(text.len())?;
        let count = count_pieces(text);
        let slash = has_final_slash(text, count);
        self.spans.reserve(count + 1)?;
        take_first(&mut self.bytes, &mut self.spans);
        put_parts(&mut self.bytes, &mut self.spans, text, slash);
        Ok(slash)
    }

    // The same where no other part is left: the text takes the place of the one before.
    #[tactic(auto, using(crate::proofs::TextLemmas::pieces_half))]
    fn put_alone(&mut self, text: Vec<u8>) -> Result<bool, NoMemory>
        requires clean { list_any (λ b. b == NUL) text.items ≡ false }
        requires alone { length self.old ≤ 1 }
        ensures ok { OnOk result (self.new ≡ parts_of text.items) }
        ensures slash { IfOk result (λ slash. slash ≡ has_final_slash text.items) }
        ensures err { OnErr result (self.new ≡ self.old) }
    {
        let count = count_pieces(&text);
        let slash = has_final_slash(&text, count);
        self.spans.reserve(count + 1)?;
        self.spans.clear();
        put_only(&text, &mut self.spans, slash);
        self.bytes = text;
        Ok(slash)
    }

    /// Equal parts. NoMemory where their room was refused.
    pub fn copy(&self, alloc: Global) -> Result<Parts, NoMemory>
        ensures { IfOk result (λ copy. copy ≡ self.now) }
    {
        let bytes = Vec::from_slice(alloc, self.bytes.as_slice())?;
        let spans = Vec::from_slice(alloc, self.spans.as_slice())?;
        Ok(Parts { bytes, spans })
    }

    /// Whether the two are the same parts in the same order.
    pub fn same(&self, other: &Parts) -> bool
        ensures { IsTrue result ↔ (self.now ≡ other.now) }
    {
        self.same_after(0, other, 0)
    }

    /// Whether the two are the same parts in the same order, after so many of each.
    pub fn same_after(&self, passed: usize, other: &Parts, others_passed: usize) -> bool
        requires { (passed ≤ length self.now) × (others_passed ≤ length other.now) }
        ensures { IsTrue result ↔ (drop passed self.now ≡ drop others_passed other.now) }
    {
        let left = self.len() - passed;
        if left != other.len() - others_passed {
            return false;
        }
        for at in 0..left {
            if !self.get(passed + at).same(&other.get(others_passed + at)) {
                return false;
            }
        }
        true
    }
}
