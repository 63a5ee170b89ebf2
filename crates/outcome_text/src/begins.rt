//! A text kept beside another that begins as it does.
ghost use Rattle.std.specs.Prelude.{◌≡◌, ◌≤◌, ◌++◌, length, take, IfOk};

use path_text::{Bytes, NoMemory};
use std::alloc::Global;

/// So many elements, or all of them.
pub(crate) fn first_of<T>(all: &[T], many: usize) -> &[T]
    ensures { result.now ≡ take many all.now }
{
    if many < all.len() { &all[..many] } else { all }
}

// How many bytes two texts begin with alike.
fn alike(one: &[u8], other: &[u8]) -> usize
    ensures same { take result one.now ≡ take result other.now }
    ensures within { result ≤ length other.now }
{
    let most = one.len().min(other.len());
    for at in 0..most {
        if one[at] != other[at] {
            return at;
        }
    }
    most
}

/// Up to where a text begins as another does, and the rest of it. NoMemory where room was refused.
pub fn beside(alloc: Global, other: &[u8], text: &[u8]) -> Result<(usize, Bytes), NoMemory>
    ensures { IfOk result (λ kept. take kept.0 other.now ++ kept.1 ≡ text.now) }
{
    let same = alike(other, text);
    let rest = Bytes::from_slice(alloc, &text[same..])?;
    Ok((same, rest))
}
