//! What a place of a picture shows of a text.
ghost use Rattle.std.specs.Prelude.{◌≡◌, ◌<◌, ◌≤◌, ◌^◌, length, replicate, IfOk, IfSome};
ghost use Rattle.event_log.specs.Output.{Gains};
ghost use Rattle.event_log.specs.Words.{BLANK};
ghost use Rattle.drawings.specs.Cells.{cut, fitted, to_right, is_blank, last_blank, row_end, mark_of, actor_name};

use event_log::Output;
use path_text::NoMemory;
use std::alloc::Global;

/// Adds so many blanks.
pub(crate) fn blanks(out: &mut Output, count: usize) -> Result<(), NoMemory>
    ensures { Gains out.old out.new (replicate count BLANK) result }
{
    for blank in 0..count {
        out.text(" ")?;
    }
    Ok(())
}

/// Adds a text, cut where it is wider than that.
pub(crate) fn cut(out: &mut Output, width: usize, text: &[u8]) -> Result<(), NoMemory>
    requires { 0 < width }
    ensures { Gains out.old out.new (cut width text.now) result }
{
    if text.len() <= width {
        return out.bytes(text);
    }
    out.bytes(&text[..width - 1])?;
    out.text("~")
}

/// Adds a text that takes exactly that width.
pub(crate) fn fitted(out: &mut Output, width: usize, text: &[u8]) -> Result<(), NoMemory>
    requires { 0 < width }
    ensures { Gains out.old out.new (fitted width text.now) result }
{
    cut(out, width, text)?;
    blanks(out, width.saturating_sub(text.len()))
}

/// Adds a text at the right end of that width.
pub(crate) fn to_right(out: &mut Output, width: usize, text: &[u8]) -> Result<(), NoMemory>
    ensures { Gains out.old out.new (to_right width text.now) result }
{
    blanks(out, width.saturating_sub(text.len()))?;
    out.bytes(text)
}

// Whether a text has a blank at that place.
fn is_blank(text: &[u8], at: usize) -> bool
    ensures { result ≡ is_blank text.now at }
{
    match text.get(at) {
        Some(byte) => *byte == b' ',
        None => false,
    }
}

// The last place up to that one where a text has a blank, but not its beginning; that one where there is none.
fn last_blank(text: &[u8], last: usize) -> usize
    requires some { 0 < last }
    requires within { last < length text.now }
    ensures place { result ≡ last_blank last text.now last }
    ensures some { 0 < result }
    ensures within { result ≤ last }
{
    let mut found = last;
    for at in 0..last {
        if is_blank(text, at + 1) {
            found = at + 1;
        }
    }
    found
}

/// How much of a text stands in a row of that width: all of it; or where that is too wide, what stands before the last
/// blank that leaves room, which the next row begins with; or where there is no blank, as much as has room.
pub(crate) fn row_end(width: usize, text: &[u8]) -> usize
    requires { 0 < width }
    ensures end { result ≡ row_end width text.now }
    ensures within { result ≤ length text.now }
{
    if text.len() <= width {
        return text.len();
    }
    last_blank(text, width)
}

/// What stands for a moment: its number, and nothing where there is none.
pub(crate) fn mark_of(alloc: Global, moment: Option<u64>) -> Result<Output, NoMemory>
    ensures mark { IfOk result (λ mark. mark ≡ mark_of moment) }
    ensures fits { IfSome moment (λ m. m < 2 ^ 64) }
{
    let mut mark = Output::new(alloc);
    if let Some(moment) = moment {
        mark.number(moment)?;
    }
    Ok(mark)
}

/// The name of an actor, by its number.
pub(crate) fn actor_name(alloc: Global, actor: u64) -> Result<Output, NoMemory>
    ensures { IfOk result (λ name. name ≡ actor_name actor) }
{
    let mut name = Output::new(alloc);
    name.text("actor ")?;
    name.number(actor)?;
    Ok(name)
}
