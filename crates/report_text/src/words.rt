//! Words of a line that several lines have.
ghost use Rattle.std.specs.Prelude.{◌++◌, decimal};
ghost use Rattle.event_log.specs.Output.{Gains};

use event_log::Output;
use path_text::NoMemory;

/// Adds a text and a number after it, in decimal. NoMemory where its room was refused.
pub fn numbered(out: &mut Output, text: &str, number: u64) -> Result<(), NoMemory>
    ensures { Gains out.old out.new (text.now ++ decimal number) result }
{
    out.text(text)?;
    out.number(number)
}
