//! The text of a survey, written from where its blocks lie.
ghost use Rattle.std.specs.Prelude.{OnOk};
ghost use Rattle.std.specs.Io.KnownBytes.{Appends};
ghost use Rattle.outcome_text.specs.Survey.{woven};
ghost use Rattle.outcome_text.specs.Framed.{text_of};

use crate::ranked::Survey;
use crate::survey::Told;
use event_log::Output;
use std::io;
use std::io::Write;

// Writes the blocks of outcomes, each behind its line.
fn write_blocks<W: Write>(writer: &mut W, heads: &[Option<Output>], all: &[Told]) -> io::Result<()>
    ensures { OnOk result (Appends (W.contents writer.old) (W.contents writer.new) (woven heads.now all.now)) }
{
    for (told, head) in all.iter().zip(heads.iter()) {
        if let Some(head) = head {
            writer.write_all(head.as_slice())?;
            writer.write_all(told.begin())?;
            writer.write_all(told.rest.as_slice())?;
        }
    }
    Ok(())
}

impl Survey {
    /// Writes the text. The error is the writer's.
    pub fn write<W: Write>(&self, writer: &mut W) -> io::Result<()>
        ensures { OnOk result (Appends (W.contents writer.old) (W.contents writer.new) (text_of self.now)) }
    {
        writer.write_all(self.frame.front.as_slice())?;
        write_blocks(writer, &self.frame.heads, &self.outcomes)?;
        writer.write_all(self.frame.back.as_slice())
    }
}
