//! Texts within HTML, and JSON within its element `script`.
ghost use Rattle.event_log.specs.Output.{Gains};
ghost use Rattle.pages.specs.Page.{html_byte, html_text, script_byte, script_text};

use event_log::Output;
use path_text::NoMemory;

// Adds a byte of a text of HTML.
fn html_byte(out: &mut Output, byte: u8) -> Result<(), NoMemory>
    ensures { Gains out.old out.new (html_byte byte) result }
{
    match byte {
        b'&' => out.text("&amp;"),
        b'<' => out.text("&lt;"),
        other => out.bytes([other].as_slice()),
    }
}

/// Adds a text of HTML.
pub(crate) fn html_text(out: &mut Output, text: &[u8]) -> Result<(), NoMemory>
    ensures { Gains out.old out.new (html_text text.now) result }
{
    for byte in text {
        html_byte(out, *byte)?;
    }
    Ok(())
}

// Adds a byte of JSON within a script.
fn script_byte(out: &mut Output, byte: u8) -> Result<(), NoMemory>
    ensures { Gains out.old out.new (script_byte byte) result }
{
    match byte {
        b'<' => out.text("\\u003c"),
        other => out.bytes([other].as_slice()),
    }
}

/// Adds JSON within a script.
pub(crate) fn script_text(out: &mut Output, json: &[u8]) -> Result<(), NoMemory>
    ensures { Gains out.old out.new (script_text json.now) result }
{
    for byte in json {
        script_byte(out, *byte)?;
    }
    Ok(())
}
