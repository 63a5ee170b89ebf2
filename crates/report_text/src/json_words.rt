//! Texts and commas of JSON.
ghost use Rattle.std.specs.Prelude.{◌≡◌, ◌<◌};
ghost use Rattle.std.specs.Char.{digit_char, encode_utf8};
ghost use Rattle.std.specs.Str.{encode_utf8_all};
ghost use Rattle.json.specs.Print.{escape_byte, escape};
ghost use Rattle.report_text.specs.Json.{text_words, comma_words};
ghost use Rattle.event_log.specs.Output.{Gains};

use event_log::Output;
use path_text::NoMemory;

// A hexadecimal digit, in lower case.
fn hex_digit(value: u8) -> u8
    requires { value < 16 }
    ensures { result ≡ digit_char value }
{
    if value < 10 {
        b'0' + value
    } else {
        b'a' - 10 + value
    }
}

// Adds a byte of UTF-8 as JSON escapes it (RFC 8259, section 7).
#[tactic(auto, unfolding(json::specs::Print::escape_byte))]
fn byte(out: &mut Output, byte: u8) -> Result<(), NoMemory>
    ensures { Gains out.old out.new (escape_byte byte) result }
{
    match byte {
        b'"' => out.text("\\\""),
        b'\\' => out.text("\\\\"),
        0x08 => out.text("\\b"),
        0x0c => out.text("\\f"),
        b'\n' => out.text("\\n"),
        b'\r' => out.text("\\r"),
        b'\t' => out.text("\\t"),
        0x00..=0x1f => {
            let digits = [hex_digit(byte / 16), hex_digit(byte % 16)];
            out.text("\\u00")?;
            out.bytes(digits.as_slice())
        }
        other => out.bytes([other].as_slice()),
    }
}

// Adds the bytes of a text in UTF-8.
fn bytes(out: &mut Output, text: &[u8]) -> Result<(), NoMemory>
    ensures { Gains out.old out.new (escape text.now) result }
{
    for one in text {
        byte(out, *one)?;
    }
    Ok(())
}

// Adds the character whose number is this byte.
fn character(out: &mut Output, byte: u8) -> Result<(), NoMemory>
    ensures { Gains out.old out.new (escape (encode_utf8 byte)) result }
{
    let mut room = [0; 4];
    let coded = char::from(byte).encode_utf8(&mut room);
    bytes(out, coded.as_bytes())
}

// Adds the characters whose numbers are these bytes.
fn characters(out: &mut Output, text: &[u8]) -> Result<(), NoMemory>
    ensures { Gains out.old out.new (escape (encode_utf8_all text.now)) result }
{
    for one in text {
        character(out, *one)?;
    }
    Ok(())
}

/// Adds a text between its quotes (RFC 8259, section 7): each byte as the character with its number, so that any bytes
/// make a text of JSON. NoMemory where its room was refused; nothing is said of what was added then.
pub fn text(out: &mut Output, text: &[u8]) -> Result<(), NoMemory>
    ensures { Gains out.old out.new (text_words text.now) result }
{
    out.text("\"")?;
    characters(out, text)?;
    out.text("\"")
}

/// Adds a comma where something comes before: in front of each element of a list but the first, at 0 (RFC 8259,
/// section 5). NoMemory where its room was refused.
pub fn comma(out: &mut Output, at: usize) -> Result<(), NoMemory>
    ensures { Gains out.old out.new (comma_words at) result }
{
    if at == 0 {
        return Ok(());
    }
    out.text(",")
}
