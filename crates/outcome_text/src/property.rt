//! Properties of reports: a line that no report may have, or that every report must have.
ghost use Rattle.std.specs.Prelude.{◌≡◌, IfOk, MatchOption, false, true, slice_get};
ghost use Rattle.std.specs.List.{list_all};
ghost use Rattle.outcome_text.specs.Property.{is_blank, tells, has, is_condition, fails, names_a_line, ends_in_blank, is_printed, is_property, rule_word};

use path_text::{Bytes, NoMemory};
use std::alloc::Global;

/// What a property says of its text.
#[derive(Clone, Copy, Debug, PartialEq, Eq)]
pub enum Rule {
    /// Only the reports that have it count.
    When,
    /// No report that counts has it.
    Never,
    /// Every report that counts has it.
    Always,
}

/// A rule for a text: a report has it where one of its lines `reply`, `row`, `held` or `outside` is the text, or
/// begins with the text and a blank.
#[derive(Debug, Drop)]
pub struct Property {
    pub rule: Rule,
    pub text: Bytes,
}

// Whether there is a blank at a place of a line.
fn has_blank(line: &[u8], at: usize) -> bool
    ensures { result ≡ is_blank (slice_get line.now at) }
{
    match line.get(at) {
        Some(byte) => *byte == b' ',
        None => false,
    }
}

/// Whether a line is the text, or begins with the text and a blank.
pub(crate) fn tells(text: &[u8], line: &[u8]) -> bool
    ensures { result ≡ tells text.now line.now }
{
    line == text || (line.starts_with(text) && has_blank(line, text.len()))
}

// Whether one of these lines does.
fn has(text: &[u8], lines: &[u8]) -> bool
    ensures { result ≡ has text.now lines.now }
{
    lines
        .split(|byte| *byte == b'\n')
        .any(|line| tells(text, line))
}

// Whether the first word of a text is that of a line of a reply, of an entry or of a count of handles; or of steps
// outside, where they are counted.
fn names_a_line(outside: bool, text: &[u8]) -> bool
    ensures { result ≡ names_a_line outside text.now }
{
    tells(b"reply", text)
        || tells(b"row", text)
        || tells(b"held", text)
        || (outside && tells(b"outside", text))
}

// Whether a text's last byte is a blank, so that its last word is none.
fn ends_in_blank(text: &[u8]) -> bool
    ensures { result ≡ ends_in_blank text.now }
{
    has_blank(text, text.len().saturating_sub(1))
}

// Whether a line can have such a byte.
fn is_printed(byte: u8) -> bool
    ensures { result ≡ is_printed byte }
{
    0x20 <= byte && byte <= 0x7e
}

// Whether a line can have each of these bytes.
fn are_printed(text: &[u8]) -> bool
    ensures { result ≡ list_all is_printed text.now }
{
    text.iter().all(|byte| is_printed(*byte))
}

// Whether a text can be a property's.
fn is_property(outside: bool, text: &[u8]) -> bool
    ensures { result ≡ is_property outside text.now }
{
    names_a_line(outside, text) && !ends_in_blank(text) && are_printed(text)
}

/// The property that a text says by that rule, if a line can have it: its first word is `reply`, `row` or `held`, or
/// `outside` where steps outside are counted, it doesn't end in a blank, and each of its bytes is from 0x20 to 0x7e.
/// NoMemory where room was refused.
pub fn read_property(
    alloc: Global,
    outside: bool,
    rule: Rule,
    text: &str,
) -> Result<Option<Property>, NoMemory>
    ensures { IfOk result (λ property.
        MatchOption property (is_property outside text.now ≡ false)
        (λ p. (is_property outside text.now ≡ true) × (p.rule ≡ rule) × (p.text ≡ text.now))) }
{
    let bytes = text.as_bytes();
    if !is_property(outside, bytes) {
        return Ok(None);
    }
    let text = Bytes::from_slice(alloc, bytes)?;
    Ok(Some(Property { rule, text }))
}

impl Rule {
    /// The word of a property by that rule, with a blank.
    pub fn word(self) -> &'static str
        ensures { result.now ≡ rule_word self }
    {
        match self {
            Rule::When => "when ",
            Rule::Never => "never ",
            Rule::Always => "always ",
        }
    }
}

impl Property {
    /// Whether it says which reports count.
    pub(crate) fn is_condition(&self) -> bool
        ensures { result ≡ is_condition self.now }
    {
        match self.rule {
            Rule::When => true,
            Rule::Never | Rule::Always => false,
        }
    }

    /// Whether a report with these lines breaks the rule.
    pub(crate) fn fails(&self, lines: &[u8]) -> bool
        ensures { result ≡ fails self.now lines.now }
    {
        let found = has(self.text.as_slice(), lines);
        match self.rule {
            Rule::Never => found,
            Rule::When | Rule::Always => !found,
        }
    }
}
