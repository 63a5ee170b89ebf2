//! The words of a line, and the lines of a text.
ghost use Rattle.std.specs.Prelude.{◌≡◌, ◌-◌};
ghost use Rattle.command_line.specs.Cut.{NEWLINE, front, behind, lines_behind, is_within};

/// What stands before the first byte that is the mark, and what stands behind that byte.
pub(crate) fn cut(text: &[u8], mark: u8) -> (&[u8], &[u8])
    ensures front { result.0.now ≡ front mark text.now }
    ensures behind { result.1.now ≡ behind mark text.now }
{
    for (at, byte) in text.iter().enumerate() {
        if *byte == mark {
            return (&text[..at], &text[at + 1..]);
        }
    }
    (text, &[])
}

/// The line of that number, counted from 1, of a text.
pub(crate) fn line_at(text: &[u8], number: usize) -> &[u8]
    ensures { result.now ≡ front NEWLINE (lines_behind (number - 1) text.now) }
{
    let mut rest = text;
    for _ in 1..number {
        rest = cut(rest, b'\n').1;
    }
    cut(rest, b'\n').0
}

/// Whether a part stands somewhere in a text.
pub(crate) fn is_within(part: &[u8], text: &[u8]) -> bool
    ensures { result ≡ is_within part.now text.now }
{
    for (at, _byte) in text.iter().enumerate() {
        let (_, rest) = text.split_at(at);
        if rest.starts_with(part) {
            return true;
        }
    }
    false
}
