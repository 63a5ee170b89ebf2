//! How many pieces a path has, and where the first ones end.
ghost use Rattle.std.specs.Prelude.{◌≡◌, ◌≤◌, length, take};
ghost use Rattle.path_text.specs.Text.{pieces};
ghost use Rattle.open_partial.specs.Beginnings.{IsBeginning};

use path_text::SLASH;

// So many pieces stand in so many bytes.
#[derive(Drop)]
struct Scanned {
    pieces: usize,
    size: usize,
}

// The bytes of so many pieces, or all.
fn scan(text: &[u8], most: usize) -> Scanned
    ensures beginning { IsBeginning text.now most result.size }
    ensures pieces { result.pieces ≡ length (pieces (take result.size text.now)) }
    ensures few { result.pieces ≤ result.size }
{
    let mut at = 0;
    let mut pieces = 0;
    let mut is_free = true;
    while at < text.len() {
        let is_slash = text[at] == SLASH;
        if is_free && !is_slash {
            if pieces == most {
                return Scanned { pieces, size: at };
            }
            pieces += 1;
        }
        is_free = is_slash;
        at += 1;
    }
    Scanned { pieces, size: at }
}

pub(crate) fn count_pieces(text: &[u8]) -> usize
    ensures exact { result ≡ length (pieces text.now) }
    ensures few { result ≤ length text.now }
{
    scan(text, text.len()).pieces
}

/// How many bytes of a path have its first pieces, so many of them, with the slashes behind them: what comes then
/// begins with another piece. It is the whole path if that has no more pieces. A piece is what stands between
/// slashes.
pub fn beginning(text: &[u8], pieces: usize) -> usize
    ensures exact { IsBeginning text.now pieces result }
    ensures within { result ≤ length text.now }
{
    scan(text, pieces).size
}
