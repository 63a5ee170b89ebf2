//! What is seen of a path's text before it is read, of texts with slashes at their ends, between names, and alone.
use path_text::{
    before_piece, before_slashes, begins_with_slash, count_pieces, ends_with_slash,
    has_final_slash, name_length,
};
use std::test::Fail;

// A text, whether a slash begins and ends it, its pieces, and how many bytes come before its first slash.
fn is_seen(text: &[u8], begins: bool, ends: bool, pieces: usize, first: usize) -> bool {
    let count = count_pieces(text);
    begins_with_slash(text) == begins
        && ends_with_slash(text) == ends
        && count == pieces
        && has_final_slash(text, count) == (ends && pieces > 0)
        && name_length(text) == first
}

#[test]
fn texts_are_seen(rt: HostRuntime) -> Result<(), Fail> {
    assert!(rt; is_seen(b"", false, false, 0, 0));
    assert!(rt; is_seen(b"/", true, true, 0, 0));
    assert!(rt; is_seen(b"//", true, true, 0, 0));
    assert!(rt; is_seen(b"a", false, false, 1, 1));
    assert!(rt; is_seen(b"/a", true, false, 1, 0));
    assert!(rt; is_seen(b"/a/bc/d", true, false, 3, 0));
    assert!(rt; is_seen(b"ab//c//", false, true, 2, 2));
    assert!(rt; is_seen(b"../.", false, false, 2, 2));
    Ok(())
}

// The text without the slashes at its end, and what comes before the last piece then.
fn is_cut(text: &[u8], ended: &[u8], before: &[u8]) -> bool {
    let rest = before_slashes(text);
    rest == ended
        && if rest.is_empty() {
            before.is_empty()
        } else {
            before_piece(rest) == before
        }
}

#[test]
fn texts_are_cut(rt: HostRuntime) -> Result<(), Fail> {
    assert!(rt; is_cut(b"", b"", b""));
    assert!(rt; is_cut(b"//", b"", b""));
    assert!(rt; is_cut(b"a", b"a", b""));
    assert!(rt; is_cut(b"/a/", b"/a", b"/"));
    assert!(rt; is_cut(b"ab//c//", b"ab//c", b"ab//"));
    assert!(rt; is_cut(b"a/..", b"a/..", b"a/"));
    Ok(())
}
