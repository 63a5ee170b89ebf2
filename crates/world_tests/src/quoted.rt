//! Texts and commas of JSON, by RFC 8259.
use event_log::Output;
use path_text::NoMemory;
use report_text::json_words::{comma, text};
use std::alloc::Global;
use std::test::Fail;

/// Bytes, and the text whose characters have these numbers. By section 7 a quote, a backslash and what is below 32 are
/// escaped, and nothing else has to be.
const TEXTS: [(&[u8], &str); 10] = [
    (&[], "\"\""),
    (&[b'a', b'/', b'b', b' '], "\"a/b \""),
    (&[b'"', b'\\', b'\''], "\"\\\"\\\\'\""),
    (
        &[0, 1, 2, 3, 4, 5, 6, 7],
        "\"\\u0000\\u0001\\u0002\\u0003\\u0004\\u0005\\u0006\\u0007\"",
    ),
    (
        &[8, 9, 10, 11, 12, 13, 14, 15],
        "\"\\b\\t\\n\\u000b\\f\\r\\u000e\\u000f\"",
    ),
    (
        &[16, 17, 18, 19, 20, 21, 22, 23],
        "\"\\u0010\\u0011\\u0012\\u0013\\u0014\\u0015\\u0016\\u0017\"",
    ),
    (
        &[24, 25, 26, 27, 28, 29, 30, 31],
        "\"\\u0018\\u0019\\u001a\\u001b\\u001c\\u001d\\u001e\\u001f\"",
    ),
    (&[32, 126, 127], "\" ~\u{7f}\""),
    (&[128, 191, 192, 255], "\"\u{80}\u{bf}\u{c0}\u{ff}\""),
    // the two bytes of é in UTF-8 are two characters
    (&[0xc3, 0xa9], "\"Ã©\""),
];

fn is_written(alloc: Global, bytes: &[u8], wanted: &str) -> Result<bool, NoMemory> {
    let mut out = Output::new(alloc);
    text(&mut out, bytes)?;
    Ok(out.as_slice() == wanted.as_bytes())
}

#[test]
fn escapes_what_json_has_to(rt: HostRuntime) -> Result<(), Fail> {
    for (bytes, wanted) in &TEXTS {
        assert!(rt; is_written(rt.alloc(), bytes, wanted)?, "{wanted}");
    }
    Ok(())
}

/// Some words as the list of them.
fn list_of(alloc: Global, words: &[&str]) -> Result<Output, NoMemory> {
    let mut out = Output::new(alloc);
    for (at, word) in words.iter().enumerate() {
        comma(&mut out, at)?;
        text(&mut out, word.as_bytes())?;
    }
    Ok(out)
}

#[test]
fn puts_a_comma_between_two(rt: HostRuntime) -> Result<(), Fail> {
    let alloc = rt.alloc();
    assert!(rt; list_of(alloc, &[])?.as_slice().is_empty());
    assert!(rt; list_of(alloc, &["a"])?.as_slice() == b"\"a\"".as_slice());
    assert!(rt; list_of(alloc, &["a", "", "b"])?.as_slice() == b"\"a\",\"\",\"b\"".as_slice());
    Ok(())
}
