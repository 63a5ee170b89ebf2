//! Records as getdents64(2) writes them, and others; and names in order.
use crate::rows::{letters, name_of, shown};
use std::alloc::{AllocError, Global};
use std::test::Fail;
use system_calls::{Coming, next_entry, sort_names, take_names};

// A record of getdents64(2), whose own length may be told as another.
pub(crate) fn put_record(
    records: &mut Vec<u8>,
    name: &[u8],
    length: u16,
) -> Result<(), AllocError> {
    records.extend_from_slice(&[7; 16])?;
    records.push((length % 256) as u8)?;
    records.push((length / 256) as u8)?;
    records.push(4)?;
    records.extend_from_slice(name)
}

/// Records by their lengths and names; the text to which they are taken, or a dash, whether it is full, and the error;
/// and the first entry, with how many bytes are behind it.
const RECORDS: &str = "\
: -, false ok; nothing
24 .\0\0\0\0, 24 a\0\0\0\0, 24 ..\0\0\0, 23 ..b\0: /a/..b, false ok; a 4, 47
21 .\0, 22 ab\0, 22 ..\0: /ab, false ok; ab 4, 22
27 abcdefg\0: /abcdefg, false ok; abcdefg 4, 0
28 abcdefgh\0: -, true ok; abcdefgh 4, 0
23 ab\0\0, 27 cdefgh\0\0, 21 c\0: /ab, true ok; ab 4, 48
22 ..\0: -, false ok; nothing
# a length of zero would go on without end, and others past the records' end or beside the next one
21 a\0, 0 b\0: /a, false EIO; a 4, 21
22 ..\0, 22 c\0: -, false EIO; fault
22 a\0: -, false EIO; fault
19 a\0: -, false EIO; fault
19 : -, false EIO; fault
# no NUL within the record, no name, and a name with a slash
21 ab\0: -, false EIO; fault
21 ab: -, false EIO; fault
20 \0: -, false EIO; fault
23 a/b\0: -, false EIO; fault
21 a\0, 23 a/b\0: /a, false EIO; a 4, 23";

fn said(alloc: Global, records: &[u8]) -> Result<String, AllocError> {
    let mut room = [b'-'; 8];
    let taken = take_names(records, &mut room);
    let text = shown(alloc, &room, taken.used.max(1))?;
    let (full, error) = (taken.full, name_of(taken.error.into()));
    match next_entry(records) {
        Coming::Entry(name, entry_type, behind) => {
            let name = String::from_utf8_lossy(alloc, name)?;
            format!(in alloc;
                "{text}, {full} {error}; {name} {entry_type}, {}",
                behind.len()
            )
        }
        Coming::Nothing => format!(in alloc; "{text}, {full} {error}; nothing"),
        Coming::Fault => format!(in alloc; "{text}, {full} {error}; fault"),
    }
}

#[test]
fn takes_the_names_of_entries(rt: HostRuntime) -> Result<(), Fail> {
    for row in RECORDS.lines() {
        let (told, wanted) = row.split_once(": ").unwrap_or(("", ""));
        let mut records = Vec::new(rt.alloc());
        for record in told.split(", ") {
            if let Some((length, name)) = record.split_once(' ') {
                put_record(&mut records, name.as_bytes(), length.parse().unwrap_or(0))?;
            }
        }
        let said = said(rt.alloc(), records.as_slice())?;
        assert!(rt;
            row.starts_with('#') || said.as_str() == wanted,
            "{row:?}: {said}"
        );
    }
    Ok(())
}

#[test]
fn a_name_has_at_most_255_bytes(rt: HostRuntime) -> Result<(), Fail> {
    for (size, length, error) in [("255", 275, 0), ("256", 276, 36)] {
        let mut records = Vec::new(rt.alloc());
        put_record(&mut records, letters(size).unwrap_or(b""), length)?;
        records.push(0)?;
        let mut room = [0; 300];
        assert!(rt;
            take_names(records.as_slice(), &mut room).error == error,
            "{size}"
        );
    }
    Ok(())
}

// Whether names are sorted to this text, in a room of so many bytes.
fn sorts(alloc: Global, text: &str, size: usize, wanted: &str, error: u8) -> bool {
    let mut room = [b'-'; 32];
    if size > 32 {
        return false;
    }
    let sorted = sort_names(alloc, text.as_bytes(), &mut room[..size]);
    sorted.error == error && room.get(..sorted.length) == Some(wanted.as_bytes())
}

#[test]
fn sorts_by_bytes(rt: HostRuntime) -> Result<(), Fail> {
    let alloc = rt.alloc();
    assert!(rt; sorts(alloc, "", 1, "/", 0));
    assert!(rt; sorts(alloc, "/b/a", 5, "/a/b", 0));
    assert!(rt; sorts(alloc, "/b/a/ab/B/a/a-b/.c", 32, "/.c/B/a/a/a-b/ab/b", 0));
    assert!(rt; sorts(alloc, "/b/a", 4, "", 34));
    assert!(rt; sorts(alloc, "", 0, "", 34));
    Ok(())
}
