//! What makes no part and no whole, and what can't be read or written.
use crate::parts::{Question, add_part, all_within, asked_of, merged};
use explore_command::{Silent, explore_part};
use explore_parts::merge_parts;
use outcome_text::{ExploreFault, MergeFault, Part, SearchFault, merge};
use scripts::{RunFault, ScriptFault};
use search_tests::scenes::{REMOVED, TWO_RESOLVE, script_of};
use std::alloc::Global;
use std::io::{self, ErrorKind, Read};

/// A beginning, who might have each of its turns, and how many schedules begin so.
type Begun = (&'static [u32], &'static [&'static [u32]], u64);

/// Five schedules that begin with actor 0.
const PART_0: Begun = (&[0], &[&[0, 1]], 5);

/// One schedule that begins with actor 1.
const PART_1: Begun = (&[1], &[&[0, 1]], 1);

/// Parts without outcomes, and why they make no whole, if they make none.
type Merge = (&'static [Begun], Option<MergeFault>);

#[rattlefmt::skip]
const MERGES: [Merge; 15] = [
    (&[PART_1, PART_0], None),
    (&[(&[], &[], 6)], None),
    // a part of no schedules may be there too
    (&[(&[2], &[&[0, 1]], 0), PART_0, PART_1], None),
    (&[], Some(MergeFault::NoSchedule)),
    (&[(&[], &[], 0)], Some(MergeFault::NoSchedule)),
    (&[PART_1, PART_0, PART_1], Some(MergeFault::Overlap(0, 2))),
    (&[PART_1, (&[0, 1], &[&[0, 1], &[0, 1]], 1), PART_0], Some(MergeFault::Overlap(1, 2))),
    (&[PART_0, (&[], &[], 6)], Some(MergeFault::Overlap(0, 1))),
    // the first part's neighbours in the order of words are the last one, with which it doesn't go along, and part 1
    (&[(&[0, 2], &[&[0, 1], &[0, 1, 2]], 1), PART_1, PART_0, (&[0, 1], &[&[0, 1], &[0, 1, 2]], 1)],
        Some(MergeFault::Overlap(0, 2))),
    // an overlap is told before a gap, even if one of the parts has no schedules
    (&[PART_0, (&[0], &[&[0, 1]], 0)], Some(MergeFault::Overlap(0, 1))),
    (&[PART_0], Some(MergeFault::Missing(0, 0, 1))),
    (&[(&[0], &[&[2, 0, 1]], 5), PART_1], Some(MergeFault::Missing(0, 0, 2))),
    (&[PART_1, (&[0, 0], &[&[0, 1], &[0, 1]], 4)], Some(MergeFault::Missing(1, 1, 1))),
    // a part of no schedules doesn't stand for any
    (&[PART_0, (&[1], &[&[0, 1]], 0)], Some(MergeFault::Missing(0, 0, 1))),
    (&[(&[0], &[&[0, 1]], 0), (&[1], &[&[0, 1]], 0)], Some(MergeFault::Missing(0, 0, 0))),
];

/// Equal rows.
fn rows_of(alloc: Global, rows: &[&[u32]]) -> Option<Vec<Vec<u32>>> {
    let mut all = Vec::new(alloc);
    for row in rows {
        all.push(row.to_vec(alloc).ok()?).ok()?;
    }
    Some(all)
}

/// The parts, each without outcomes.
fn parts_of(alloc: Global, begun: &[Begun]) -> Option<Vec<Part>> {
    let mut parts = Vec::new(alloc);
    for (begin, might, lists) in begun {
        let part = Part {
            begin: begin.to_vec(alloc).ok()?,
            might: rows_of(alloc, might)?,
            lists: *lists,
            turns: 0,
            all: Vec::new(alloc),
        };
        parts.push(part).ok()?;
    }
    Some(parts)
}

/// Why the parts make no whole, if they make none.
fn fault_of_parts(alloc: Global, begun: &[Begun]) -> Option<Option<MergeFault>> {
    let parts = parts_of(alloc, begun)?;
    Some(merge(alloc, parts, &Vec::new(alloc)).err())
}

#[test]
fn parts_that_make_no_whole_are_refused(rt: HostRuntime) {
    for (at, (begun, wanted)) in MERGES.iter().enumerate() {
        assert_eq!(rt;
            fault_of_parts(rt.alloc(), begun),
            Some(*wanted),
            "row {at}"
        );
    }
}

/// A script, the most cuts, and a beginning.
type Line = (&'static str, Option<&'static str>, &'static str);

/// Parts as lines, what stands after them, and why they make no whole, if they make none.
type Lines = (&'static [Line], &'static str, Option<MergeFault>);

/// The schedules that begin with actor 0.
const LINE_0: Line = (REMOVED, None, "0");

/// The schedules that begin with actor 1.
const LINE_1: Line = (REMOVED, None, "1");

#[rattlefmt::skip]
const LINES: [Lines; 18] = [
    (&[LINE_1, LINE_0], "", None),
    // without a cut actor 0 goes on once it has begun
    (&[(REMOVED, Some("0"), "1"), (REMOVED, Some("0"), "0*2")], "\n", None),
    (&[], "", Some(MergeFault::NoSchedule)),
    (&[], "\n\n", Some(MergeFault::NoSchedule)),
    (&[], "7", Some(MergeFault::NotAPart(0))),
    (&[LINE_0], "{\"part of\":", Some(MergeFault::NotAPart(1))),
    // empty lines are passed over, and have no place
    (&[LINE_1, LINE_0], "\n\n{}\n", Some(MergeFault::NotAPart(2))),
    // a line that is no part is told before parts that overlap, and of wrong lines the first
    (&[LINE_0, LINE_0], "\"part of\"", Some(MergeFault::NotAPart(2))),
    (&[LINE_0, (REMOVED, Some("0"), "1")], "7", Some(MergeFault::OtherQuestion(1))),
    (&[LINE_0, (TWO_RESOLVE, None, "1")], "", Some(MergeFault::OtherQuestion(1))),
    (&[LINE_0, (REMOVED, None, "1,0"), (REMOVED, Some("1"), "1*2")], "", Some(MergeFault::OtherQuestion(2))),
    (&[LINE_0, LINE_1, LINE_0], "", Some(MergeFault::Overlap(0, 2))),
    (&[LINE_1, (REMOVED, None, "0,1"), LINE_0], "", Some(MergeFault::Overlap(1, 2))),
    (&[LINE_1, (REMOVED, None, "")], "", Some(MergeFault::Overlap(0, 1))),
    (&[LINE_0], "", Some(MergeFault::Missing(0, 0, 1))),
    (&[LINE_1, (REMOVED, None, "0*2")], "", Some(MergeFault::Missing(1, 1, 1))),
    // where the turns can't be taken the part has no schedules, and those of others are missing
    (&[(REMOVED, None, "2")], "", Some(MergeFault::Missing(0, 0, 0))),
    (&[LINE_0, (REMOVED, None, "1*2")], "", Some(MergeFault::Missing(0, 0, 1))),
];

/// Parts as lines.
fn lines_of(alloc: Global, parts: &[Line]) -> Option<Vec<u8>> {
    let mut lines = Vec::new(alloc);
    for (script, cuts, begin) in parts {
        let asked = asked_of(alloc, &all_within(*cuts), *begin)?;
        add_part(alloc, &mut lines, script, &asked)?;
    }
    Some(lines)
}

/// Why lines make no whole, if they make none. Then nothing may be written, and else something is.
fn fault_of(alloc: Global, lines: &Lines) -> Option<Option<MergeFault>> {
    let (parts, more, _) = lines;
    let mut text = lines_of(alloc, parts)?;
    text.extend_from_slice(more.as_bytes()).ok()?;
    let mut reader = text.as_slice();
    let mut written: Vec<u8> = Vec::new(alloc);
    let fault = merge_parts(alloc, &mut reader, &mut written).err();
    if written.is_empty() == fault.is_some() {
        Some(fault)
    } else {
        None
    }
}

#[test]
fn lines_that_make_no_whole_are_refused(rt: HostRuntime) {
    for (at, lines) in LINES.iter().enumerate() {
        assert_eq!(rt; fault_of(rt.alloc(), lines), Some(lines.2), "row {at}");
    }
}

/// Whether lines of which these bits of that byte are changed are refused as none that were written, or as changed, and
/// nothing is written.
fn is_refused(alloc: Global, lines: &[u8], at: usize, bits: u8) -> Option<bool> {
    let mut text = lines.to_vec(alloc).ok()?;
    let byte = text.get_mut(at)?;
    *byte ^= bits;
    let mut reader = text.as_slice();
    let mut written: Vec<u8> = Vec::new(alloc);
    Some(match merge_parts(alloc, &mut reader, &mut written) {
        Err(MergeFault::NotAPart(_) | MergeFault::Spoilt(_)) => written.is_empty(),
        _ => false,
    })
}

/// The place of the first byte of two parts' lines of which a bit may be changed: of each byte another bit.
fn first_taken(alloc: Global) -> Option<usize> {
    let lines = lines_of(alloc, &[LINE_1, LINE_0])?;
    for (at, _) in lines.iter().enumerate() {
        if is_refused(alloc, &lines, at, 1 << (at % 8)) != Some(true) {
            return Some(at);
        }
    }
    None
}

#[test]
fn a_changed_bit_of_each_byte_is_seen(rt: HostRuntime) {
    assert!(rt; lines_of(rt.alloc(), &[LINE_1, LINE_0]).is_some());
    assert_eq!(rt; first_taken(rt.alloc()), None);
}

/// A script, what is asked of it, the most states, and why no part is told.
type Untold = (&'static str, Question, u64, ExploreFault);

/// Two actors, and a book of one line.
const ONE_LINE: &str = r#"{"version":1,"lines":1,"tree":[["dir","/c"]],"actors":[
{"root":"/c","calls":[]},{"root":"/c","calls":[]}]}"#;

#[rattlefmt::skip]
const UNTOLD: [Untold; 5] = [
    ("7", (&[], None, false, &[], &[]), 100, ExploreFault::Run(RunFault::Script(ScriptFault::NotObject))),
    (ONE_LINE, (&["2"], None, false, &[], &[]), 100, ExploreFault::Run(RunFault::BookFull)),
    (REMOVED, (&["1", "2"], None, false, &["held 2"], &[]), 100, ExploreFault::NoSuchActor(2)),
    (REMOVED, (&["1"], None, false, &["held 1"], &["held 2"]), 1, ExploreFault::NoSuchLine(1)),
    (REMOVED, (&["1"], None, false, &["held 1"], &[]), 14, ExploreFault::Search(SearchFault::TooManyStates)),
];

/// Why no part is told, if nothing is written.
fn untold(alloc: Global, case: &Untold) -> Option<ExploreFault> {
    let (script, question, states, _) = case;
    let mut asked = asked_of(alloc, question, "")?;
    asked.limits.states = *states;
    let script = script_of(alloc, script).ok()?;
    let mut written: Vec<u8> = Vec::new(alloc);
    let told = explore_part(alloc, &script, &mut written, &asked, &Silent, &mut Silent);
    if written.is_empty() { told.err() } else { None }
}

#[test]
fn parts_are_refused_as_scripts_are(rt: HostRuntime) {
    for (at, case) in UNTOLD.iter().enumerate() {
        assert_eq!(rt; untold(rt.alloc(), case), Some(case.3), "row {at}");
    }
}

/// A reader of a text, a few bytes at a time, whose second read fails.
#[derive(Drop)]
struct Halting<'a> {
    text: &'a [u8],
    kind: ErrorKind,
    reads: u32,
}

impl Read for Halting<'_> {
    fn read(&mut self, buf: &mut [u8]) -> io::Result<usize> {
        self.reads = self.reads.saturating_add(1);
        if self.reads == 2 {
            return Err(io::Error::from(self.kind));
        }
        let count = buf.len().min(100);
        self.text.read(&mut buf[..count])
    }
}

/// What is made of lines whose second read fails, and whether no property fails.
fn made_halting(
    alloc: Global,
    lines: &[u8],
    kind: ErrorKind,
) -> Result<(Vec<u8>, bool), MergeFault> {
    let mut reader = Halting {
        text: lines,
        kind,
        reads: 0,
    };
    let mut written = Vec::new(alloc);
    let holds = merge_parts(alloc, &mut reader, &mut written)?;
    Ok((written, holds))
}

/// Whether an interrupted read is tried again, and another one that fails ends the merge.
fn reads_whole(alloc: Global) -> Option<bool> {
    let lines = lines_of(alloc, [LINE_1, LINE_0].as_slice())?;
    let (text, _) = merged(alloc, &lines)?;
    let (again, _) = made_halting(alloc, &lines, ErrorKind::Interrupted).ok()?;
    let failed = made_halting(alloc, &lines, ErrorKind::ConnectionReset).err();
    Some(again.as_slice() == text.as_slice() && failed == Some(MergeFault::ReadFailed))
}

/// Why no whole is written into a room of 20 bytes.
fn unwritten(alloc: Global) -> Option<MergeFault> {
    let lines = lines_of(alloc, [LINE_1, LINE_0].as_slice())?;
    let mut reader = lines.as_slice();
    let mut room = [0u8; 20];
    let mut writer = room.as_mut_slice();
    merge_parts(alloc, &mut reader, &mut writer).err()
}

#[test]
fn merges_end_where_reads_and_writes_fail(rt: HostRuntime) {
    assert_eq!(rt; reads_whole(rt.alloc()), Some(true));
    assert_eq!(rt; unwritten(rt.alloc()), Some(MergeFault::WriteFailed));
}

/// Why no part is written into a room of 20 bytes.
fn unwritten_part(alloc: Global) -> Option<ExploreFault> {
    let asked = asked_of(alloc, &all_within(None), "0")?;
    let script = script_of(alloc, REMOVED).ok()?;
    let mut room = [0u8; 20];
    let mut writer = room.as_mut_slice();
    explore_part(alloc, &script, &mut writer, &asked, &Silent, &mut Silent).err()
}

#[test]
fn parts_end_where_writes_fail(rt: HostRuntime) {
    let write = ExploreFault::Run(RunFault::WriteFailed);
    assert_eq!(rt; unwritten_part(rt.alloc()), Some(write));
}
