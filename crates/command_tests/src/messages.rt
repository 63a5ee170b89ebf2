//! What is told of a fault beside its own words.
use crate::commands::searched;
use command_line::{
    Fault, add_caret, add_excerpt, add_no_json, advise, begun, can_be_named, entry_of, entry_text,
    position_of, reason_of, row_line,
};
use event_log::Output;
use outcome_text::{ExploreFault, SearchFault};
use path_text::Errno;
use scripts::{CallFault, Cause, Field, JsonFault, Loose, ScriptFault};
use serde_json::Value;
use std::alloc::Global;

/// Whether that is told in the line after a fault of a search that may go through so many states.
fn is_advised(alloc: Global, fault: Fault, states: u64, line: &str, want: &str) -> bool {
    let mut out = Output::new(alloc);
    advise(&mut out, fault, states, line.as_bytes()).is_ok() && out.as_slice() == want.as_bytes()
}

const TOO_MANY: Fault = Fault::Explore(ExploreFault::Search(SearchFault::TooManyStates));

/// A fault, how many states a search may go through, the line of a property, and what is told.
#[rattlefmt::skip]
const ADVICE: [(Fault, u64, &str, &str); 7] = [
    (TOO_MANY, 7, "", "more than 7 states; --states takes up to 10000000"),
    (TOO_MANY, 10_000_000, "", "more than 10000000 states; --cuts and --begin leave fewer"),
    (Fault::Explore(ExploreFault::NoSuchLine(1)), 0, "reply 0 0 EAGAIN",
        "no report of the script has a line with 'reply 0 0 EAGAIN': after reply ACTOR CALL comes opened, \
                text, done, count, stepped or fault ERROR"),
    (Fault::Explore(ExploreFault::NoSuchLine(0)), 0, "row /none",
        "no report of the script has a line with 'row /none': after row comes the number or the path of \
                a directory, and then a name that the script has"),
    (Fault::BeginTurn(0), 0, "", "a turn is an actor's number, counted from 0"),
    (Fault::DrawActors, 0, "", "a picture has at most 4 actors"),
    (Fault::Usage, 0, "", ""),
];

#[test]
fn tells_limits_and_what_helps(rt: HostRuntime) {
    for (fault, states, line, want) in ADVICE {
        assert!(rt; is_advised(rt.alloc(), fault, states, line, want), "{want}");
    }
}

const SCRIPT: &str =
    "{\"tree\":[[\"dir\",\"/b c\"]],\"actors\":[{\"root\":\"\u{7f}\",\"calls\":[7]}],\"schedule\":[9]}";

/// Whether that is shown of the script; none where nothing is.
fn is_shown(alloc: Global, fault: ScriptFault, want: Option<&str>) -> Option<bool> {
    let script = Value::from_str(alloc, SCRIPT).ok()?;
    let is_there = entry_of(&script, fault).is_some() == want.is_some();
    match entry_text(alloc, &script, fault).ok()? {
        Some(text) => Some(is_there && want.map(|want| want.as_bytes()) == Some(text.as_slice())),
        None => Some(is_there && want.is_none()),
    }
}

/// A fault of the script, and what is shown of the script; none where nothing is.
#[rattlefmt::skip]
const SHOWN: [(ScriptFault, Option<&str>); 8] = [
    (ScriptFault::TreeEntry(0, Cause::Shape), Some("[\"dir\",\"/b c\"]")),
    (ScriptFault::TreeEntry(1, Cause::Shape), None),
    (ScriptFault::Actor(0, Cause::Shape), Some("{\"calls\":[7],\"root\":\"\\x7f\"}")),
    (ScriptFault::Actor(0, Cause::Refused(Errno::NotFound)), Some("\"\\x7f\"")),
    (ScriptFault::Call(0, 0, None), Some("7")),
    (ScriptFault::NoJob(0), Some("7")),
    (ScriptFault::Turn(0), Some("9")),
    (ScriptFault::Version, None),
];

#[test]
fn shows_what_is_refused(rt: HostRuntime) {
    for (fault, want) in SHOWN {
        assert!(rt; is_shown(rt.alloc(), fault, want) == Some(true), "{want:?}");
    }
}

/// Whether that is what is wrong with a script.
fn is_reason(alloc: Global, script: &str, fault: ScriptFault, want: Option<&str>) -> Option<bool> {
    let script = Value::from_str(alloc, script).ok()?;
    Some(reason_of(&script, fault) == want)
}

const ENTRY: ScriptFault = ScriptFault::TreeEntry(0, Cause::Shape);

const MISSING: ScriptFault = ScriptFault::TreeEntry(0, Cause::Refused(Errno::NotFound));

const ACTOR: ScriptFault = ScriptFault::Actor(0, Cause::Shape);

/// A script, the fault of its entry, actor or call, and what is wrong with that; none where nothing is told.
#[rattlefmt::skip]
const REASONS: [(&str, ScriptFault, Option<&str>); 14] = [
    (r#"{"tree":[["dir","/a/.."]]}"#, ENTRY, Some(". and .. are no names")),
    (r#"{"tree":[["dir","/a/"]]}"#, ENTRY,
        Some("a path has one slash before each name, and none at its end")),
    (r#"{"tree":[["dir","/a"]]}"#, ENTRY, None),
    (r#"{"tree":[["link","/a",""]]}"#, MISSING, Some("ENOENT: its link text is empty")),
    (r#"{"tree":[["dir","/a/b"]]}"#, MISSING, Some("ENOENT: its directory is no entry before it")),
    (r#"{"tree":[]}"#, MISSING, None),
    (r#"{"tree":[["dir","/a"]]}"#, ScriptFault::TreeEntry(0, Cause::Refused(Errno::Exists)), None),
    (r#"{"actors":[{"root":"/"}]}"#, ACTOR,
        Some("\"calls\" is missing, a list that may be empty; walk alone does without")),
    (r#"{"actors":[{"root":"c"}]}"#, ACTOR, Some("a path begins with a slash")),
    (r#"{"actors":[{"root":7,"calls":[]}]}"#, ACTOR, Some("\"root\" is no text")),
    (r#"{"actors":[{"root":"/c","calls":[]}]}"#, ACTOR, None),
    (r#"{"actors":[{"calls":[["resolve","a"]]}]}"#, ScriptFault::Call(0, 0, Some(CallFault::Missing(Field::Op))),
        Some("a call is an object, as {\"op\":\"resolve\",\"path\":\"a\"}")),
    (r#"{"actors":[{"calls":[{"op":"unlink"}]}]}"#, ScriptFault::Call(0, 0, Some(CallFault::Unknown(Field::Op))),
        Some("\"unlink\" is no operation: \"remove_file\" removes a file or a link")),
    (r#"{"actors":[{"calls":[{"op":"resolve"}]}]}"#, ScriptFault::Call(0, 0, Some(CallFault::Missing(Field::Path))),
        None),
];

#[test]
fn says_what_is_wrong(rt: HostRuntime) {
    for (script, fault, want) in REASONS {
        assert!(rt;
            is_reason(rt.alloc(), script, fault, want) == Some(true),
            "{script}"
        );
    }
}

/// Whether these lines are told of a text that is no JSON.
fn is_pointed(
    alloc: Global,
    script: &[u8],
    (line, column): (usize, usize),
    want: (&str, &str, &str),
) -> bool {
    let fault = JsonFault {
        is_cut_short: false,
        line,
        column,
    };
    let (mut reason, mut excerpt) = (Output::new(alloc), Output::new(alloc));
    let mut caret = Output::new(alloc);
    add_no_json(&mut reason, script, fault).is_ok()
        && add_excerpt(&mut excerpt, script, fault).is_ok()
        && add_caret(&mut caret, script, fault).is_ok()
        && reason.as_slice() == want.0.as_bytes()
        && excerpt.as_slice() == want.1.as_bytes()
        && caret.as_slice() == want.2.as_bytes()
}

/// A text that is no JSON, the line and the column of the fault, and what is told.
#[rattlefmt::skip]
const POINTED: [(&[u8], (usize, usize), (&str, &str, &str)); 5] = [
    (b"{\n[1,]}\n", (2, 4), ("not valid JSON at line 2, column 4: unexpected ']'", "[1,]}", "   ^")),
    (b"\"\xc3\xa9\\\"x", (1, 6),
        ("not valid JSON at line 1, column 6: unexpected 'x'", "\"\\xc3\\xa9\\\"x", "           ^")),
    (b"[]\n]", (1, 9), ("not valid JSON at line 1, column 9", "", "")),
    (b" \n\t", (2, 1), ("the script is empty: name its file, or give the script on standard input", "\\x09", "^")),
    (b"[\"\xff\"]", (1, 9), ("not UTF-8 after byte 2 of the script", "", "")),
];

#[test]
fn points_to_what_is_no_json(rt: HostRuntime) {
    for (script, place, want) in POINTED {
        assert!(rt; is_pointed(rt.alloc(), script, place, want), "{want:?}");
    }
}

const LINES: &str = r#"
{ "version": 7, "tree": [], "tree":[ ["dir","/a]\\"],["dir","/b"] ],
  "actors": [{"root":"/","calls":[]}, {
    "root": "/c", "calls": [ {"op":"resolve", "path":"a"},
      {"op":"open","path":"a"} ]}], "schedule":[0, 9] }"#;

#[test]
fn points_to_what_is_refused(rt: HostRuntime) {
    let unknown = CallFault::Unknown(Field::Op);
    for (script, fault, want) in [
        (LINES, ScriptFault::Version, Some((2, 14))),
        (
            LINES,
            ScriptFault::TreeEntry(0, Cause::Shape),
            Some((2, 38)),
        ),
        (
            LINES,
            ScriptFault::TreeEntry(1, Cause::Shape),
            Some((2, 54)),
        ),
        (LINES, ScriptFault::TreeEntry(2, Cause::Shape), None),
        (LINES, ScriptFault::Actor(1, Cause::Shape), Some((3, 39))),
        (
            LINES,
            ScriptFault::Actor(1, Cause::Refused(Errno::NotFound)),
            Some((4, 13)),
        ),
        (LINES, ScriptFault::Call(1, 1, Some(unknown)), Some((5, 13))),
        (
            LINES,
            ScriptFault::Call(1, 1, Some(CallFault::Missing(Field::Text))),
            Some((5, 7)),
        ),
        (LINES, ScriptFault::NoJob(0), None),
        (LINES, ScriptFault::Turn(1), Some((5, 52))),
        (LINES, ScriptFault::Loose(Loose::Label(1, 0)), None),
        ("[]", ScriptFault::NotObject, Some((1, 1))),
        (
            r#"{"\u0074ree":[7]}"#,
            ScriptFault::TreeEntry(0, Cause::Shape),
            None,
        ),
    ] {
        let place = position_of(script.as_bytes(), fault);
        let place = place.map(|place| (place.line, place.column));
        assert!(rt; place == want, "{place:?} {want:?}");
    }
}

/// The line that a property's text stands for in a script with two directories.
fn is_line(alloc: Global, text: &str, want: Option<&str>) -> Option<bool> {
    let script = r#"{"tree":[["file","/f"],["dir","/c"],["dir","/c/a"]]}"#;
    let script = Value::from_str(alloc, script).ok()?;
    match row_line(alloc, &script, text.as_bytes()).ok()? {
        Some(line) => Some(Some(line.as_slice()) == want.map(|want| want.as_bytes())),
        None => Some(want.is_none()),
    }
}

#[test]
fn takes_paths_of_directories(rt: HostRuntime) {
    for (text, want) in [
        ("row /", Some("row 0")),
        ("row /c", Some("row 2")),
        ("row /c/a made 7 dir", Some("row 3 made 7 dir")),
        ("row 9 made", Some("row 9 made")),
        ("row", Some("row")),
        (
            "reply 0 0 opened dir 2 /c",
            Some("reply 0 0 opened dir 2 /c"),
        ),
        ("row /f", None),
        ("row /c/", None),
        ("row /none made", None),
    ] {
        assert!(rt; is_line(rt.alloc(), text, want) == Some(true), "{text}");
    }
}

#[test]
fn knows_names_that_nothing_has(rt: HostRuntime) {
    for (script, text, want) in [
        ("[\"/c/made\"]", "row 1 made", true),
        ("[\"/c/made\"]", "row /c made 7", true),
        ("[\"/c/made\"]", "row 1 nonsense", false),
        ("[\"/c/made\"]", "row 1", true),
        ("[\"/c/made\"]", "held 1 nonsense", true),
        ("[\"/c/made\"]", "row 1 a\\x20b", true),
        ("[\"\\u0061\"]", "row 1 nonsense", true),
    ] {
        let can = can_be_named(script.as_bytes(), text.as_bytes());
        assert!(rt; can == want, "{script} {text}");
    }
}

fn idle(at: usize) -> Fault {
    searched(SearchFault::NotBusy(at))
}

/// The fault that is told of a script with one actor where a search has that one.
fn begun_for(alloc: Global, begin: &[u32], fault: Fault) -> Option<Fault> {
    let script = Value::from_str(alloc, r#"{"actors":[{"root":"/"}]}"#).ok()?;
    Some(begun(begin, &script, fault))
}

#[test]
fn blames_a_beginning_for_turns_of_no_actor(rt: HostRuntime) {
    for (fault, want) in [
        (idle(1), Fault::BeginTurn(1)),
        (idle(0), idle(0)),
        (idle(2), idle(2)),
        (Fault::DrawLines, Fault::DrawLines),
    ] {
        assert!(rt;
            begun_for(rt.alloc(), &[0, 9], fault) == Some(want),
            "{want:?}"
        );
    }
}
