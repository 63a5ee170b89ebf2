//! How many reads a script may take, how deep it may be, what turns a text says, and what a script is read for.
use scripts::{
    Cause, Purpose, RunFault, Script, ScriptFault, TurnOrder, is_too_deep, open_script, read_as,
    read_scenario, read_script, read_turns, reads_limit_is_a_number,
};
use serde_json::Value;
use std::alloc::Global;
use std::io::{self, ErrorKind, Read};

/// A reader that is interrupted so many times, and then is at its end. It counts its reads.
#[derive(Drop)]
struct Slow {
    interrupts: u32,
    reads: u32,
}

impl Read for Slow {
    fn read(&mut self, _block: &mut [u8]) -> io::Result<usize> {
        self.reads = self.reads.saturating_add(1);
        if self.reads <= self.interrupts {
            return Err(io::Error::from(ErrorKind::Interrupted));
        }
        Ok(0)
    }
}

/// How the script of a reader that is interrupted so many times is read, and by how many reads.
fn read_slowly(alloc: Global, interrupts: u32) -> (Option<RunFault>, u32) {
    let mut reader = Slow {
        interrupts,
        reads: 0,
    };
    let fault = read_script(alloc, &mut reader).err();
    (fault, reader.reads)
}

/// How often a reader is interrupted, and how its script is read.
const READS: [(u32, (Option<RunFault>, u32)); 3] = [
    (0, (None, 1)),
    (2_097_151, (None, 2_097_152)),
    (2_097_152, (Some(RunFault::ReadFailed), 2_097_152)),
];

#[test]
fn reads_end(rt: HostRuntime) {
    reads_limit_is_a_number();
    for (interrupts, wanted) in READS {
        assert!(rt;
            read_slowly(rt.alloc(), interrupts) == wanted,
            "{interrupts}"
        );
    }
}

/// A text of turns, and how many pieces it says, if it says turns.
const TURNS: [(&str, Option<usize>); 8] = [
    ("-", Some(0)),
    ("0", Some(1)),
    ("0*3,1", Some(2)),
    ("4294967295*100000", Some(1)),
    ("0*100001", None),
    ("0*0", None),
    ("01", None),
    ("", None),
];

fn pieces_of(alloc: Global, text: &str) -> Option<usize> {
    let turns = read_turns(alloc, text).ok()??;
    Some(turns.len())
}

#[test]
fn turns_are_read(rt: HostRuntime) {
    for (text, wanted) in TURNS {
        assert!(rt; pieces_of(rt.alloc(), text) == wanted, "{text}");
    }
}

/// How many lists stand in one another, and whether they are too deep.
const DEPTHS: [(usize, bool); 4] = [(0, false), (64, false), (65, true), (70, true)];

#[test]
fn nesting_ends(rt: HostRuntime) {
    let lists = "[[[[[[[[[[[[[[[[[[[[[[[[[[[[[[[[[[[[[[[[[[[[[[[[[[[[[[[[[[[[[[[[[[[[[[";
    for (depth, wanted) in DEPTHS {
        let text = lists.as_bytes().get(..depth).unwrap_or(b"");
        assert!(rt; is_too_deep(text) == wanted, "{depth}");
    }
}

/// A script; and how it is told whose turns it has, how its first actor's calls are served, and how it is opened.
type Case<'a> = (
    &'a str,
    Option<RunFault>,
    Option<RunFault>,
    Option<RunFault>,
);

const NO_OBJECT: Option<RunFault> = Some(RunFault::Script(ScriptFault::NotObject));

const NO_CALLS: Option<RunFault> = Some(RunFault::Script(ScriptFault::Actor(0, Cause::Shape)));

const NO_ACTORS: Option<RunFault> = Some(RunFault::Script(ScriptFault::Actors));

const NO_JOB: Option<RunFault> = Some(RunFault::Script(ScriptFault::NoJob(0)));

const RESOLVES: &str =
    r#"{"version":1,"tree":[],"actors":[{"root":"/","calls":[{"op":"resolve","path":"a"}]}]}"#;

const STEPS: &str = r#"{"version":1,"tree":[],"actors":[{"root":"/","calls":[
{"op":"step","step":"make_dir","on":"root","name":"n"}]}]}"#;

const SCRIPTS: [Case; 5] = [
    ("7", NO_OBJECT, NO_OBJECT, NO_OBJECT),
    (RESOLVES, None, None, None),
    // a single step is no job
    (STEPS, None, NO_JOB, None),
    // who walks makes no calls
    (
        r#"{"version":1,"tree":[],"actors":[{"root":"/"}]}"#,
        NO_CALLS,
        NO_CALLS,
        None,
    ),
    (
        r#"{"version":1,"tree":[]}"#,
        NO_ACTORS,
        NO_ACTORS,
        NO_ACTORS,
    ),
];

/// Why a script isn't read: for turns, for jobs, and to be opened.
fn unread(alloc: Global, text: &str) -> Option<[Option<RunFault>; 3]> {
    let script = Script::of(alloc, Vec::from_slice(alloc, text.as_bytes()).ok()?);
    let value = Value::from_str(alloc, text).ok()?;
    let turns = read_scenario(alloc, &script, &TurnOrder::OfScript).err();
    let jobs = read_as(alloc, Purpose::Jobs, &script, &TurnOrder::OfScript).err();
    Some([turns, jobs, open_script(alloc, &value).err()])
}

#[test]
fn scripts_are_read_for_what_they_are(rt: HostRuntime) {
    for (text, turns, jobs, walk) in SCRIPTS {
        assert!(rt;
            unread(rt.alloc(), text) == Some([turns, jobs, walk]),
            "{text}"
        );
    }
}
