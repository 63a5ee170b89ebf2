//! Faults, told.
use path_text::Errno;
use scripts::{
    Cause, RunFault, Script, ScriptFault, check_strictly, each_refusal_is_told,
    first_refused_entry_is_told,
};
use std::alloc::Global;

/// Whether the fault is told in these words, and what was wanted in a second line.
fn tells(alloc: Global, fault: RunFault, want: &str) -> bool {
    let told = match fault.detail() {
        Some(detail) => format!(in alloc; "{fault}\n{detail}"),
        None => format!(in alloc; "{fault}"),
    };
    match told {
        Ok(told) => told.as_str() == want,
        Err(_) => false,
    }
}

/// A fault, and how it is told.
#[rattlefmt::skip]
const TOLD: [(RunFault, &str); 6] = [
    (RunFault::Script(ScriptFault::TreeEntry(7, Cause::Refused(Errno::Loop))),
        "script: tree 7\nELOOP: it has no place"),
    (RunFault::Script(ScriptFault::Call(1, 2, None)), "script: call 1 2\na call has an \"op\" with its fields"),
    (RunFault::ReadFailed, "read failed"),
    (RunFault::WriteFailed, "write failed"),
    (RunFault::NoMemory, "no memory"),
    (RunFault::BookFull, "book full"),
];

#[test]
fn tells_faults(rt: HostRuntime) {
    first_refused_entry_is_told();
    each_refusal_is_told();
    for (fault, want) in TOLD {
        assert!(rt; tells(rt.alloc(), fault, want), "{want}");
    }
}

/// Whether a script that is looked at strictly passes, or else is refused in these words.
fn is_checked_strictly(alloc: Global, script: &str, want: Option<&str>) -> bool {
    let Ok(bytes) = Vec::from_slice(alloc, script.as_bytes()) else {
        return false;
    };
    match (check_strictly(&Script::of(alloc, bytes)), want) {
        (Ok(()), None) => true,
        (Err(fault), Some(words)) => tells(alloc, fault, words),
        _ => false,
    }
}

#[test]
fn checks_strictly(rt: HostRuntime) {
    for (script, want) in [
        (r#"{"version":1,"tree":[],"actors":[]}"#, None),
        (
            r#"{"version":1,"trees":[]}"#,
            Some("script: unknown key\na script has version, tree, actors, schedule and lines"),
        ),
    ] {
        assert!(rt; is_checked_strictly(rt.alloc(), script, want), "{script}");
    }
}
