//! Lines of reports that no run of a script has, and what stands alone. Whole reports are outputs of `replay`.
use event_log::{EventLog, Output};
use fixtures::{names_of, tree_of};
use path_text::{Errno, Name, Names, NoMemory};
use race_core::{Outcome, Outcomes};
use report_text::{event_words, events, held, replies, reply_words, rows, rows_have_lines};
use std::alloc::Global;
use std::test::Fail;
use tree_list::ListTree;
use tree_model::{Actor, Answer, Event, HandleNo, Kind, Node, StepOf, Tree};

/// How the calls of the third actor ended.
fn calls(alloc: Global) -> Result<Outcomes, NoMemory> {
    let mut calls = Outcomes::new(alloc);
    calls.push(Outcome::Done)?;
    calls.push(Outcome::Count(18_446_744_073_709_551_615))?;
    calls.push(Outcome::Stepped(Answer::Refused(Errno::NotEmpty)))?;
    calls.push(Outcome::Fault(Errno::BookFull))?;
    Ok(calls)
}

/// The calls of the third actor, and then the words of each.
const REPLIES: &str = "reply 2 0 done
reply 2 1 count 18446744073709551615
reply 2 2 stepped refused ENOTEMPTY
reply 2 3 fault ENOSPC
done
count 18446744073709551615
stepped refused ENOTEMPTY
fault ENOSPC
";

/// The calls of three actors, of whom the first two have none.
fn all_calls(alloc: Global) -> Result<Vec<Outcomes>, NoMemory> {
    let mut all = Vec::new(alloc);
    all.push(Outcomes::new(alloc))?;
    all.push(Outcomes::new(alloc))?;
    all.push(calls(alloc)?)?;
    Ok(all)
}

fn add_words(alloc: Global, out: &mut Output, outcomes: &Outcomes) -> Result<(), NoMemory> {
    for outcome in outcomes.as_slice() {
        reply_words(alloc, out, outcome)?;
        out.text("\n")?;
    }
    Ok(())
}

fn replies_told(alloc: Global) -> Result<Output, NoMemory> {
    let all = all_calls(alloc)?;
    let mut out = Output::new(alloc);
    replies(alloc, &mut out, &all)?;
    for outcomes in &all {
        add_words(alloc, &mut out, outcomes)?;
    }
    Ok(out)
}

#[test]
fn writes_each_reply(rt: HostRuntime) -> Result<(), Fail> {
    assert!(rt; replies_told(rt.alloc())?.as_slice() == REPLIES.as_bytes());
    Ok(())
}

/// The line of an event, and then its words.
const EVENT: &str = "event 0 actor 1 open 1 c = opened 2 1 dir
open 1 c = opened 2 1 dir";

fn opening(alloc: Global) -> Result<Event, Errno> {
    let name = Name::new(alloc, b"c".as_slice())?;
    Ok(Event {
        actor: Actor::new(1),
        step: StepOf::Open(HandleNo::new(1), name),
        answer: Answer::Opened {
            handle: HandleNo::new(2),
            node: Node::new(1),
            kind: Kind::Dir,
        },
    })
}

fn told(alloc: Global, event: &Event) -> Result<Output, NoMemory> {
    let mut log = EventLog::new(alloc);
    log.push(event.actor, &event.step.lend(), &event.answer)?;
    let mut out = Output::new(alloc);
    events(&mut out, &log)?;
    event_words(alloc, &mut out, event)?;
    Ok(out)
}

fn event_told(alloc: Global) -> Result<Output, Errno> {
    let event = opening(alloc)?;
    Ok(told(alloc, &event)?)
}

#[test]
fn writes_an_event(rt: HostRuntime) -> Result<(), Fail> {
    assert!(rt; event_told(rt.alloc())?.as_slice() == EVENT.as_bytes());
    Ok(())
}

const ENTRIES: &str = "/c/, /c/b, /c/B\\ -> x, /d/, /c/a b";

/// The entries by directory and name, and then the handles of three actors, of whom two have a root.
const STATE: &str = "row 0 c 1 dir
row 0 d 4 dir
row 1 B\\x5c 3 link
row 1 a\\x20b 5 file
row 1 b 2 file
held 0 1
held 1 1
held 2 0
";

fn granted(alloc: Global) -> Result<ListTree, Errno> {
    let mut tree = tree_of(alloc, ENTRIES)?;
    tree.grant(alloc, Actor::new(0), &names_of(alloc, "/c")?)?;
    tree.grant(alloc, Actor::new(1), &Names::new(alloc))?;
    Ok(tree)
}

fn state_of(alloc: Global, tree: &ListTree) -> Result<Output, NoMemory> {
    let mut out = Output::new(alloc);
    rows(alloc, &mut out, &tree.snapshot(alloc)?)?;
    held(&mut out, tree, 3)?;
    Ok(out)
}

fn state_told(alloc: Global) -> Result<Output, Errno> {
    let tree = granted(alloc)?;
    Ok(state_of(alloc, &tree)?)
}

#[test]
fn writes_entries_in_order(rt: HostRuntime) -> Result<(), Fail> {
    rows_have_lines();
    assert!(rt; state_told(rt.alloc())?.as_slice() == STATE.as_bytes());
    Ok(())
}
