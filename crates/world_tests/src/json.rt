//! Runs as JSON, and pages of them. What `replay --json` and `draw --html` write is looked at by `checks/pages`.
use drawings::{Closes, PictureFault, calls_of};
use event_log::{EventLog, Output};
use fixtures::tree_of;
use pages::{
    BEGINNING, END, PICTURE, Played, REPORT, RUN_END, RUNS, embedded_text_opens_no_tag,
    report_json, runs_page,
};
use path_text::{Errno, Name, Names, NoMemory};
use race_core::{ActorPlan, Outcome, Outcomes, Plans};
use std::alloc::Global;
use std::test::Fail;
use tree_list::ListTree;
use tree_model::{Actor, Answer, HandleNo, Kind, Node, StepOf, Tree};

/// The top with a directory `c`, and actor 0 with the top for its root.
fn granted(alloc: Global) -> Result<ListTree, Errno> {
    let mut tree = tree_of(alloc, "/c/")?;
    tree.grant(alloc, Actor::new(0), &Names::new(alloc))?;
    Ok(tree)
}

/// Actor 0 makes a directory whose name has markup in it, opens `c`, and closes it.
fn history(alloc: Global) -> Result<EventLog, Errno> {
    let actor = Actor::new(0);
    let (root, opened) = (HandleNo::new(0), HandleNo::new(1));
    let mut log = EventLog::new(alloc);
    let made = StepOf::MakeDir(root, Name::new(alloc, b"<\"\\".as_slice())?);
    log.push(actor, &made.lend(), &Answer::Done)?;
    let found = StepOf::Open(root, Name::new(alloc, b"c".as_slice())?);
    let answer = Answer::Opened {
        handle: opened,
        node: Node::new(1),
        kind: Kind::Dir,
    };
    log.push(actor, &found.lend(), &answer)?;
    let closed = StepOf::Close(opened);
    log.push(actor, &closed.lend(), &Answer::Done)?;
    Ok(log)
}

/// How the calls of actor 0 ended.
fn replies(alloc: Global) -> Result<Vec<Outcomes>, NoMemory> {
    let mut own = Outcomes::new(alloc);
    own.push(Outcome::Done)?;
    own.push(Outcome::Fault(Errno::NotFound))?;
    let mut all = Vec::new(alloc);
    all.push(own)?;
    Ok(all)
}

/// The line of the history.
const JSON: &str =
    "{\"version\":1,\"nodes\":[[0,\"dir\"],[1,\"dir\",0,\"c\"]],\"handles\":[[0,0,0]],\"replies\":[[\"done\",\"fault ENOENT\"]],\"events\":[{\"actor\":0,\"step\":\"make_dir 0 <\\\"\\\\x5c\",\"answer\":\"done\",\"nodes\":[[2,\"dir\",0,\"<\\\"\\\\x5c\"]],\"handles\":[]},{\"actor\":0,\"step\":\"open 0 c\",\"answer\":\"opened 1 1 dir\",\"nodes\":[],\"handles\":[[1,0,1]]},{\"actor\":0,\"step\":\"close 1\",\"answer\":\"done\",\"nodes\":[],\"handles\":[[1]]}]}\n";

fn json_of(alloc: Global) -> Result<Output, Errno> {
    let mut out = Output::new(alloc);
    let log = history(alloc)?;
    report_json(alloc, &mut out, granted(alloc)?, &log, &replies(alloc)?)?;
    Ok(out)
}

#[test]
fn writes_what_each_event_changed(rt: HostRuntime) -> Result<(), Fail> {
    assert!(rt; json_of(rt.alloc())?.as_slice() == JSON.as_bytes());
    Ok(())
}

/// The picture of the history, as it stands in a page.
const SHOWN: &str =
    "{\"actors\":1,\"heading\":[{\"tone\":\"plain\",\"text\":\"actor 0 below /\"}],\"lines\":[{\"moment\":0,\"actor\":0,\"tone\":\"plain\",\"text\":\"make_dir /\\u003c\\\"\\\\x5c = done\"},{\"moment\":1,\"actor\":0,\"tone\":\"plain\",\"text\":\"open c in / = dir 1\"}]}\n";

fn played(alloc: Global) -> Result<Result<Played, PictureFault>, Errno> {
    let mut plans = Vec::new(alloc);
    plans.push(ActorPlan {
        root: Names::new(alloc),
        calls: Plans::new(alloc),
    })?;
    let calls = calls_of(alloc, &plans)?;
    let log = history(alloc)?;
    Ok(Played::of(
        alloc,
        granted(alloc)?,
        &calls,
        &log,
        &replies(alloc)?,
        Closes::Hidden,
    ))
}

/// The line of the history, as it stands in a page.
const EMBEDDED: &str =
    "{\"version\":1,\"nodes\":[[0,\"dir\"],[1,\"dir\",0,\"c\"]],\"handles\":[[0,0,0]],\"replies\":[[\"done\",\"fault ENOENT\"]],\"events\":[{\"actor\":0,\"step\":\"make_dir 0 \\u003c\\\"\\\\x5c\",\"answer\":\"done\",\"nodes\":[[2,\"dir\",0,\"\\u003c\\\"\\\\x5c\"]],\"handles\":[]},{\"actor\":0,\"step\":\"open 0 c\",\"answer\":\"opened 1 1 dir\",\"nodes\":[],\"handles\":[[1,0,1]]},{\"actor\":0,\"step\":\"close 1\",\"answer\":\"done\",\"nodes\":[],\"handles\":[[1]]}]}\n";

/// A page of a text with markup in it, and of these runs.
fn page_of(alloc: Global, runs: &[Played]) -> Result<Output, NoMemory> {
    let mut out = Output::new(alloc);
    runs_page(alloc, &mut out, b"</pre>&lt;\n".as_slice(), runs)?;
    Ok(out)
}

/// What the page of so many such runs is.
fn wanted(alloc: Global, runs: usize) -> Result<Output, NoMemory> {
    let mut out = Output::new(alloc);
    for part in [BEGINNING, "&lt;/pre>&amp;lt;\n", RUNS] {
        out.text(part)?;
    }
    for run in 0..runs {
        for part in [REPORT, EMBEDDED, PICTURE, SHOWN, RUN_END] {
            out.text(part)?;
        }
    }
    out.text(END)?;
    Ok(out)
}

/// Whether a page of so many such runs is that page.
fn is_wanted(alloc: Global, count: usize) -> Result<bool, Errno> {
    let mut runs = Vec::new(alloc);
    for at in 0..count {
        let Ok(run) = played(alloc)? else {
            return Ok(false);
        };
        runs.push(run)?;
    }
    let page = page_of(alloc, &runs)?;
    Ok(page.as_slice() == wanted(alloc, count)?.as_slice())
}

#[test]
fn writes_a_page_in_which_no_name_is_a_tag(rt: HostRuntime) -> Result<(), Fail> {
    embedded_text_opens_no_tag();
    for runs in 0..3 {
        assert!(rt; is_wanted(rt.alloc(), runs)?);
    }
    Ok(())
}
