//! Which thing comes next in a call, by what those before gave.
use crate::rows::{Room, all_go, name_of, number};
use call_course::{Answer, Asked, Facts, LAST, Taking, Tried, a_try, pause_before, take};
use std::alloc::{AllocError, Global};
use std::test::Fail;
use system_calls::errors::{EACCES, EAGAIN, ENOMEM};

// A try and what its things gave.
#[derive(Clone, Copy)]
struct Try {
    facts: Facts,
    answers: [Answer; 8],
    heard: usize,
}

impl Try {
    // What is due in the first try, or what it came to.
    fn now(&self) -> Asked<Tried> {
        let mut left = &self.answers[..self.heard.min(8)];
        a_try(&mut left, self.facts, LAST)
    }
}

// What a thing gave, by the words of a row.
fn heard(words: &str) -> Option<Answer> {
    let mut answer = Answer {
        stepped: true,
        ..Answer::default()
    };
    for word in words.split(' ') {
        let (what, of) = word.split_once('=').unwrap_or((word, "0"));
        let of = number(of)?;
        match what {
            "fine" => (),
            "opened" => answer.reply = 32,
            "text" => answer.reply = 33,
            "done" => answer.reply = 34,
            "count" => answer.reply = 35,
            "fault" => answer.reply = 38,
            "value" => answer.value = u64::from(of),
            "length" => answer.length = u64::from(of),
            "error" => answer.error = of,
            "unmade" => answer.unmade = of,
            "unopened" => answer.unopened = of,
            "made" => answer.made = of,
            "unseen" => answer.stepped = false,
            "changed" => answer.changed = true,
            "has_proc" => answer.has_proc = true,
            "owns_proc" => answer.owns_proc = true,
            _ => return None,
        }
    }
    Some(answer)
}

impl Room for Try {
    // A call that may be tried again, unless `once`; what else is known of it.
    fn begun(_: Global, words: &'static str) -> Try {
        Try {
            facts: Facts {
                error: if words == "failed" { EACCES } else { 0 },
                places: words == "places" || words == "failed",
                gives: words == "gives",
                finds_again: words == "finds_again",
                may_retry: words != "once",
            },
            answers: [Answer::default(); 8],
            heard: 0,
        }
    }

    fn due(&self, alloc: Global) -> Result<String, AllocError> {
        match self.now() {
            Err(thing) => format!(in alloc; "{thing:?}"),
            Ok(tried) if tried.again => format!(in alloc; "again"),
            Ok(tried) => {
                let of = match (tried.holds, tried.is_root) {
                    (true, _) => " held",
                    (_, true) => " of the root",
                    _ => "",
                };
                match tried.error {
                    0 => format!(in alloc; "ends {}{of}", tried.value),
                    error => format!(in alloc; "fails {}{of}", name_of(error)),
                }
            }
        }
    }

    fn take(&mut self, gave: &'static str) -> Option<()> {
        *self.answers.get_mut(self.heard)? = heard(gave)?;
        self.heard += 1;
        Some(())
    }
}

/// What is known of a call; its things, and what each gave.
const TRIES: &str = "\
# what a reply opened is taken
plain: Begin(0) = fine; Converse = opened value=99; Take = value=5; LetGo = fine; ends 5 held
plain: Begin(0) = fine; Converse = opened value=99; Take = error=EMFILE; LetGo = fine; fails EMFILE
# a text and a count are given
plain: Begin(0) = fine; Converse = text length=3; LetGo = fine; ends 3
plain: Begin(0) = fine; Converse = count value=12; LetGo = fine; ends 12
# a step that wasn't made fails by the kernel's error
plain: Begin(0) = fine; Converse = fault error=ENOMEM unmade=EMFILE; LetGo = fine; fails EMFILE
plain: Begin(0) = fine; Converse = fault error=ENOMEM; LetGo = fine; fails ENOMEM
plain: Begin(0) = fine; Converse = fault error=EACCES unmade=EMFILE; LetGo = fine; fails EACCES
plain: Begin(0) = fine; Converse = fault; LetGo = fine; fails EIO
# what was made is given or closed
gives: Begin(0) = fine; Converse = done made=8 changed; LetGo = fine; ends 7 held
plain: Begin(0) = fine; Converse = done made=8 changed; LetGo = fine; Close(7) = fine; ends 0
gives: Begin(0) = fine; Converse = done changed; LetGo = fine; fails EAGAIN
gives: Begin(0) = fine; Converse = done changed unopened=EMFILE; LetGo = fine; fails EMFILE
# another try follows EAGAIN alone, and no change but where all parts are found again
plain: Begin(0) = fine; Converse = fault error=EAGAIN; LetGo = fine; again
once: Begin(0) = fine; Converse = fault error=EAGAIN; LetGo = fine; fails EAGAIN
plain: Begin(0) = fine; Converse = fault error=EACCES; LetGo = fine; fails EACCES
plain: Begin(0) = fine; Converse = fault error=EAGAIN changed; LetGo = fine; fails EAGAIN
finds_again: Begin(0) = fine; Converse = fault error=EAGAIN changed; LetGo = fine; again
# another /proc is tried once
plain: Begin(0) = fine; Converse = fault error=ENOSYS has_proc; LetGo = fine; LookAtProc = fine; fails ENOSYS
plain: Begin(0) = fine; Converse = fault error=ENOSYS has_proc; LetGo = fine; LookAtProc = error=1; \
AnotherProc = error=EMFILE; fails EMFILE
plain: Begin(0) = fine; Converse = fault error=ENOSYS has_proc; LetGo = fine; LookAtProc = error=1; \
AnotherProc = owns_proc; Converse = fault error=ENOSYS has_proc; LetGo = fine; CloseProc = fine; fails ENOSYS
plain: Begin(0) = fine; Converse = fault error=ENOSYS has_proc changed; LetGo = fine; fails ENOSYS
plain: Begin(0) = fine; Converse = fault error=ENOSYS; LetGo = fine; fails ENOSYS
# the root's errors come before those of the path, and before one that the call had failed by
plain: Begin(0) = fine; Converse = fault error=EACCES unseen; LetGo = fine; LookAtRoot = value=1; fails EACCES
plain: Begin(0) = fine; Converse = fault error=EACCES unseen; LetGo = fine; LookAtRoot = value=2; \
fails ENOTDIR of the root
plain: Begin(0) = fine; Converse = fault error=EACCES unseen; LetGo = fine; LookAtRoot = error=EBADF; \
fails EBADF of the root
failed: Begin(0) = fine; LetGo = fine; LookAtRoot = value=1; fails EACCES
failed: Begin(0) = fine; LetGo = fine; LookAtRoot = value=2; fails ENOTDIR of the root
failed: Begin(0) = fine; LetGo = fine; LookAtRoot = error=EBADF; fails EBADF of the root
# a place is asked for
places: Begin(0) = fine; Place = length=4; ends 4
places: Begin(0) = fine; Place = error=EACCES; fails EACCES";

#[test]
fn things_come_one_after_another(rt: HostRuntime) -> Result<(), AllocError> {
    all_go::<Try>(&rt, rt.alloc(), TRIES)
}

#[test]
fn a_call_is_tried_32_times(rt: HostRuntime) -> Result<(), Fail> {
    let mut eagain = Try::begun(rt.alloc(), "plain");
    for gave in ["fine", "fault error=EAGAIN", "fine"] {
        assert!(rt; eagain.take(gave).is_some());
    }
    let mut pauses: u64 = 0;
    for tries in 0..32 {
        let mut answers = &eagain.answers[..3];
        let tried = a_try(&mut answers, eagain.facts, LAST - tries);
        assert!(rt;
            tried.is_ok_and(|it| it.again == (tries < 31) && (it.again || it.error == EAGAIN))
        );
        if tries < 31 {
            pauses = pauses.saturating_add(u64::from(pause_before(30 - tries)));
        }
    }
    assert!(rt; pauses == 18_270_000);
    Ok(())
}

#[test]
fn no_descriptor_of_the_callers_is_handed_out(rt: HostRuntime) {
    // Whether it is one of the caller's, and whether the call holds it.
    for (of_caller, held, error, anew) in [
        (false, true, 0, false),
        (true, true, 0, true),
        (false, false, ENOMEM, false),
    ] {
        assert!(rt; take(of_caller, held) == (Taking { error, anew }));
    }
}
