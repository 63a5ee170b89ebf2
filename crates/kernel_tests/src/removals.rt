//! Which call comes next as a tree is removed by several, by answers that calls give.
use crate::rows::{Room, all_go, goes, name_of, number};
use remove_by_calls::{Answer, Asked, Came, Question, Removal, a_call, begin};
use std::alloc::{AllocError, Global};
use system_calls::errors::EAGAIN;
use system_calls::next_try;

// A call and what follows it have so many answers at most.
const ANSWERS: usize = 17;

#[derive(Clone, Copy)]
struct Course {
    may_retry: bool,
    // Before the call under way, and what that and what followed it gave.
    removal: Removal,
    answers: [Answer; ANSWERS],
    heard: usize,
    // The end, if it has come.
    end: Option<Came>,
}

// A call removed so many entries, and ended by this error or by none.
fn ended(removed: u64, error: u32) -> Answer {
    Answer {
        removed,
        error,
        unmade: 0,
        deeper: false,
    }
}

fn begun_course(may_retry: bool) -> Course {
    Course {
        may_retry,
        removal: begin(),
        answers: [Answer::default(); ANSWERS],
        heard: 0,
        end: None,
    }
}

impl Course {
    fn now(&self) -> Asked<Came> {
        let mut left = &self.answers[..self.heard.min(ANSWERS)];
        a_call(&mut left, self.may_retry, &self.removal)
    }

    // Takes an answer, and begins the next call behind this one's end.
    fn hear(&mut self, answer: Answer) -> Option<()> {
        *self.answers.get_mut(self.heard)? = answer;
        self.heard += 1;
        match self.now() {
            Ok(Came::Again(removal)) => {
                self.removal = removal;
                self.heard = 0;
            }
            Ok(end) => self.end = Some(end),
            Err(_) => (),
        }
        Some(())
    }
}

impl Room for Course {
    fn begun(_: Global, words: &'static str) -> Course {
        let (tries, places) = words.split_once(' ').unwrap_or(("", ""));
        let mut removal = begun_course(tries == "retry");
        for _ in 0..number(places).unwrap_or(0) {
            let _ = removal.take("1 deeper");
            let _ = removal.take("0");
        }
        removal
    }

    fn due(&self, alloc: Global) -> Result<String, AllocError> {
        match self.now() {
            Err(Question::AtRoot(0)) => format!(in alloc; "root 0"),
            Err(Question::AtRoot(pause)) => format!(in alloc; "root 0 after {pause}"),
            Err(Question::InPlace(place)) => format!(in alloc; "in {place}"),
            Err(Question::Keep(place)) => format!(in alloc; "keep {place}"),
            Err(Question::Close(place)) => format!(in alloc; "close {place}"),
            Ok(Came::Removed(count)) => format!(in alloc; "ends {count}"),
            Ok(Came::Fails(error)) => format!(in alloc; "fails {}", name_of(error)),
            Ok(Came::Again(_)) => format!(in alloc; "again"),
        }
    }

    // How many entries a call removed, and its error if it has one. `refused`: the kernel refused a step of it by that;
    // `deeper`: it came to a place.
    fn take(&mut self, gave: &'static str) -> Option<()> {
        let (removed, why) = gave.split_once(' ').unwrap_or((gave, "ok"));
        let (how, error) = why.split_once(' ').unwrap_or(("", why));
        let deeper = why == "deeper";
        let error = if deeper { 12 } else { number(error)? };
        self.hear(Answer {
            unmade: if deeper || how == "refused" { error } else { 0 },
            deeper,
            ..ended(removed.parse().ok()?, error)
        })
    }

    // Where nothing comes any more, nothing changes.
    fn is_right(&mut self) -> bool {
        match self.end {
            Some(end) => self.hear(ended(5, 13)).is_none() || self.now() == Ok(end),
            None => true,
        }
    }
}

/// Whether another try may be made, and in how many places the removal is; and a conversation.
const TALKS: &str = "\
# one call removes a tree
retry 0: root 0 = 3; ends 3
retry 0: root 0 = 2 EACCES; fails EACCES
# the removal goes on in the place that a call came to
once 0: root 0 = 2 deeper; keep 0 = 0; in 0 = 0 deeper; keep 1 = 0; in 1 = 10; close 1 = 0; in 0 = 20; close 0 = 0; \
root 0 = 30; ends 62
# it goes on behind its own bound alone
once 0: root 0 = 1 EBUSY; root 0
once 0: root 0 = 0 EBUSY; fails EBUSY
once 0: root 0 = 1 refused EBUSY; fails EBUSY
retry 2: in 1 = 1 EBUSY; in 1
retry 2: in 1 = 0 EBUSY; close 1
retry 2: in 1 = 1 refused EBUSY; close 1
# it closes every place after an error
retry 3: in 2 = 1 EACCES; close 2 = 0; close 1 = 0; close 0 = 0; fails EACCES
# it keeps sixteen places
retry 15: in 14 = 1 deeper; keep 15
retry 16: in 15 = 1 deeper; close 0 = 0; keep 0 = 0; in 0 = 1 deeper; close 1
retry 16: in 15 = 1 deeper; close 0 = 0; keep 0 = 0; in 0 = 1; close 0 = 0; in 15 = 1; close 15 = 0; in 14 = 1; \
close 14 = 0; in 13 = 1; close 13 = 0; in 12 = 1; close 12 = 0; in 11 = 1; close 11 = 0; in 10 = 1; close 10 = 0; \
in 9 = 1; close 9 = 0; in 8 = 1; close 8 = 0; in 7 = 1; close 7 = 0; in 6 = 1; close 6 = 0; in 5 = 1; close 5 = 0; \
in 4 = 1; close 4 = 0; in 3 = 1; close 3 = 0; in 2 = 1; close 2 = 0; in 1 = 1; close 1 = 0; root 0
# it spares the outermost place
retry 2: in 1 = 0 ENFILE; close 0
retry 2: in 1 = 0 EMFILE; close 0 = 0; in 1 = 0 EMFILE; close 1 = 0; fails EMFILE
retry 0: root 0 = 0 EMFILE; fails EMFILE
# what others removed is another try
once 0: root 0 = 1 EAGAIN; fails EAGAIN
once 0: root 0 = 0 deeper; keep 0 = 0; in 0 = 0; close 0 = 0; fails EAGAIN
once 0: root 0 = 0 deeper; keep 0 = 0; in 0 = 1; close 0 = 0; root 0
retry 0: root 0 = 0 deeper; keep 0 = 0; in 0 = 0; close 0 = 0; root 0
# a count has 63 bits
retry 0: root 0 = 9223372036854775806 EBUSY; root 0 = 1; ends 9223372036854775807
retry 0: root 0 = 9223372036854775806 EBUSY; root 0 = 2; ends 9223372036854775807
retry 0: root 0 = 9223372036854775806 EBUSY; root 0 = 18446744073709551615; ends 9223372036854775807";

#[test]
fn removes_by_calls(rt: HostRuntime) -> Result<(), AllocError> {
    all_go::<Course>(&rt, rt.alloc(), TALKS)
}

#[test]
fn makes_32_tries_in_a_row(rt: HostRuntime) -> Result<(), AllocError> {
    let mut removal = begun_course(true);
    for tries in 1..32 {
        assert!(rt; removal.hear(ended(0, EAGAIN)).is_some());
        let pause = next_try(tries, true, EAGAIN, false).pause;
        assert!(rt; removal.now() == Err(Question::AtRoot(pause)));
    }
    let mut end = removal;
    goes(
        &rt,
        rt.alloc(),
        &mut end,
        "root 0 after 1000000 = 0 EAGAIN; fails EAGAIN",
    )?;
    goes(
        &rt,
        rt.alloc(),
        &mut removal,
        "root 0 after 1000000 = 1 EAGAIN; root 0 = 0 EAGAIN; root 0",
    )?;
    Ok(())
}
