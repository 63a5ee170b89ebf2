//! The things of a try that were done, and the one that is due.
use call_course::{Answer, Facts, LAST, Thing, Tried, a_try, pause_before};

// A try has so many things at most.
const THINGS: usize = 13;

/// What was done in the try under way. Its answers are dropped where it ends.
#[derive(Clone, Copy)]
pub(crate) struct Course {
    /// What is due.
    pub next: Thing,
    // So many tries may follow this one.
    left: u32,
    answers: [Answer; THINGS],
    count: usize,
}

impl Course {
    /// Nothing was done.
    pub(crate) fn begin() -> Course {
        Course {
            next: Thing::Begin(pause_before(LAST)),
            left: LAST,
            answers: [Answer::default(); THINGS],
            count: 0,
        }
    }

    /// Takes what the thing that was due gave. What the call came to, if nothing more is due.
    pub(crate) fn take(&mut self, facts: Facts, answer: Answer) -> Option<Tried> {
        let at = self.count;
        if at >= THINGS {
            return None;
        }
        self.answers[at] = answer;
        self.count = at + 1;
        let mut answers = &self.answers[..at + 1];
        match a_try(&mut answers, facts, self.left) {
            Err(thing) => self.next = thing,
            Ok(tried) => {
                if !tried.again {
                    return Some(tried);
                }
                self.left = self.left.saturating_sub(1);
                self.count = 0;
                self.next = Thing::Begin(pause_before(self.left));
            }
        }
        None
    }
}
