//! Conversations about an object's place: what a kernel answers, and to what it comes; and how often it is asked for.
use crate::rows::{Room, all_go, letters, name_of, number};
use find_place::{
    Answer, Asked, Facts, Question, Told, ask_place, finds_object, next_question, place,
};
use std::alloc::{AllocError, Global};
use system_calls::Object;

const OBJECT: Object = Object {
    device: 7,
    inode: 11,
    mount: 3,
};

const FINE: Answer<'static> = Answer {
    text: b"",
    held: OBJECT,
    found: OBJECT,
    links: 1,
    error: 0,
    yes: false,
};

// What was answered so far, to a walk or to a program.
#[derive(Drop)]
struct Placing {
    program: bool,
    facts: Facts,
    answers: [Answer<'static>; 8],
    count: usize,
}

fn with_names(alloc: Global, word: &str, names: &[u8]) -> Result<String, AllocError> {
    let names = String::from_utf8_lossy(alloc, names)?;
    format!(in alloc; "{word} {names}")
}

fn comes_to<'b>(answers: &'b [Answer<'b>], facts: &Facts, program: bool) -> Asked<'b, Told<'b>> {
    let mut left = answers;
    if program {
        ask_place(&mut left)
    } else {
        place(&mut left, facts)
    }
}

impl Room for Placing {
    fn begun(_: Global, words: &'static str) -> Placing {
        let (directory, seen) = (words.ends_with("directory"), words.starts_with("seen"));
        Placing {
            program: words == "program",
            facts: Facts { directory, seen },
            answers: [FINE; 8],
            count: 0,
        }
    }

    fn due(&self, alloc: Global) -> Result<String, AllocError> {
        let left = &self.answers[..self.count.min(8)];
        let word = match comes_to(left, &self.facts, self.program) {
            Ok(Ok(names)) if names.len() == 1 => "is the root",
            Ok(Ok(names)) => return with_names(alloc, "stands", names),
            Ok(Err(error)) => return format!(in alloc; "fails {}", name_of(error)),
            Err(Question::LookUp(names)) => return with_names(alloc, "look", names),
            Err(Question::Look) => "stat",
            Err(Question::Copy) => "copy",
            Err(Question::RootLink) => "root",
            Err(Question::ObjectLink) => "text",
            Err(Question::LinkAgain) => "again",
            Err(Question::Dead) => "dead",
            Err(Question::Removed) => "removed",
            Err(Question::Close) => "close",
        };
        format!(in alloc; "{word}")
    }

    // A text; another object that was found; so many links of a `file` or a `directory`; whether it is `dead` or
    // `alive`; or an error's name.
    fn take(&mut self, gave: &'static str) -> Option<()> {
        let mut answer = FINE;
        match gave.split_once(' ') {
            Some(("reads", text)) => answer.text = text.as_bytes(),
            Some(("bytes", count)) => answer.text = letters(count)?,
            Some(("inode", inode)) => answer.found.inode = inode.parse().ok()?,
            Some(("mount", mount)) => answer.found.mount = mount.parse().ok()?,
            Some((kind, links)) => {
                answer.links = links.parse().ok()?;
                answer.yes = kind == "directory";
            }
            None if gave == "dead" || gave == "alive" => answer.yes = gave == "dead",
            None => answer.error = number(gave)?,
        }
        let at = self.count;
        *self.answers.get_mut(at)? = answer;
        self.count = at + 1;
        Some(())
    }
}

/// Of which kinds the object is that a walk holds, and whether it was opened by names from the root right before; and
/// a conversation.
const PLACES: &str = "\
# both witnesses tell a place
directory, file: root = reads /srv/root; text = reads /srv/root/a/b; look /a/b = ok; again = reads /srv/root/a/b; \
stands /a/b
# it was removed as it was looked up; or moved since, which is no matter
directory, file: root = reads /srv/root; text = reads /srv/root/a/b; look /a/b = ok; \
again = reads /srv/root/a/b (deleted); fails EAGAIN
directory, file: root = reads /srv/root; text = reads /srv/root/a/b; look /a/b = ok; again = EACCES; fails EACCES
directory, file: root = reads /srv/root; text = reads /srv/root/a/b; look /a/b = ok; again = reads /srv/c; stands /a/b
directory: root = reads /srv/root; text = reads /srv/root; look / = ok; is the root
directory: root = reads /srv/root; text = reads /srv/root2/a; fails EAGAIN
# below a top the place is the whole text
directory: root = reads /; text = reads /a/b; look /a/b = ok; again = reads /a/b; stands /a/b
# another object is none; but the root may be mounted over itself
directory: root = reads /srv/root; text = reads /srv/root/a/b; look /a/b = mount 4; fails EAGAIN
directory: root = reads /srv/root; text = reads /srv/root/a/b; look /a/b = ENOENT; fails EAGAIN
directory: root = reads /srv/root; text = reads /srv/root/a/b; look /a/b = EMFILE; fails EMFILE
directory: root = reads /srv/root; text = reads /srv/root/a/b; look /a/b = ENOSYS; fails ENOSYS
directory: root = reads /srv/root; text = reads /srv/root; look / = mount 4; is the root
directory: root = reads /srv/root; text = reads /srv/root; look / = inode 12; fails EAGAIN
# a place that ends as that of what was removed: a directory is asked itself, and of anything else nobody knows
directory: root = reads /srv/root; text = reads /srv/root/a (deleted); look /a (deleted) = ok; dead = ok; \
stands /a (deleted)
directory: root = reads /srv/root; text = reads /srv/root/a (deleted); look /a (deleted) = ok; dead = dead; fails EAGAIN
file: root = reads /srv/root; text = reads /srv/root/a (deleted); look /a (deleted) = ok; fails EAGAIN
seen directory: root = reads /srv/root; text = reads /srv/root/a (deleted); dead = ok; stands /a (deleted)
seen directory: root = reads /srv/root; text = reads /srv/root/a (deleted); dead = dead; fails EAGAIN
seen file: root = reads /srv/root; text = reads /srv/root/a (deleted); fails EAGAIN
# the root's own name isn't a place's
directory: root = reads /srv/r (deleted); text = reads /srv/r (deleted); look / = ok; is the root
# what was seen needs no look up; but a slash alone may be the text of what has left its mount
seen directory, seen file: root = reads /srv/root; text = reads /srv/root/a/b; stands /a/b
seen directory: root = reads /srv/root; text = reads /srv/root; look /
# links fail by names of their own
directory: root = ENOENT; fails ENOSYS
directory: root = EMFILE; fails EMFILE
directory: root = reads /srv/root; text = ENOENT; fails ENOSYS
# a text that fills its room may be cut off
directory: root = reads /; text = bytes 4096; fails ENAMETOOLONG";

#[test]
fn witnesses_tell_a_place(rt: HostRuntime) -> Result<(), AllocError> {
    all_go::<Placing>(&rt, rt.alloc(), PLACES)
}

// The root may be mounted over itself.
#[test]
fn an_object_is_found_by_its_mount(rt: HostRuntime) {
    let other = Object { mount: 4, ..OBJECT };
    for (place, found, wanted) in [
        (b"/a".as_slice(), OBJECT, true),
        (b"/a".as_slice(), other, false),
        (b"/".as_slice(), other, true),
    ] {
        assert_eq!(rt; finds_object(place, &Answer { found, ..FINE }), wanted);
    }
}

const ASKINGS: &str = "\
# a place that is found is told
program: stat = file 1; copy = ok; root = reads /r; text = reads /r/a; look /a = ok; again = reads /r/a; close = EIO; \
stands /a
program: stat = directory 2; copy = ok; root = reads /r; text = reads /r/a (deleted); look /a (deleted) = ok; \
dead = alive; close = ok; stands /a (deleted)
# what has no place was removed or moved
program: stat = file 1; copy = ok; root = reads /r; text = reads /a; close = ok; fails EAGAIN
program: stat = file 0; copy = ok; root = reads /r; text = reads /a; close = ok; fails ENOENT
program: stat = directory 2; copy = ok; root = reads /r; text = reads /a; removed = dead; close = ok; fails ENOENT
program: stat = directory 2; copy = ok; root = reads /r; text = reads /a; removed = alive; close = ok; fails EAGAIN
program: stat = directory 0; copy = ok; root = reads /r; text = reads /a; removed = alive; close = ok; fails ENOENT
# no more than eight questions come
program: stat = directory 2; copy = ok; root = reads /r; text = reads /r/a; look /a = ok; \
again = reads /r/a (deleted); removed = alive; close = ok; fails EAGAIN
# each other error is told as it is
program: stat = EBADF; fails EBADF
program: stat = file 1; copy = EMFILE; fails EMFILE
program: stat = directory 0; copy = ok; root = EIO; close = ok; fails EIO";

#[test]
fn a_place_is_asked_for(rt: HostRuntime) -> Result<(), AllocError> {
    all_go::<Placing>(&rt, rt.alloc(), ASKINGS)
}

#[test]
fn a_place_is_asked_for_eight_times(rt: HostRuntime) -> Result<(), AllocError> {
    for (asked, error, length, again, why) in [
        (7, 11, 0, true, 0),
        (8, 11, 0, false, 18),
        (1, 5, 0, false, 5),
        (1, 0, 8, false, 0),
        (1, 0, 9, false, 34),
    ] {
        let question = next_question(asked, error, length, 9);
        assert!(rt;
            question.again == again && question.error == why,
            "{question:?}"
        );
    }
    Ok(())
}
