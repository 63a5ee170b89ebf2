//! What comes before the first question about the place of what a walk holds.
use crate::rows::word_of;
use find_place::{BY_NAME, BY_PARENT, BY_ROOT, Held, SEEN_BELOW, before_questions, behind_look_up};
use std::test::Fail;

/// By which way a walk holds something, of which kind that is, whether the kernel's check is enough (`below`), whether
/// the walk has gone up, and whether its names aren't known. And what comes first; behind a look-up that found it and
/// one that didn't.
const HELD: &str = "\
# the kernel's check is enough where it is asked for
name file below, name directory below: look at_names ask
seen file below, seen directory below: at_names
seen file, seen directory: ask
# a file is looked up before its text is read
name file: look ask ask
name directory, parent directory below: ask
# no names are looked up behind `..`, and where the walk's names aren't known
name file up, name directory up, name file below up, name directory below up: ask
name file unnamed, name directory unnamed, name file below unnamed, name directory below unnamed: ask
seen file up, seen directory up, seen file below up, seen directory below up: ask
seen file unnamed, seen directory unnamed, seen file below unnamed, seen directory below unnamed: ask
parent file up, parent directory up, parent file below up, parent directory below up: ask
parent file unnamed, parent directory unnamed, parent file below unnamed, parent directory below unnamed: ask
# the root is below itself at no names
root directory, root directory below, root directory unnamed: at_root";

fn held_of(words: &str) -> Held {
    Held {
        way: match words.split_once(' ') {
            Some(("name", _)) => BY_NAME,
            Some(("seen", _)) => SEEN_BELOW,
            Some(("parent", _)) => BY_PARENT,
            _ => BY_ROOT,
        },
        above: words.ends_with("up"),
        directory: words.contains("directory"),
        named: !words.ends_with("unnamed"),
        below: words.contains("below"),
    }
}

#[test]
fn names_are_looked_up_first(rt: HostRuntime) -> Result<(), Fail> {
    for row in HELD.lines() {
        let (all, comes) = row.split_once(": ").unwrap_or(("", ""));
        let mut comes = comes.split(' ');
        let first = comes.next();
        let behind = (comes.next(), comes.next());
        for words in all.split(", ") {
            let held = held_of(words);
            let before = Some(word_of(before_questions(&held), "at_root look at_names ask"));
            assert!(rt; row.starts_with('#') || before == first, "{words}");
            for (found, wanted) in [(true, behind.0), (false, behind.1)] {
                let due = Some(word_of(behind_look_up(&held, found), "at_root look at_names ask"));
                assert!(rt; wanted.is_none() || due == wanted, "{words} {found}");
            }
        }
    }
    Ok(())
}
