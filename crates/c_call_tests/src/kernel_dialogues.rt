//! Calls that the kernel walks, each as a dialogue: what is due or comes of answers that Linux gives.
use crate::talks::{fails, known, nothing, opened, seen};
use dialogue::{Answer, Asked, Question};
use kernel_calls::flags::O_PATH;
use kernel_calls::{
    Act, Behind, Below, Change, Dir, NOT_BEHIND, Outcome, PathOf, Wanted, by_proc, change_entry,
    find_directory, forget, front, gives, leave, look_up, make_change, named, openat2,
    opened as looked, parts, piece, proc_error, rename, resolve, steps, walk,
};
use std::process::Abort;
use system_calls::errors::{EAGAIN, EEXIST, ENOENT, ENOSYS};

const WANTED: Wanted = Wanted {
    device: 0,
    flags: 0,
    mode: 0o755,
    how: 0,
    fd: 0,
    linked: false,
    opens: false,
    gives: false,
};

// A path below the root 3, with a slash before it.
fn below(slashed: &[u8]) -> Below<'_> {
    Below {
        root: 3,
        flags: 0,
        path: PathOf::new(slashed),
        looked: false,
    }
}

// What is due of a call on the path: `LOOKS path`, `CLOSES`, or another system call's first letters.
fn due_is<T>(rt: &impl Abort, asked: Asked<'_, T>, fd: u32, text: &[u8]) {
    match asked {
        Err(
            Question::LookUp(dir, path, _, _)
            | Question::OpenPath(dir, path, _, _, _)
            | Question::MakeDirectory(dir, path, _)
            | Question::Rename(dir, path, _, _, _)
            | Question::Remove(dir, path, _),
        ) => assert!(rt; dir == fd && path == text, "{dir} {path:?}"),
        Err(Question::Close(closed) | Question::ReadThread(closed) | Question::Stat(closed)) => {
            assert_eq!(rt; closed, fd);
        }
        Err(other) => panic!(rt; "{other:?}"),
        Ok(_) => panic!(rt; "nothing is due"),
    }
}

fn comes_to(rt: &impl Abort, asked: Asked<'_, Outcome>, want: Outcome) {
    match asked {
        Ok(outcome) => assert_eq!(rt; outcome, want),
        Err(due) => panic!(rt; "{due:?}"),
    }
}

fn resolved(answers: &[Answer]) -> Asked<'static, Outcome> {
    resolve(
        &mut &answers[..],
        &mut known(),
        &below(b"/a/f"),
        true,
        false,
        true,
    )
}

#[test]
fn a_path_is_looked_up_as_a_whole(rt: HostRuntime) {
    due_is(&rt, resolved(&[]), 3, b"a/f");
    due_is(&rt, resolved(&[opened(7)]), 7, b"");
    comes_to(
        &rt,
        resolved(&[opened(7), seen(0o40755)]),
        Outcome::Value(0x1_0000_0007),
    );
    comes_to(&rt, resolved(&[fails(EAGAIN)]), Outcome::Steps);
    let at = below(b"/a/f");
    due_is(
        &rt,
        look_up(&mut &[][..], &mut known(), &at, O_PATH, 0),
        3,
        b"a/f",
    );
    due_is(
        &rt,
        walk(&mut &[][..], &mut known(), &at, O_PATH, 0),
        3,
        b"a/f",
    );
    let question = openat2(3, b"a", O_PATH, 0, 0);
    let failed = [fails(ENOSYS), nothing()];
    let mut seen_of = known();
    match looked(&mut &failed[..], &mut seen_of, question) {
        Ok(Err(error)) => assert!(&rt; error == ENOSYS && !seen_of.has_floor),
        other => panic!(&rt; "{other:?}"),
    }
    match forget(&mut &[][..], &mut known(), ENOSYS) {
        Err(Question::Know(false)) => (),
        other => panic!(&rt; "{other:?}"),
    }
}

fn made(answers: &[Answer], behind: &mut Behind) -> Asked<'static, Outcome> {
    let at = below(b"/a/n");
    match named(at.path, true) {
        Some(entry) => change_entry(
            &mut &answers[..],
            &mut known(),
            &at,
            entry,
            &WANTED,
            steps::MAKE_DIR,
            b"",
            b"",
            true,
            behind,
        ),
        None => Ok(Outcome::Steps),
    }
}

#[test]
fn an_entry_is_made_where_the_look_up_led(rt: HostRuntime) {
    let mut behind = NOT_BEHIND;
    due_is(&rt, made(&[], &mut behind), 3, b"a");
    due_is(&rt, made(&[opened(7)], &mut behind), 7, b"n");
    assert!(&rt; behind.changes && behind.closes.count == 1 && behind.closes.first == 7);
    comes_to(
        &rt,
        made(&[opened(7), nothing()], &mut behind),
        Outcome::Value(0),
    );
    let exists = Outcome::FailsAt(EEXIST, steps::MAKE_DIR);
    comes_to(&rt, made(&[opened(7), fails(EEXIST)], &mut behind), exists);
}

fn renamed(answers: &[Answer]) -> Asked<'static, Outcome> {
    let (at, other) = (below(b"/a/n"), below(b"/b/m"));
    match (named(at.path, false), named(other.path, false)) {
        (Some(from), Some(to)) => rename(
            &mut &answers[..],
            &mut known(),
            &at,
            from,
            &other,
            to,
            &WANTED,
            false,
            &mut NOT_BEHIND,
        ),
        _ => Ok(Outcome::Steps),
    }
}

#[test]
fn an_entry_is_renamed_where_two_look_ups_led(rt: HostRuntime) {
    let done = [opened(7), opened(8), nothing(), nothing(), nothing()];
    due_is(&rt, renamed(&done[..0]), 3, b"a");
    due_is(&rt, renamed(&done[..1]), 3, b"b");
    due_is(&rt, renamed(&done[..2]), 7, b"n");
    due_is(&rt, renamed(&done[..3]), 8, b"");
    due_is(&rt, renamed(&done[..4]), 7, b"");
    comes_to(&rt, renamed(&done), Outcome::Value(0));
}

#[test]
fn parts_of_calls(rt: HostRuntime) {
    let path = PathOf::new(b"/a/n/");
    assert!(&rt; parts(path, false).is_none() && parts(path, true).is_some());
    assert!(&rt; path.place() == b"/a/n/".as_slice() && path.piece(2, 1) == b"n".as_slice());
    assert!(&rt;
        path.front_or_here(0).text() == b".".as_slice() && path.part(2, 1).text() == b"n".as_slice()
    );
    assert!(&rt; front(b"abc", 2) == b"ab".as_slice() && piece(b"abc", 1, 1) == b"b".as_slice());
    let own = Dir { fd: 7, own: true };
    due_is(&rt, leave(&mut &[][..], own, false), 7, b"");
    let at = below(b"/n");
    match find_directory(&mut &[][..], &mut known(), &at, None) {
        Ok(Ok(dir)) => assert_eq!(&rt; dir, Dir { fd: 3, own: false }),
        _ => panic!(&rt; "the root is open"),
    }
    let change = Change {
        step: steps::REMOVE_DIR,
        dir: 3,
        name: b"n",
        other: 0,
        text: b"",
    };
    due_is(
        &rt,
        make_change(&mut &[][..], &mut known(), &WANTED, &change, b""),
        3,
        b"n",
    );
    match gives(&mut &[opened(5)][..], Question::Stat(7)) {
        Ok(Ok(5)) => (),
        other => panic!(&rt; "{other:?}"),
    }
}

#[test]
fn an_object_is_opened_by_its_link_in_proc(rt: HostRuntime) {
    let mut kept = known();
    match by_proc(&mut &[seen(0o100644)][..], &mut kept, 5, Act::Open(0)) {
        Err(Question::OpenObject(9, 5, 0)) => (),
        other => panic!(&rt; "{other:?}"),
    }
    match proc_error(&mut &[fails(ENOENT)][..], &known(), 9, 5, ENOENT) {
        Ok(error) => assert_eq!(&rt; error, ENOSYS),
        other => panic!(&rt; "{other:?}"),
    }
}
