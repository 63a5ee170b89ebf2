//! What a call does by flags of open(2), by their numbers on both machines.
use std::alloc::{AllocError, Global};
use std::test::Fail;
use system_calls::{
    MachineFlags, Opening, USE_FAILS, USE_GIVES, USE_MAKES, USE_REOPENS, Use, opening_of,
    reopen_flags, use_of,
};

pub(crate) const X86_64: MachineFlags = MachineFlags {
    directory: 0o200000,
    nofollow: 0o400000,
    direct: 0o40000,
    largefile: 0o100000,
};

const ARM64: MachineFlags = MachineFlags {
    directory: 0o40000,
    nofollow: 0o100000,
    direct: 0o200000,
    largefile: 0o400000,
};

const EINVAL: u8 = 22;

// The number that a word is in octal, and the mode behind a slash.
fn octal(word: &str) -> Option<(u32, u32)> {
    let (flags, mode) = word.split_once('/').unwrap_or((word, "0"));
    Some((
        u32::from_str_radix(flags, 8).ok()?,
        u32::from_str_radix(mode, 8).ok()?,
    ))
}

/// Flags and modes, with the numbers of x86-64; behind `!` those that are refused.
const TAKEN: &str = "\
# to read, to write, both; and all three at once
0 1 2 !3
# each flag alone that an open may have, and each bit between them
3000 4400 10000 4010000 140000 3000000 !4 !40 !20000 !40000000 !20000000000
# O_CREAT and its mode; and a mode without it
101 101/7777 !101/10000 !1/1 !200000/644
# O_EXCL, O_DIRECTORY and O_NOFOLLOW, each with it and without
301/644 !201 !200100/644 200000 400101/644 400000
# O_TMPFILE: written, read, with O_EXCL, with O_CREAT, and without O_DIRECTORY's bit
20200001/600 20200002/600 !20200000/600 20600201/600 !20200102/600 !20000002/600
# O_PATH has few beside it
10600000 12400300/644 !10000001 !30200000";

#[test]
fn takes_the_flags_that_fit(rt: HostRuntime) -> Result<(), Fail> {
    for row in TAKEN.lines() {
        for word in row.split(' ') {
            let refused = word.strip_prefix('!');
            if row.starts_with('#') {
                continue;
            }
            let Some((flags, mode)) = octal(refused.unwrap_or(word)) else {
                panic!(rt; "no number: {word}");
            };
            let error = opening_of(&X86_64, flags, mode).error;
            assert!(rt;
                error == if refused.is_some() { EINVAL } else { 0 },
                "{word}"
            );
        }
    }
    Ok(())
}

/// A machine, flags and a mode: what is so by them, the errors of a directory and of anything else; by which flags an
/// object that was found is opened, and one is made.
const OPENINGS: &str = "\
# O_WRONLY, O_TRUNC, O_NOFOLLOW
x86-64 401001: finds 0 0 found by 2001401
# O_DIRECTORY: the kernel itself looks, as it opens; with O_PATH it doesn't
x86-64 200000: finds follows directory asks 0 0 found by 2200400
x86-64 10200000: finds follows directory asks path 0 20
# O_CREAT and O_RDWR: a directory isn't opened so; with O_EXCL nothing is looked for
x86-64 102/644: finds makes follows asks 21 0 found by 2000402 made by 2400702
x86-64 302/644: makes follows asks 21 0 made by 2400702
# O_TMPFILE and O_EXCL: no name is made
x86-64 20600201/600: finds directory asks nameless 0 0 found by 22200601
# what is refused is nothing else
x86-64 600303/644: refused 0 0 found by 0 made by 0
# the same flag has another number there
arm64 40000: finds follows directory asks 0 0 found by 2040400
arm64 100102/644: finds makes asks 21 0 found by 2000402 made by 2100702
arm64 40100/644: refused 0 0 found by 0 made by 0
arm64 20040002/600: finds follows directory asks nameless 0 0 found by 22040402
arm64 600000: finds follows 0 0 found by 2600400";

fn said(alloc: Global, opening: &Opening) -> Result<String, AllocError> {
    let mut said = String::new(alloc);
    let is_refused = opening.error == EINVAL;
    for (is_so, word) in [
        (is_refused, "refused "),
        (opening.finds, "finds "),
        (opening.makes, "makes "),
        (opening.follows, "follows "),
        (opening.directory, "directory "),
        (opening.asks_kind, "asks "),
        (opening.by_path, "path "),
        (opening.nameless, "nameless "),
    ] {
        said.push_str(if is_so { word } else { "" })?;
    }
    write!(said, "{} {}", opening.directory_error, opening.other_error)?;
    if is_refused || opening.finds && !opening.by_path {
        write!(said, " found by {:o}", opening.found_flags)?;
    }
    if is_refused || opening.makes {
        write!(said, " made by {:o}", opening.made_flags)?;
    }
    Ok(said)
}

#[test]
fn opens_and_makes_by_flags(rt: HostRuntime) -> Result<(), Fail> {
    for row in OPENINGS.lines() {
        let (head, wanted) = row.split_once(": ").unwrap_or(("", ""));
        let (machine, word) = head.split_once(' ').unwrap_or(("", ""));
        let machine = if machine == "arm64" { &ARM64 } else { &X86_64 };
        let (flags, mode) = octal(word).unwrap_or((0, 0));
        let said = said(rt.alloc(), &opening_of(machine, flags, mode))?;
        assert!(rt;
            row.starts_with('#') || said.as_str() == wanted,
            "{row}: {said}"
        );
    }
    Ok(())
}

// Flags, a mode, and the kind of what is there, a directory (1) or a file (2); what is done with it, by which flags,
// and the error.
const USES: [(u32, u32, u8, (u8, u32, u8)); 9] = [
    // O_RDWR, and O_CREAT of a file.
    (0o2, 0, 2, (USE_REOPENS, 0o2000402, 0)),
    (0o102, 0o644, 2, (USE_REOPENS, 0o2000402, 0)),
    // O_DIRECTORY: the kernel refuses a file as it opens.
    (0o200000, 0, 2, (USE_REOPENS, 0o2200400, 0)),
    // O_PATH: the descriptor itself.
    (0o10000000, 0, 2, (USE_GIVES, 0, 0)),
    (0o10200000, 0, 1, (USE_GIVES, 0, 0)),
    // O_TMP2 and O_EXCL.
    (0o20600201, 0o600, 1, (USE_MAKES, 0o22200601, 0)),
    // What is there is refused by its kind.
    (0o102, 0o644, 1, (USE_FAILS, 0, 21)),
    (0o10000100, 0o644, 1, (USE_FAILS, 0, 21)),
    (0o10200000, 0, 2, (USE_FAILS, 0, 20)),
];

#[test]
fn does_one_thing_with_what_is_there(rt: HostRuntime) -> Result<(), Fail> {
    for (opened, mode, kind, (what, flags, error)) in USES {
        let found = use_of(&opening_of(&X86_64, opened, mode), kind);
        assert!(rt;
            found == Use { flags, what, error },
            "{opened:o}: {found:?}"
        );
    }
    Ok(())
}

#[test]
fn opens_once_more(rt: HostRuntime) -> Result<(), Fail> {
    assert!(rt; reopen_flags(&X86_64, 0o2) == 0o2000402);
    assert!(rt; reopen_flags(&X86_64, 0o10200000) == 0o12200400);
    // O_CREAT, O_EXCL, O_NOFOLLOW and O_TMPFILE say nothing of what is open.
    for flags in [0o3, 0o10000001, 0o102, 0o202, 0o400000, 0o20200002] {
        assert!(rt; reopen_flags(&X86_64, flags) == 0, "{flags:o}");
    }
    Ok(())
}
