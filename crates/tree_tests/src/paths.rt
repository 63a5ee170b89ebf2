//! What no contract says of paths: that their words mean what the standards say, on worked examples, and that each call
//! can succeed.
use event_log::Output;
use fixtures::names_of;
use path_text::{
    Bytes, Component, Errno, LentBytes, LentName, Name, Names, NoMemory, Part, Parts, Path, Rule,
    Split,
};
use std::alloc::Global;
use std::fmt;
use std::test::Fail;

/// A line has a call, a text and what the call tells of it: `CALL TEXT = ANSWER`.
const SHORT: &str = "name  = EINVAL
name . = EINVAL
name .. = EINVAL
name a/b = EINVAL
name / = EINVAL
name a\0 = EINVAL
name \0 = EINVAL
part  = ENOENT
part . = EINVAL
part .. = EINVAL
part a/b = EINVAL
part / = EINVAL
part a\0 = EINVAL
part \0 = EINVAL
part x = a name
like f = same
like F = after
like f. = before
like g = before
parse a/../b = a,..,b,
parse //x = /x,
parse a/ = a,.,/
parse a/. = a,.,
parse a/.// = a,.,.,/
parse / = /
parse a//b///f = a,b,f,
parse a/b/f/ = a,b,f,.,/
parse a/b/f/.. = a,b,f,..,
parse /../../a = /..,..,a,
parse ..a/.../.b = ..a,...,.b,
parse  = ENOENT
parse a\0 = EINVAL
parse \0 = EINVAL
drop a/b/ = a, b /
refuse a/b = a, b
refuse /b = / b
drop b// =  b /
drop /a/.././b = /a,..,., b
refuse a/b/ = ENOTDIR
drop a/.. = EINVAL
drop / = EINVAL
drop a/. = EINVAL
refuse a/./ = EINVAL
refuse a/../ = EINVAL
print  = /
print a/b = /a/b
print c/.../x y = /c/.../x y
read  = none
read a = none
read a/b = none
read // = none
read /a/ = none
read /a//b = none
read /./a = none
read /a/.. = none
read /a\0 = none";

/// A call; a text as its beginning, what stands next so many times, its end and its length; what the call tells of it.
const LONG: [(&str, &str, &str, usize, &str, usize, &str); 16] = [
    ("name", "", "x", 255, "", 255, "same"),
    ("name", "", "x", 256, "", 256, "ENAMETOOLONG"),
    ("name", "/", "x", 300, "", 301, "EINVAL"),
    ("part", "", "x", 255, "", 255, "a name"),
    ("part", "", "x", 256, "", 256, "too long"),
    ("part", "/", "x", 300, "", 301, "EINVAL"),
    ("part", "", "x", 4095, "", 4095, "too long"),
    ("parse", "", "/", 4096, "", 4096, "ENAMETOOLONG"),
    ("parse", "\0", "a", 4096, "", 4097, "EINVAL"),
    ("count", "", "/", 4095, "", 4095, "/0"),
    ("count", "b", "/a", 2047, "", 4095, "2048"),
    ("count", "a/", "x", 255, "", 257, "2"),
    ("count", "a/", "x", 256, "", 258, "2"),
    ("count", "a/", "x", 300, "", 302, "2"),
    ("drop", "a/", "x", 256, "", 258, "ENAMETOOLONG"),
    ("refuse", "a/", "x", 256, "/", 259, "ENOTDIR"),
];

/// The errors with their names and numbers.
const ERRORS: [(Errno, &str, u8); 15] = [
    (Errno::NotFound, "ENOENT", 2),
    (Errno::BadHandle, "EBADF", 9),
    (Errno::Raced, "EAGAIN", 11),
    (Errno::NoMemory, "ENOMEM", 12),
    (Errno::Busy, "EBUSY", 16),
    (Errno::Exists, "EEXIST", 17),
    (Errno::CrossRoot, "EXDEV", 18),
    (Errno::NotDir, "ENOTDIR", 20),
    (Errno::IsDir, "EISDIR", 21),
    (Errno::Invalid, "EINVAL", 22),
    (Errno::TooMany, "EMFILE", 24),
    (Errno::BookFull, "ENOSPC", 28),
    (Errno::TooLong, "ENAMETOOLONG", 36),
    (Errno::NotEmpty, "ENOTEMPTY", 39),
    (Errno::Loop, "ELOOP", 40),
];

/// `/` for a path that begins with a slash, the parts with a comma after each, `/` for a slash at the end.
fn show(out: &mut Output, path: &Path) -> Result<(), NoMemory> {
    if path.absolute {
        out.text("/")?;
    }
    for at in 0..path.parts.len() {
        let piece = match path.parts.get(at) {
            Part::Cur => b".".as_slice(),
            Part::Up => b"..".as_slice(),
            Part::Named(component) => component.bytes(),
        };
        out.bytes(piece)?;
        out.text(",")?;
    }
    out.text(if path.slash { "/" } else { "" })
}

/// Whether a text is read as this, where both calls say that it is a path.
fn parses(alloc: Global, text: &[u8], wanted: &str) -> Result<bool, Errno> {
    let path = Path::parse(alloc, text)?;
    let mut out = Output::new(alloc);
    show(&mut out, &path)?;
    Ok(Path::fault_of(text).is_none() && out.as_slice() == wanted.as_bytes())
}

/// Whether both calls say that a text is no path, and why.
fn faults(alloc: Global, text: &[u8], wanted: &str) -> bool {
    let fault = Path::fault_of(text);
    Path::parse(alloc, text).err() == fault && fault.map_or("", Errno::name) == wanted
}

/// Whether a text has so many parts and no slash at its end; `/` stands before the number where it begins with one.
fn counts(alloc: Global, text: &[u8], wanted: &str) -> Result<bool, Errno> {
    let path = Path::parse(alloc, text)?;
    let (is_absolute, number) = match wanted.strip_prefix('/') {
        Some(number) => (true, number),
        None => (false, wanted),
    };
    let parts = number.parse().unwrap_or(usize::MAX);
    Ok(path.absolute == is_absolute && path.parts.len() == parts && !path.slash)
}

/// The directory's path, the last name, and `/` for a slash after it.
fn show_split(out: &mut Output, split: &Split) -> Result<(), NoMemory> {
    show(out, &split.dir)?;
    out.text(" ")?;
    out.bytes(split.name.bytes())?;
    out.text(if split.slash { " /" } else { "" })
}

/// Whether a path is split so, or is refused so: an error that a row wants is that of the split.
fn splits_to(alloc: Global, path: Path, rule: Rule, wanted: &str) -> Result<bool, Errno> {
    let split = path.split_last(alloc, rule)?;
    let mut out = Output::new(alloc);
    show_split(&mut out, &split)?;
    Ok(out.as_slice() == wanted.as_bytes())
}

fn splits(alloc: Global, text: &[u8], rule: Rule, wanted: &str) -> Result<bool, Errno> {
    match Path::parse(alloc, text) {
        Ok(path) => splits_to(alloc, path, rule, wanted),
        Err(_) => Ok(false),
    }
}

/// Whether a name that is lent is told from another so, and from the copy of another so.
fn lent_are_same(alloc: Global, f: &Name, other: &Name, wanted: bool) -> Result<bool, NoMemory> {
    let copy = other.lend().copy(alloc)?;
    Ok(f.lend().same(&other.lend()) == wanted && copy.lend().same(&f.lend()) == wanted)
}

/// How a name stands to another, where both tests say the same.
fn order(f: &Name, other: &Name) -> &'static str {
    if f.same(other) != (f == other) || f == other && f < other {
        return "";
    }
    if f == other {
        return "same";
    }
    if f < other { "before" } else { "after" }
}

/// The name `f`, as a copy.
fn copied(alloc: Global) -> Result<Name, Errno> {
    let f = Name::new(alloc, b"f")?;
    Ok(f.copy(alloc)?)
}

fn compares(alloc: Global, text: &[u8], wanted: &str) -> Result<bool, Errno> {
    let f = copied(alloc)?;
    let other = Name::new(alloc, text)?;
    Ok(order(&f, &other) == wanted && lent_are_same(alloc, &f, &other, wanted == "same")?)
}

fn is_name(alloc: Global, text: &[u8]) -> Result<bool, Errno> {
    let name = Name::new(alloc, text)?;
    Ok(name.bytes() == text && LentName::of(name.bytes()).bytes() == text)
}

/// The one part of a path, where that is a name.
fn only_name<'a>(path: &'a Path) -> Result<Component<'a>, Errno> {
    match path.parts.first() {
        Some(Part::Named(part)) if path.parts.len() == 1 && !path.absolute => Ok(part),
        _ => Err(Errno::Invalid),
    }
}

fn is_part(alloc: Global, text: &[u8], is_too_long: bool) -> Result<bool, Errno> {
    let path = Path::parse(alloc, text)?;
    let part = only_name(&path)?;
    Ok(part.bytes() == text && part.is_too_long() == is_too_long)
}

/// Whether a part is a name of the same bytes, both of its own and lent.
fn is_named(alloc: Global, text: &[u8]) -> Result<bool, Errno> {
    let path = Path::parse(alloc, text)?;
    let part = only_name(&path)?;
    if part.is_too_long() {
        return Ok(false);
    }
    let name = part.to_name(alloc)?;
    Ok(name.bytes() == text && part.name().bytes() == text)
}

fn is_kept(alloc: Global, text: &[u8], wanted: &str) -> Result<bool, Errno> {
    match wanted {
        "a name" => Ok(is_part(alloc, text, false)? && is_named(alloc, text)?),
        "too long" => is_part(alloc, text, true),
        _ => {
            is_part(alloc, text, false)?;
            Ok(false)
        }
    }
}

/// Whether the names are read of their text.
fn are_read(alloc: Global, text: &[u8], names: &Names) -> Result<bool, NoMemory> {
    match Names::read(alloc, text)? {
        Some(read) => Ok(read.same(names)),
        None => Ok(false),
    }
}

/// Whether no names are read of a text.
fn is_unread(alloc: Global, text: &[u8]) -> Result<bool, NoMemory> {
    let read = Names::read(alloc, text)?;
    Ok(read.is_none())
}

/// Whether the names between slashes are printed so, and read back.
fn prints(alloc: Global, spelled: &str, wanted: &str) -> Result<bool, Errno> {
    let names = names_of(alloc, spelled)?;
    let text = names.print(alloc)?;
    Ok(text.as_slice() == wanted.as_bytes() && are_read(alloc, &text, &names)?)
}

/// Whether a call tells that of a text.
fn tells(alloc: Global, call: &str, text: &[u8], wanted: &str) -> Result<bool, Errno> {
    match call {
        "name" => Ok(is_name(alloc, text)? && wanted == "same"),
        "part" => is_kept(alloc, text, wanted),
        "like" => compares(alloc, text, wanted),
        "parse" if wanted.starts_with('E') => Ok(faults(alloc, text, wanted)),
        "parse" => parses(alloc, text, wanted),
        "count" => counts(alloc, text, wanted),
        "drop" => splits(alloc, text, Rule::Drop, wanted),
        "refuse" => splits(alloc, text, Rule::Refuse, wanted),
        "read" => Ok(is_unread(alloc, text)? && wanted == "none"),
        _ => Ok(false),
    }
}

/// Whether a call tells that of a text, or is refused so.
fn is_told(alloc: Global, call: &str, text: &[u8], wanted: &str) -> bool {
    match tells(alloc, call, text, wanted) {
        Ok(is_right) => is_right,
        Err(error) => error.name() == wanted,
    }
}

fn is_right(alloc: Global, row: &str) -> Result<bool, Errno> {
    let (call, rest) = row.split_once(' ').unwrap_or(("", ""));
    let (text, wanted) = rest.split_once(" = ").unwrap_or(("", ""));
    match call {
        "print" => prints(alloc, text, wanted),
        _ => Ok(is_told(alloc, call, text.as_bytes(), wanted)),
    }
}

fn all_right(alloc: Global, rows: &'static str) -> Result<(), Fail> {
    for row in rows.lines() {
        if !is_right(alloc, row)? {
            return Err(Fail::new(row));
        }
    }
    Ok(())
}

#[test]
fn short_texts_are_told(rt: HostRuntime) -> Result<(), Fail> {
    all_right(rt.alloc(), SHORT)
}

fn repeated(
    alloc: Global,
    first: &str,
    next: &str,
    count: usize,
    last: &str,
) -> Result<Vec<u8>, NoMemory> {
    let mut text = Vec::from_slice(alloc, first.as_bytes())?;
    for _ in 0..count {
        text.extend_from_slice(next.as_bytes())?;
    }
    text.extend_from_slice(last.as_bytes())?;
    Ok(text)
}

/// The first long text of which something else is told.
fn first_wrong(alloc: Global) -> Result<Option<usize>, NoMemory> {
    for (at, (call, first, next, count, last, len, wanted)) in LONG.iter().enumerate() {
        let text = repeated(alloc, first, next, *count, last)?;
        if text.len() != *len || !is_told(alloc, call, &text, wanted) {
            return Ok(Some(at));
        }
    }
    Ok(None)
}

#[test]
fn long_texts_are_told(rt: HostRuntime) -> Result<(), Fail> {
    assert!(rt; first_wrong(rt.alloc())?.is_none());
    Ok(())
}

/// Whether an error is printed as its name.
fn is_printed<E: fmt::Display>(alloc: Global, error: &E, name: &str) -> Result<bool, NoMemory> {
    let printed = format!(in alloc; "{error}")?;
    Ok(printed.as_str() == name)
}

fn are_errors(alloc: Global) -> Result<bool, NoMemory> {
    for (error, name, number) in &ERRORS {
        if error.name() != *name || error.number() != *number || !is_printed(alloc, error, name)? {
            return Ok(false);
        }
    }
    let as_error = Errno::from(NoMemory) == Errno::NoMemory;
    Ok(as_error && is_printed(alloc, &NoMemory, "ENOMEM")?)
}

#[test]
fn errors_have_their_names_and_numbers(rt: HostRuntime) -> Result<(), Fail> {
    assert!(rt; are_errors(rt.alloc())?);
    Ok(())
}

fn push_b(alloc: Global, names: &mut Names) -> Result<(), Errno> {
    let b = Name::new(alloc, b"b")?;
    Ok(names.push_bytes(b.bytes())?)
}

/// `a`, `b`, put together by both ways to push.
fn two_names(alloc: Global) -> Result<Names, Errno> {
    let one = names_of(alloc, "a")?;
    let mut names = one.copy(alloc)?;
    push_b(alloc, &mut names)?;
    Ok(names)
}

/// Whether a copy of two names loses the second, and then both.
fn shrinks(names: &Names, copy: &mut Names, one: &Names) -> bool {
    if copy.is_empty() {
        return false;
    }
    copy.pop();
    let shorter = copy.same(one) && !copy.same(names);
    copy.clear();
    shorter && copy.is_empty() && !copy.same(names)
}

fn names_grow_and_shrink(alloc: Global) -> Result<bool, Errno> {
    let names = two_names(alloc)?;
    let mut copy = names.copy(alloc)?;
    let one = names_of(alloc, "a")?;
    Ok(shrinks(&names, &mut copy, &one) && names.len() == 2 && names.get(1) == b"b".as_slice())
}

/// Whether names stay as they are where room for more is got.
fn names_get_room(alloc: Global) -> Result<bool, Errno> {
    let mut names = two_names(alloc)?;
    names.reserve(32, 255)?;
    let path = Path::parse(alloc, b"c/d")?;
    names.reserve_for(&path.parts, &path.parts)?;
    Ok(names.same(&two_names(alloc)?))
}

/// `a`, `b`, as a list of names.
fn name_list(alloc: Global) -> Result<Vec<Name>, Errno> {
    let mut list = Vec::new(alloc);
    list.push(Name::new(alloc, b"a")?)?;
    list.push(Name::new(alloc, b"b")?)?;
    Ok(list)
}

/// `a`, `b` from a slice, turned round.
fn turned(alloc: Global) -> Result<Names, Errno> {
    let list = name_list(alloc)?;
    let names = Names::from_slice(alloc, list.as_slice())?;
    Ok(names.reversed(alloc)?)
}

fn names_turn_round(alloc: Global) -> Result<bool, Errno> {
    let names = turned(alloc)?;
    if names.len() != 2 {
        return Ok(false);
    }
    let first = names.to_name(alloc, 0)?;
    let (lent, last) = (names.lend(0), names.lend(1));
    Ok(lent.same(&first.lend()) && !last.same(&first.lend()) && last.bytes() == b"a".as_slice())
}

/// The parts `a`, `..`, `b`.
fn three_parts(alloc: Global) -> Result<Parts, Errno> {
    Ok(Path::parse(alloc, b"a/../b")?.parts)
}

/// Whether the only part is `..`.
fn is_up(parts: &Parts) -> bool {
    parts.len() == 1 && matches!(parts.last(), Some(Part::Up))
}

fn parts_go_at_both_ends(alloc: Global) -> Result<bool, Errno> {
    let mut parts = three_parts(alloc)?;
    parts.drop_first();
    parts.drop_last();
    let is_left = is_up(&parts);
    parts.drop_first();
    parts.drop_last();
    Ok(is_left && parts.is_empty())
}

/// Whether a text's parts come in the place of the first.
fn parts_are_put(alloc: Global) -> Result<bool, Errno> {
    let mut parts = three_parts(alloc)?;
    let slash = parts.replace_first(Bytes::from_slice(alloc, b"../")?)?;
    let wanted = Path::parse(alloc, b".././../b")?.parts;
    Ok(slash && parts.same(&wanted) && parts.same(&wanted.copy(alloc)?))
}

/// Whether a text's parts come in the place of the only one, and of none.
fn parts_are_put_alone(alloc: Global) -> Result<bool, Errno> {
    let mut parts = Path::parse(alloc, b"a")?.parts;
    let slash = parts.replace_first(Bytes::from_slice(alloc, b"../b")?)?;
    let is_put = parts.same(&Path::parse(alloc, b"../b")?.parts);
    parts.drop_first();
    parts.drop_first();
    let last_slash = parts.replace_first(Bytes::from_slice(alloc, b"c/")?)?;
    Ok(!slash && is_put && last_slash && parts.same(&Path::parse(alloc, b"c/")?.parts))
}

/// Whether the parts are those of a longer list after its first, and the first ones the same there.
fn parts_are_compared(alloc: Global) -> Result<bool, Errno> {
    let (parts, mut longer) = (three_parts(alloc)?, Path::parse(alloc, b"c/a/../b")?.parts);
    if longer.is_empty() {
        return Ok(false);
    }
    let after = parts.same_after(0, &longer, 1) && !parts.same_after(0, &longer, 0);
    longer.drop_first();
    match (parts.first(), longer.first()) {
        (Some(part), Some(other)) => Ok(after && part.same(&other)),
        _ => Ok(false),
    }
}

fn bytes_are_copied(alloc: Global) -> Result<bool, Errno> {
    let text = Bytes::from_slice(alloc, b"../a")?;
    let copy = Bytes::from_vec(text.copy(alloc)?.into_vec());
    let other = Bytes::from_slice(alloc, b"../")?;
    Ok(copy.as_slice() == b"../a".as_slice() && copy.same(&text) && !copy.same(&other))
}

/// Whether bytes that are lent are those that lend them, and their copies; and no others.
fn bytes_are_lent(alloc: Global) -> Result<bool, Errno> {
    let text = Bytes::from_slice(alloc, b"../a")?;
    let lent = text.lend();
    let copy = lent.copy(alloc)?;
    let (same, other) = (LentBytes::of(b"../a"), LentBytes::of(b"../"));
    let is_text = lent.as_slice() == text.as_slice() && copy.same(&text);
    Ok(is_text && lent.same(&same) && !lent.same(&other))
}

fn lists_are_right(alloc: Global) -> Result<bool, Errno> {
    Ok(
        names_grow_and_shrink(alloc)?
            && names_get_room(alloc)?
            && names_turn_round(alloc)?
            && parts_go_at_both_ends(alloc)?
            && parts_are_put(alloc)?
            && parts_are_put_alone(alloc)?
            && parts_are_compared(alloc)?
            && bytes_are_copied(alloc)?
            && bytes_are_lent(alloc)?,
    )
}

#[test]
fn lists_are_kept(rt: HostRuntime) -> Result<(), Fail> {
    assert!(rt; lists_are_right(rt.alloc())?);
    Ok(())
}
