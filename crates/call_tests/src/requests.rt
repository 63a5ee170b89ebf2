//! Requests read from words: an operation's own word and its texts, or the line of a single step.
//!
//! A request has many kinds, and each place where one is dropped is long to prove: it is moved, or given to `drop`.
use event_log::read_step;
use fixtures::{PLAIN, cut};
use path_text::{Bytes, Flags, NoMemory};
use root_ops::{Op, Request};
use std::alloc::Global;
use tree_model::Mode;

/// The number that a word is, and of another word the greatest.
pub fn number(word: &str) -> u64 {
    word.parse().unwrap_or(u64::MAX)
}

fn mode_of(word: &str) -> Mode {
    match word {
        "exchange" => Mode::Exchange,
        "noreplace" => Mode::NoReplace,
        _ => Mode::Plain,
    }
}

// The operation of that word on these texts.
fn op_on(word: &str, path: Bytes, text: Bytes, mode: Mode) -> Op {
    match word {
        "resolve" => Op::Resolve(path),
        "no_follow" => Op::ResolveNoFollow(path),
        "read_link" => Op::ReadLink(path),
        "create_file" => Op::CreateFile(path),
        "create_dir" => Op::CreateDir(path),
        "create_link" => Op::CreateLink(path, text),
        "remove_file" => Op::RemoveFile(path),
        "remove_dir" => Op::RemoveDir(path),
        "mkdir_all" => Op::MkdirAll(path),
        "remove_all" => Op::RemoveAll(path),
        _ => Op::Rename(path, text, mode),
    }
}

// The single step that a line is, or else the operation that its words are: an operation's word, a path, and for a link
// or a rename the second text and the mode.
fn op_of(alloc: Global, line: &str) -> Result<Op, NoMemory> {
    if let Some(step) = read_step(alloc, line.as_bytes())? {
        return Ok(Op::Single(step));
    }
    let (word, rest) = cut(line);
    let (first, others) = cut(rest);
    let (second, mode) = cut(others);
    let path = Bytes::from_slice(alloc, first.as_bytes())?;
    let text = Bytes::from_slice(alloc, second.as_bytes())?;
    Ok(op_on(word, path, text, mode_of(mode)))
}

/// The request that a line asks for, with these restrictions; without memory for it one that fails.
pub fn request_of(alloc: Global, line: &str, flags: Flags) -> Request {
    match op_of(alloc, line) {
        Ok(op) => Request { op, flags },
        Err(_) => nothing(alloc),
    }
}

// Asks for an empty path.
fn nothing(alloc: Global) -> Request {
    let op = Op::Resolve(Bytes::from_vec(Vec::new(alloc)));
    Request { op, flags: PLAIN }
}

/// The same, or a copy of it.
pub fn asked(alloc: Global, line: &str, flags: Flags, is_copied: bool) -> Request {
    let request = request_of(alloc, line, flags);
    if !is_copied {
        return request;
    }
    let copy = request.copy(alloc);
    drop(request);
    match copy {
        Ok(copy) => copy,
        Err(_) => nothing(alloc),
    }
}
