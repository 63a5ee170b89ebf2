//! Takes the steps of standard input on the plain tree and on indexed ones, and writes what all of them answer.
//!
//! A section of lines begins with the name of a tree and a title, as `base: renames` or `top: renames`: no handle is
//! open then. It ends with an empty line. A line has an actor and what it does: `grant PATH` opens a directory, `held`
//! counts the actor's open handles, `times N STEP` takes a step so many times, `still STEP` takes one and tells whether
//! the tree was left as it was, and any other is a step. Where the trees answer otherwise than one another, the line
//! says so.
#![tactic(auto)]

mod rows;
mod trees;

use rows::tell_all;
use std::io;
use std::io::Write;

fn main(rt: HostRuntime) -> io::Result<()> {
    let text = io::read_to_string(rt.alloc(), rt.stdin())?;
    match tell_all(rt.alloc(), text.as_str()) {
        Ok(told) => io::writer(&rt).write_all(told.as_slice()),
        Err(error) => println!(rt; "{error}"),
    }
}
