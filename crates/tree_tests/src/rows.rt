//! Steps and answers of each kind, and their lines.
use event_log::read_step;
use path_text::Errno;
use std::alloc::Global;
use tree_model::Step;

pub const STEPS: &str = "\
open 3 a
dup 0
parent 18446744073709551615
read_link 4
below 1 2
list 10
close 7
make_dir 3 \\xc3\\xa9
make_file 3 a\\x20b
make_file 3 a\\x20b\\x5c
make_link 3 l ../a
make_link 3 l \nremove_file 3 a
remove_dir 3 ...
rename 3 a 4 b plain
rename 3 a 4 bc plain
rename 3 a 4 b noreplace
rename 3 ab 4 b noreplace
rename 4 b 3 a exchange";

/// An answer's words, and its line.
pub const ANSWERS: &str = "\
file 5 12 = opened 5 12 file
text /a b = text /a\\x20b
names /a/bcd = names /a/bcd
names /a/é = names /a/\\xc3\\xa9
names / = names /
not_below = not_below
listed /ab/c = listed 2 ab c
listed /a/b c = listed 2 a b\\x20c
listed / = listed 0
done = done
refused EMFILE = refused EMFILE";

/// The two columns of an answer's row.
pub fn words_and_line(row: &str) -> (&str, &str) {
    row.split_once(" = ").unwrap_or((row, ""))
}

/// The step of that line.
pub fn step_of(alloc: Global, line: &str) -> Result<Step, Errno> {
    read_step(alloc, line.as_bytes())?.ok_or(Errno::Invalid)
}
