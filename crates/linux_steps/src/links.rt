//! A link's text.
ghost use Rattle.std.specs.Prelude.{◌≡◌};
ghost use Rattle.std.specs.Option.{option_map};
ghost use Rattle.dialogue.specs.Dialogue.{asked_of, ran, ran_by};
ghost use Rattle.linux_steps.specs.Steps.{by_holder, by_kernel, entry_of, followed, has_followed, has_magic, is_ordinary, link_text, not_ordinary, not_read, read_link_step, text_of};

use crate::asks::{close, opened};
use crate::ended::Ended;
use dialogue::{Answer, Asked, How, Question, ask};
use path_text::Errno;
use system_calls::errors::{EINVAL, ELOOP, ENAMETOOLONG, ENOENT, ENOSYS, ENOTDIR, EPERM, EXDEV};

const NOSYMFOLLOW: u64 = 0x2000;

const PROC: u64 = 0x9fa0;

const SECURITYFS: u64 = 0x7363_6673;

const AAFS: u64 = 0x5a3c_69f0;

/// Where a link stands: a directory that is open, and a name in it.
#[derive(Clone, Copy, Debug)]
pub struct LinkEntry<'n> {
    pub dir: u32,
    pub name: &'n [u8],
}

fn has_followed(flags: u64) -> bool
    ensures { result ≡ has_followed flags }
{
    flags & NOSYMFOLLOW != NOSYMFOLLOW
}

fn has_magic(file_system: u64) -> bool
    ensures { result ≡ has_magic file_system }
{
    file_system == PROC || (file_system == SECURITYFS || file_system == AAFS)
}

fn is_ordinary(error: u32) -> bool
    ensures { result ≡ is_ordinary error }
{
    error == EXDEV || (error == ENOTDIR || error == ENAMETOOLONG)
}

fn not_ordinary(error: u32) -> u32
    ensures { result ≡ not_ordinary error }
{
    if error == ENOSYS || error == EPERM {
        ELOOP
    } else {
        error
    }
}

fn not_read(error: u32) -> u32
    ensures { result ≡ not_read error }
{
    if error == ENOENT { EINVAL } else { error }
}

fn followed() -> How
    ensures { result ≡ followed }
{
    How {
        path: true,
        directory: false,
        no_follow: false,
        no_xdev: false,
    }
}

fn link_text(is_link: bool, answer: &Answer) -> Ended
    ensures { result ≡ link_text is_link answer.now }
{
    if answer.error == 0 {
        return Ended::Text(answer.value);
    }
    let error = not_read(answer.error);
    if !is_link && error == EINVAL {
        Ended::Refused(Errno::Invalid)
    } else {
        Ended::Unmade(error)
    }
}

#[tactic(auto, using(dialogue::proofs::TalkLemmas::ran_then, dialogue::proofs::TalkLemmas::ran_ends), unfolding(crate::specs::Steps::text_of))]
fn text_of<'n>(answers: &mut &[Answer], fd: u32, is_link: bool) -> Asked<'n, Ended>
    ensures { ran_by (λ x. x) asked_of result answers.new.now ≡ ran (text_of fd is_link) answers.old.now }
{
    let read = ask(answers, Question::ReadLink(fd))?;
    Ok(link_text(is_link, &read))
}

// Only the kernel knows whether the link leads to an object and not along its text, and refuses to follow it by its
// name then, before it looks where the link leads. So it refuses a link beyond that one, and so would the walk that
// comes to it.
#[tactic(auto, using(dialogue::proofs::TalkLemmas::ran_then, dialogue::proofs::TalkLemmas::ran_ends), unfolding(crate::specs::Steps::by_kernel))]
fn by_kernel<'n>(
    answers: &mut &[Answer],
    fd: u32,
    is_link: bool,
    entry: LinkEntry<'n>,
) -> Asked<'n, Ended>
    ensures { ran_by (λ x. x) asked_of result answers.new.now
        ≡ ran (by_kernel fd is_link (entry_of entry.entry)) answers.old.now }
{
    match opened(
        answers,
        Question::OpenName(entry.dir, entry.name, followed()),
    )? {
        Ok(led) => close(answers, led)?,
        Err(error) => {
            if !is_ordinary(error) {
                return Ok(Ended::Unmade(not_ordinary(error)));
            }
        }
    }
    text_of(answers, fd, is_link)
}

#[tactic(auto, using(dialogue::proofs::TalkLemmas::ran_then, dialogue::proofs::TalkLemmas::ran_ends), unfolding(crate::specs::Steps::by_holder))]
fn by_holder<'n>(
    answers: &mut &[Answer],
    fd: u32,
    is_link: bool,
    entry: Option<LinkEntry<'n>>,
) -> Asked<'n, Ended>
    ensures { ran_by (λ x. x) asked_of result answers.new.now
        ≡ ran (by_holder fd is_link (option_map entry_of entry.entry)) answers.old.now }
{
    let about = ask(answers, Question::FileSystem(fd))?;
    if about.error == 0 && !has_magic(about.file_system) {
        return text_of(answers, fd, is_link);
    }
    match entry {
        Some(entry) => by_kernel(answers, fd, is_link, entry),
        None => Ok(Ended::Unmade(ELOOP)),
    }
}

/// Reads the text of the link that is open. It is read only if its mount has links followed (mount(8), nosymfollow),
/// and if it is no magic link (proc(5)): its file system has none, or the kernel looked where its entry leads. IS_LINK:
/// it is surely a link.
///
/// Refused by Invalid where it is no link. ELOOP: its mount has none followed, it is a magic one, or there is nobody to
/// ask. Any other error ends the step as not made.
#[tactic(auto, using(dialogue::proofs::TalkLemmas::ran_then, dialogue::proofs::TalkLemmas::ran_ends), unfolding(crate::specs::Steps::read_link_step))]
pub fn read_link_step<'n>(
    answers: &mut &[Answer],
    fd: u32,
    is_link: bool,
    entry: Option<LinkEntry<'n>>,
) -> Asked<'n, Ended>
    ensures { ran_by (λ x. x) asked_of result answers.new.now
        ≡ ran (read_link_step fd is_link (option_map entry_of entry.entry)) answers.old.now }
{
    let about = ask(answers, Question::FileSystem(fd))?;
    if about.error != 0 {
        return Ok(Ended::Unmade(about.error));
    }
    if !has_followed(about.flags) {
        return Ok(Ended::Unmade(ELOOP));
    }
    by_holder(answers, fd, is_link, entry)
}
