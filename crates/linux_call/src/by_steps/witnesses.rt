//! The two witnesses of an object's place, by their system calls: the text of a link in /proc, and a look-up of names.
use crate::path::piece;
use crate::walk::{RESOLVE_BENEATH, RESOLVE_NO_MAGICLINKS, RESOLVE_NO_SYMLINKS, opened};
use dialogue::{Answer as Gave, Asked, Question, ask};
use find_place::{Answer, finds_object};
use find_proc::{Known, Proc, find};
use kernel_calls::proc_error;
use linux_steps::look_error;
use system_calls::Object;
use system_calls::errors::EAGAIN;

/// A link's text has so many bytes; or an error. By this /proc, if there is one.
#[derive(Clone, Copy)]
pub(crate) struct LinkRead {
    pub length: Result<u32, u32>,
    pub proc: Option<Proc>,
}

/// Which object was held, and which one was found; or an error. And what was opened, if it is open still.
#[derive(Clone, Copy)]
pub(crate) struct LookedUp {
    pub both: Result<(Object, Object), u32>,
    pub opened: Option<u32>,
}

/// The text of a descriptor's link in /proc. It is this thread's, whichever thread of which process this is by now.
/// PROC: the one that is known.
pub(crate) fn read_link<'n>(
    answers: &mut &[Gave],
    known: &mut Known,
    proc: Option<Proc>,
    fd: u32,
) -> Asked<'n, LinkRead> {
    let here = match proc {
        Some(proc) => proc,
        None => match find(answers, known, false)? {
            Ok(proc) => proc,
            Err(error) => {
                return Ok(LinkRead {
                    length: Err(error),
                    proc: None,
                });
            }
        },
    };
    let read = ask(answers, Question::ReadObjectLink(here.fd, fd))?;
    let length = if read.error == 0 {
        Ok(read.value)
    } else {
        Err(proc_error(answers, known, here.fd, fd, read.error)?)
    };
    Ok(LinkRead {
        length,
        proc: Some(here),
    })
}

// Which object is open. If it can't be asked, that counts as others' doing.
fn which<'n>(answers: &mut &[Gave], fd: u32) -> Asked<'n, Result<Object, u32>> {
    let about = ask(answers, Question::Stat(fd))?;
    Ok(if look_error(&about) == 0 {
        Ok(Object {
            device: about.device,
            inode: about.inode,
            mount: about.mount,
        })
    } else {
        Err(EAGAIN)
    })
}

fn find_both<'n>(
    answers: &mut &[Gave],
    held: u32,
    found: u32,
) -> Asked<'n, Result<(Object, Object), u32>> {
    let one = match which(answers, held)? {
        Ok(one) => one,
        Err(error) => return Ok(Err(error)),
    };
    Ok(match which(answers, found)? {
        Ok(other) => Ok((one, other)),
        Err(error) => Err(error),
    })
}

fn are_same(names: &[u8], held: Object, found: Object) -> bool {
    let answer = Answer {
        text: b"",
        held,
        found,
        links: 0,
        error: 0,
        yes: false,
    };
    finds_object(names, &answer)
}

/// What these names lead to from the root, through no link: a slash stands before each, or there is a slash alone. If
/// that is the object, the call goes on with what was opened, so that no step rests on the numbers that were compared.
/// The other descriptor is closed.
pub(crate) fn look_up<'n>(
    answers: &mut &[Gave],
    known: &mut Known,
    root: u32,
    held: u32,
    names: &'n [u8],
) -> Asked<'n, LookedUp> {
    let sought = if names.len() > 1 {
        piece(names, 1, names.len())
    } else {
        b"."
    };
    let resolve = RESOLVE_BENEATH | RESOLVE_NO_MAGICLINKS | RESOLVE_NO_SYMLINKS;
    let nofollow = known.machine.nofollow;
    let question = Question::LookUp(root, sought, nofollow, resolve);
    let found = match opened(answers, known, question)? {
        Ok(found) => found,
        Err(error) => {
            return Ok(LookedUp {
                both: Err(error),
                opened: None,
            });
        }
    };
    let both = find_both(answers, held, found)?;
    let same = match both {
        Ok((one, other)) => are_same(names, one, other),
        Err(_) => false,
    };
    ask(answers, Question::Close(if same { held } else { found }))?;
    Ok(LookedUp {
        both,
        opened: if same { Some(found) } else { None },
    })
}
