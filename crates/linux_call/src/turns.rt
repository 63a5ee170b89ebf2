//! The turns of a call: what is due by the answers so far.
//!
//! A call is run anew over its answers, and asks for the next one. Where a part of the call is over, its answers are
//! dropped: that is so at the end of each single step, and of each call of several.
ghost use Rattle.std.specs.Prelude.{◌≡◌, ◌≤◌, ◌<◌, ◌∷◌, ◌++◌, ◌+◌, ◌==◌, ◌&&◌, [], not, false, true, length, take, IsSome, MatchOption, None, Ok, Some};
ghost use Rattle.dialogue.specs.Dialogue.{asked_of, ran};
ghost use Rattle.dialogue.specs.declared.calls.Answer.{Answer};
ghost use Rattle.kernel_calls.specs.Calls.{EndsNext, IsBare};
ghost use Rattle.kernel_calls.specs.Entry.{closed_by};
ghost use Rattle.linux_call.specs.Turns.{HasRoom, IsEnd, IsKept, IsLooked, IsPlain, IsWhole, Stands, Tells, Turned, closes_in, ends_behind, is_told, next_count, texts_beside, told, whole_at};
ghost use Rattle.linux_call.specs.Whole.{CallDialogue, FollowsPart, IsByKernel, IsWalked, at_in, besides, inner, is_whole, is_wrong, outcome_of, wanted_of};
ghost use Rattle.linux_call.specs.declared.turns.Came.TheVariants as cames;

use crate::by_steps::{Ended, Steps};
use crate::due::{Due, NAME, decimal, digits, due_of, end_of, lay};
use crate::first::look_up_first;
use crate::inner::answer_of;
use crate::kept::{Kept, State};
use crate::path::{PathOf, Texts};
use crate::progress::Progress;
use crate::request::*;
use crate::several::{Part, Then, begin, keep_gave, next_call};
use crate::{open_at, steps};
use dialogue::{Answer, Question};
use kernel_calls::{Behind, Closes};
use std::alloc::Global;
use std::mem;
use system_calls::errors::{EIO, ENOMEM};

// More parts than come one after another without a system call.
const PARTS: u32 = 64;

// ---- single steps

fn between(answers: &[Answer], from: u32, to: u32) -> &[Answer]
    ensures { from ≡ 0 → to ≤ length answers.now → result.now ≡ take to answers.now }
{
    let (from, to) = (from as usize, to as usize);
    if from <= to && to <= answers.len() {
        &answers[from..to]
    } else {
        &answers[..0]
    }
}

// The call by single steps has ended: what it came to is an answer of the call that asked for it.
fn end_steps(state: &mut State, ended: Ended, answers: &mut [Answer]) {
    let at = state.base as usize;
    if at < answers.len() {
        answers[at] = answer_of(ended, &state.known);
        state.count = state.base.saturating_add(1);
    }
}

// The system call that is due of the step that is under way; or none, if a part of the step is over.
#[inline(never)]
fn go_by_steps(
    alloc: Global,
    request: &Request,
    state: &mut State,
    mut under_way: Box<Steps>,
    steps: &mut Option<Box<Steps>>,
    read: &mut [u8],
    answers: &mut [Answer],
    room: &mut [u8],
) -> Option<Due> {
    let mut known = state.known;
    let mut left = between(answers, state.base, state.count);
    let came = match under_way.due(&mut known, &mut left, read) {
        Ok(part) => Ok(part),
        Err(question) => Err(due_of(&question, request, room)),
    };
    match came {
        Err(due) => {
            *steps = Some(under_way);
            Some(due)
        }
        Ok(part) => {
            state.known = known;
            state.count = state.base;
            match under_way.take(alloc, part, read) {
                None => *steps = Some(under_way),
                Some(ended) => {
                    lay(room, NAME, under_way.name());
                    end_steps(state, ended, answers);
                }
            }
            None
        }
    }
}

// ---- the call itself

// What came of a part of the call.
enum Came {
    Due(Due),
    BySteps(Box<Steps>),
    // No memory for that.
    NoMemory,
    // A part of a call of several is over.
    Gave(Then),
}

#[inline(always)]
fn part<'n>(now: &mut Progress<'_>, request: &Request, state: &State, texts: Texts<'n>) -> Part<'n>
    ensures ran { is_whole request.now.what ≡ true → is_wrong request.now ≡ false
        → IsWalked (inner request.now).flags request.now.root
        → closed_by now.old.behind.closes ≡ [] → (s : CallDialogue) → IsByKernel (inner request.now) now.old.known
        (at_in (inner request.now) texts.entry) (besides texts.entry) now.old.ends s
        → FollowsPart (ran s now.old.answers.now) (closed_by now.new.behind.closes) result }
    ensures next { is_whole request.now.what ≡ true → is_wrong request.now ≡ false
        → IsWalked (inner request.now).flags request.now.root → IsBare (wanted_of (inner request.now))
        → now.old.behind.changes ≡ false → now.new.behind.changes ≡ true → (s : CallDialogue)
        → IsByKernel (inner request.now) now.old.known (at_in (inner request.now) texts.entry)
        (besides texts.entry) now.old.ends s
        → EndsNext s now.old.answers.now (closed_by now.new.behind.closes) }
{
    match request.what {
        OPEN_AT => now.open_at_part(request, state, texts),
        MAKE_DIRECTORIES | MAKE_FILE => now.make_all_part(request, state, texts),
        _ => Ok(Ok(now.run(request, texts)?)),
    }
}

fn is_look_up(request: &Request, question: &Question<'_>) -> bool {
    match *question {
        Question::LookUp(dir, _, _, _) | Question::OpenPath(dir, _, _, _, _) => dir == request.root,
        _ => false,
    }
}

// What the look-up opens is the reply.
fn is_reply(request: &Request, state: &State) -> bool
    ensures { is_whole request.now.what ≡ true
        → result ≡ (request.now.what == 1) && not request.now.asks_kind }
{
    match request.what {
        RESOLVE => !request.asks_kind,
        OPEN_AT => !state.opening.asks_kind || state.opening.directory,
        _ => false,
    }
}

// The reply of such a call comes right behind the change of an entry.
fn ends_behind(what: u8) -> bool
    ensures { result ≡ ends_behind what }
{
    match what {
        MKDIR | SYMLINK | UNLINK | RMDIR | RENAME | MAKE_NODE => true,
        _ => false,
    }
}

#[inline(never)]
fn begin_steps(
    alloc: Global,
    state: &mut State,
    inner: &Option<Request>,
    first: &[u8],
    second: &[u8],
) -> Came {
    let asked = match inner {
        Some(asked) => asked,
        None => return Came::NoMemory,
    };
    state.known = asked.known;
    state.base = state.count;
    match Steps::begin(alloc, asked, first, second) {
        Ok(begun) => match Box::new(alloc, begun) {
            Ok(boxed) => Came::BySteps(boxed),
            Err(_) => Came::NoMemory,
        },
        Err(_) => Came::NoMemory,
    }
}

// How long the first text is.
#[inline(always)]
fn first_length(request: &Request, state: &State) -> usize
    ensures { is_whole request.now.what ≡ true → result ≡ request.now.length }
{
    match request.what {
        OPEN_AT => state.course.length,
        MAKE_DIRECTORIES | MAKE_FILE => state.making.length,
        _ => request.length as usize,
    }
}

// A link's text; or the number of a process, in decimal.
#[inline(always)]
fn target_of<'n>(request: &Request, second: &'n [u8], number: &'n [u8]) -> &'n [u8]
    ensures { is_whole request.now.what ≡ true → result.now ≡ second.now }
{
    match request.what {
        PROC_OPEN | PROC_READ_LINK => number,
        _ => second,
    }
}

#[inline(always)]
fn texts_of<'n>(
    request: &Request,
    state: &State,
    first: &'n [u8],
    second: &'n [u8],
    read: &'n [u8],
    number: &'n [u8],
) -> Texts<'n>
    ensures { is_whole request.now.what ≡ true
        → (result.first.slashed.now ≡ take (1 + request.now.length) first.now)
        × (besides result ≡ texts_beside second.now read.now) × (result.looked ≡ state.now.looked) }
{
    let second = PathOf::new(second);
    Texts {
        first: PathOf::new(first).front(first_length(request, state)),
        second,
        target: target_of(request, second.text(), number),
        read,
        looked: state.looked,
    }
}

#[inline(always)]
fn end_and_close(reply: Reply<'_>, closes: &Closes, room: &mut [u8]) -> Due
    ensures { IsEnd (outcome_of reply.entry) result × (closes_in result ≡ closed_by closes.now) }
{
    Due {
        closes: closes.count,
        first_closed: closes.first,
        second_closed: closes.second,
        ..end_of(&reply, room)
    }
}

// A call on a path within which the kernel walks.
fn is_whole(what: u8) -> bool
    ensures { result ≡ is_whole what }
{
    match what {
        RESOLVE | MKDIR | SYMLINK | UNLINK | RMDIR | RENAME | MAKE_NODE => true,
        _ => false,
    }
}

// What is asked is kept: if that is a look-up of the path whose answer is the reply, or a change whose answer may end
// the call. The first look-up of a whole call comes before (`look_up_first`).
#[inline(always)]
fn keep_asked(request: &Request, state: &mut State, question: &Question<'_>, behind: &Behind)
    ensures same { (state.new.count ≡ state.old.count) × (state.new.begun ≡ state.old.begun)
        × (state.new.changes ≡ behind.now.changes) × (state.new.closes ≡ behind.now.closes) }
    ensures first { is_whole request.now.what ≡ true → state.old.count ≡ 0
        → (state.new.looked ≡ false) × (state.new.opens ≡ false) }
    ensures later { (state.old.count ≡ 0 → ⊥)
        → (state.new.looked ≡ state.old.looked) × (state.new.opens ≡ state.old.opens) }
{
    if state.count == 0 {
        state.looked = !is_whole(request.what) && is_look_up(request, question);
        state.opens = state.looked && is_reply(request, state);
    }
    state.changes = behind.changes;
    state.closes = behind.closes;
}

#[inline(never)]
fn go(
    alloc: Global,
    request: &mut Request,
    state: &mut State,
    first: &[u8],
    second: &[u8],
    read: &[u8],
    number: &[u8],
    answers: &[Answer],
    room: &mut [u8],
) -> Came
    ensures { IsPlain request.old → state.old.count ≤ length answers.now → state.old.opens ≡ false
        → (state.old.count ≡ 0 → state.old.looked ≡ false)
        → (state.old.looked ≡ true → IsLooked (inner request.old) (whole_at request.old first.now false))
        → (s : CallDialogue) → IsWhole request.old first.now second.now s
        → is_told (ran s (take state.old.count answers.now)) ≡ true
        → (d : Due) × (result ≡ cames.Due d) × (state.new.count ≡ state.old.count)
        × (state.new.begun ≡ state.old.begun) × (request.new ≡ request.old)
        × Tells request.old first.now s (ran s (take state.old.count answers.now)) state.new answers.now d room.new }
{
    let texts = texts_of(request, state, first, second, read, number);
    let left = between(answers, 0, state.count);
    let mut now = Progress::new(left, request.known, ends_behind(request.what));
    match part(&mut now, request, state, texts) {
        Err(Question::BySteps(first, second)) => {
            begin_steps(alloc, state, &now.inner, first, second)
        }
        Err(question) => {
            keep_asked(request, state, &question, &now.behind);
            Came::Due(due_of(&question, request, room))
        }
        Ok(given) => match given {
            Ok(reply) => Came::Due(end_and_close(reply, &now.behind.closes, room)),
            Err(gave) => {
                let then = keep_gave(state, &gave, room);
                request.known = now.known;
                state.count = 0;
                state.looked = false;
                Came::Gave(then)
            }
        },
    }
}

// ---- a turn

// What a part of the call came to: a system call, or the end; or none, and the call goes on.
#[inline(always)]
fn follow(
    came: Came,
    state: &mut State,
    steps: &mut Option<Box<Steps>>,
    first: &mut [u8],
    read: &[u8],
    answers: &mut [Answer],
    room: &mut [u8],
) -> Option<Due>
    ensures { (d : Due) → came ≡ cames.Due d → (result ≡ Some d) × (state.new ≡ state.old)
        × (room.new ≡ room.old) × (steps.new ≡ steps.old) × (answers.new ≡ answers.old) }
{
    match came {
        Came::Due(due) => return Some(due),
        Came::BySteps(begun) => *steps = Some(begun),
        Came::NoMemory => {
            lay(room, NAME, b"");
            end_steps(state, Ended::Fails(ENOMEM, steps::NONE), answers);
        }
        Came::Gave(then) => {
            if !next_call(state, then, first, read) {
                return Some(end_of(&refused(EIO), room));
            }
        }
    }
    None
}

// The system call that is due, or the end.
#[inline(never)]
fn go_on(
    alloc: Global,
    request: &mut Request,
    state: &mut State,
    steps: &mut Option<Box<Steps>>,
    first: &mut [u8],
    second: &[u8],
    read: &mut [u8],
    number: &[u8],
    answers: &mut [Answer],
    room: &mut [u8],
) -> Due {
    for _ in 0..PARTS {
        let due = match steps.take() {
            Some(under_way) => go_by_steps(
                alloc, request, state, under_way, steps, read, answers, room,
            ),
            None => {
                let came = go(
                    alloc, request, state, first, second, read, number, answers, room,
                );
                follow(came, state, steps, first, read, answers, room)
            }
        };
        if let Some(due) = due {
            return due;
        }
    }
    end_of(&refused(EIO), room)
}

fn is_of_proc(request: &Request) -> bool {
    request.what == PROC_OPEN || request.what == PROC_READ_LINK
}

// The same. Most calls have no single step under way, and come to their next system call at once.
#[inline(always)]
fn next_due(
    alloc: Global,
    request: &mut Request,
    state: &mut State,
    steps: &mut Option<Box<Steps>>,
    first: &mut [u8],
    second: &[u8],
    read: &mut [u8],
    answers: &mut [Answer],
    room: &mut [u8],
) -> Due
    ensures { steps.old ≡ None → IsPlain request.old → state.old.count ≤ length answers.old → state.old.opens ≡ false
        → (state.old.count ≡ 0 → state.old.looked ≡ false)
        → (state.old.looked ≡ true → IsLooked (inner request.old) (whole_at request.old first.old false))
        → (s : CallDialogue) → IsWhole request.old first.old second.now s
        → is_told (ran s (take state.old.count answers.old)) ≡ true
        → (state.new.count ≡ state.old.count) × (state.new.begun ≡ state.old.begun) × (request.new ≡ request.old)
        × (steps.new ≡ None)
        × Tells request.old first.old s (ran s (take state.old.count answers.old)) state.new answers.old result
        room.new }
{
    let mut decimals = [0u8; 10];
    let count = if is_of_proc(request) {
        decimal(request.fd, &mut decimals)
    } else {
        0
    };
    let number = digits(&decimals, count);
    if steps.is_none() {
        let came = go(
            alloc, request, state, first, second, read, number, answers, room,
        );
        if let Some(due) = follow(came, state, steps, first, read, answers, room) {
            return due;
        }
    }
    go_on(
        alloc, request, state, steps, first, second, read, number, answers, room,
    )
}

// The call begins, or takes an answer: what is wrong with it, or 0.
#[inline(always)]
fn count_answer(request: &mut Request, state: &mut State) -> u32
    ensures { is_whole request.old.what ≡ true → next_count state.old < 4294967296 → (result ≡ 0)
        × (request.new ≡ request.old) × (state.new ≡ record state.old { begun = true; count = next_count state.old }) }
{
    if !state.begun {
        return begin(request, state);
    }
    state.count = state.count.saturating_add(1);
    0
}

#[inline(always)]
fn take(
    alloc: Global,
    request: &mut Request,
    state: &mut State,
    steps: &mut Option<Box<Steps>>,
    first: &mut [u8],
    second: &[u8],
    read: &mut [u8],
    answers: &mut [Answer],
    room: &mut [u8],
) -> Due
    ensures { steps.old ≡ None → IsPlain request.old → HasRoom state.old answers.old → state.old.opens ≡ false
        → IsKept state.old
        → (state.old.looked ≡ true → IsLooked (inner request.old) (whole_at request.old first.old false))
        → (s : CallDialogue) → IsWhole request.old first.old second.now s
        → is_told (ran s (told state.old answers.old)) ≡ true
        → (request.new ≡ request.old) × (steps.new ≡ None) × ((st : State) → st ≡ record state.new { by_steps = false }
        → Turned request.old first.old s (ran s (told state.old answers.old)) (next_count state.old) st answers.old
        result room.new) }
{
    let fault = count_answer(request, state);
    if fault != 0 {
        return end_of(&refused(fault), room);
    }
    let due = next_due(
        alloc, request, state, steps, first, second, read, answers, room,
    );
    if (state.count as usize) < answers.len() {
        Due {
            at: state.count,
            ..due
        }
    } else {
        end_of(&refused(EIO), room)
    }
}

// What a call opens by its first look-up is its reply, of most calls: nothing else is looked at again.
#[inline(always)]
fn at_once(state: &State, answers: &[Answer]) -> Option<u32>
    ensures { MatchOption result (Unit {0}) (λ fd. (state.now.opens ≡ true) × (a : Answer)
        × (take 1 answers.now ≡ a ∷ []) × (a.error ≡ 0) × (a.value ≡ fd)) }
{
    if !state.opens {
        return None;
    }
    match answers.first() {
        Some(only) if only.error == 0 => Some(only.value),
        _ => None,
    }
}

// Where the change of an entry fails by no error, the call is over, and its reply is 0.
#[inline(always)]
fn is_changed(state: &State, answers: &[Answer]) -> bool
    ensures { result ≡ true → (state.now.changes ≡ true) × (a : Answer)
        × (take (state.now.count + 1) answers.now ≡ take state.now.count answers.now ++ a ∷ []) × (a.error ≡ 0) }
{
    let at = state.count as usize;
    state.changes && at < answers.len() && answers[at].error == 0
}

/// What is due by the answers so far, of which the last one lies where the last turn said: a system call, whose texts
/// are laid in the room; or the call's end. A slash stands before each text of the request, and what is asked for says
/// how long the first is. READ: what the last system call read lies at its beginning. STATE and REQUEST are left alone
/// between two turns. A call that the kernel walks takes no memory.
pub fn turn(
    alloc: Global,
    request: &mut Request,
    state: &mut State,
    first: &mut [u8],
    second: &[u8],
    read: &mut [u8],
    answers: &mut [Answer],
    due: &mut Due,
    room: &mut [u8],
)
    requires { state.old.by_steps ≡ true → IsSome state.old.steps.held }
    ensures held { state.new.by_steps ≡ true → IsSome state.new.steps.held }
    ensures whole { IsPlain request.old → HasRoom state.old answers.old → IsKept state.old → (s : CallDialogue)
        → IsWhole request.old first.old second.now s → Stands request.old first.old s state.old answers.old
        → is_told (ran s (told state.old answers.old)) ≡ true
        → (request.new ≡ request.old) × Turned request.old first.old s (ran s (told state.old answers.old))
        (next_count state.old) state.new answers.old due.new room.new }
{
    if let Some(fd) = at_once(state, answers) {
        *due = end_of(&value(fd), room);
        return;
    }
    if is_changed(state, answers) {
        *due = end_and_close(value(0), &state.closes, room);
        return;
    }
    if !state.begun {
        if request.what == OPEN_AT {
            state.opening = open_at::opening(request);
            state.course = open_at::first(request, &state.opening);
        }
        if let Some(first_due) = look_up_first(request, &state.opening, first, second, room) {
            state.begun = true;
            state.looked = true;
            state.opens = is_reply(request, state);
            *due = Due { at: 0, ..first_due };
            return;
        }
    }
    state.opens = false;
    state.changes = false;
    let mut steps = if state.by_steps {
        Some(mem::replace(&mut state.steps, Kept::empty(alloc)).into_box())
    } else {
        None
    };
    *due = take(
        alloc, request, state, &mut steps, first, second, read, answers, room,
    );
    match steps {
        Some(under_way) => {
            state.steps = Kept::of_box(under_way);
            state.by_steps = true;
        }
        None => state.by_steps = false,
    }
}
