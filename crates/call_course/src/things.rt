//! The things that a call is made of, as questions, and what each gave.
ghost use Rattle.std.specs.Prelude.{◌≡◌};
ghost use Rattle.dialogue.specs.Dialogue.{ran};
ghost use Rattle.call_course.specs.Course.{came_to, doing};

/// A thing that is asked for.
#[derive(Clone, Copy, Debug, PartialEq, Eq)]
pub enum Thing {
    /// A try begins, after a pause of so many nanoseconds: nothing is known of it.
    Begin(u32),
    /// The place of the object is asked for, which is the call's reply.
    Place,
    /// The proved call is driven to its reply.
    Converse,
    /// What it opened is taken out of its handle.
    Take,
    /// All that a try holds beside is closed.
    LetGo,
    /// This descriptor is closed.
    Close(u32),
    /// It is looked at whether the number of /proc is another file's by now.
    LookAtProc,
    /// Another /proc is opened, and the try begins anew by it.
    AnotherProc,
    /// The /proc that is the call's own is closed.
    CloseProc,
    /// The root is looked at: fstat(2).
    LookAtRoot,
}

/// What is known of a call before its first try.
#[derive(Clone, Copy, Debug, PartialEq, Eq)]
pub struct Facts {
    /// 0; or it has failed by this error, which comes behind those of its root.
    pub error: u32,
    /// It asks for the place of an object, and walks nothing.
    pub places: bool,
    /// It makes an entry, and gives a descriptor of it.
    pub gives: bool,
    /// What it makes, another try finds: it makes all missing directories of a path.
    pub finds_again: bool,
    /// Where others are in its way, another try may be made.
    pub may_retry: bool,
}

/// What a thing gave. What isn't said to count isn't looked at.
#[derive(Clone, Copy, Debug, Default, PartialEq, Eq)]
pub struct Answer {
    /// Of Take without an error, the descriptor. Of Converse a count. Of LookAtRoot the kind
    /// (`system_calls::kind_of`).
    pub value: u64,
    /// How long a text is: of Converse, and of Place.
    pub length: u64,
    /// 0, or the number of an error (errno(3)). Of LookAtProc any number but 0 says that it is another file's by now.
    pub error: u32,
    /// Of Converse: 0, or the kernel's error for which a step wasn't made.
    pub unmade: u32,
    /// Of Converse: 0, or why what it made could not be opened.
    pub unopened: u32,
    /// Of Converse: the descriptor of what it made, its number and one; or 0.
    pub made: u32,
    /// Of Converse: which reply it is. 32 opened, 33 a text, 34 done, 35 a count, and any other an error.
    pub reply: u8,
    /// Of a try's things: a step was made.
    pub stepped: bool,
    /// An entry was made, removed or renamed.
    pub changed: bool,
    /// A /proc is in use.
    pub has_proc: bool,
    /// It is the call's own, also after AnotherProc.
    pub owns_proc: bool,
}

/// What came of the answers; or the thing that is due.
pub type Asked<T> = Result<T, Thing>;

/// Takes the next answer; or the thing is due, since it wasn't done yet.
#[tactic(auto, unfolding(dialogue::specs::Dialogue::ran, dialogue::specs::Dialogue::asking))]
pub fn ask(answers: &mut &[Answer], thing: Thing) -> Asked<Answer>
    ensures { came_to result answers.new.now ≡ ran (doing thing) answers.old.now }
{
    match answers.split_first() {
        Some((answer, rest)) => {
            *answers = rest;
            Ok(*answer)
        }
        None => Err(thing),
    }
}
