//! A proved call under way: the step that is due, or its reply.
use crate::by_steps::slots::ROOT;
use crate::steps::parts_of;
use handles::Owner;
use path_text::{Errno, Flags};
use root_ops::{Call, CallTurn, Op, Reply, Request};
use std::alloc::Global;
use step_resolver::Root;
use tree_model::{Actor, Answer, HandleNo, LentStep};

/// A call that goes on, or the reply of one. A call lies where it is kept, and most turns move nothing. To drop a call
/// frees its memory, and leaves the handles as they are.
#[derive(Debug)]
pub(crate) struct Talk {
    alloc: Global,
    call: Option<Call>,
    // What the call came to, if it doesn't go on.
    reply: Reply,
}

// Makes each Close that is due for nobody, and says of every other step that there was no memory for it.
fn give_up(alloc: Global, call: Call) {
    let mut turn = CallTurn::More(call);
    loop {
        match turn {
            CallTurn::More(call) => turn = call.take(alloc, Answer::Refused(Errno::NoMemory)),
            CallTurn::Done(_reply) => return,
        }
    }
}

impl Drop for Talk {
    fn drop(self) {
        let Talk {
            alloc,
            call,
            reply: _,
        } = self;
        match call {
            Some(call) => give_up(alloc, call),
            None => {}
        }
    }
}

impl Talk {
    /// No call goes on: it failed by this error.
    pub(crate) fn failed(alloc: Global, error: Errno) -> Talk {
        Talk {
            alloc,
            call: None,
            reply: Reply::Fault(error),
        }
    }

    fn at(alloc: Global, turn: CallTurn) -> Talk {
        match turn {
            CallTurn::More(call) => Talk {
                alloc,
                call: Some(call),
                reply: Reply::Done,
            },
            CallTurn::Done(reply) => Talk {
                alloc,
                call: None,
                reply,
            },
        }
    }

    /// Begins a call.
    pub(crate) fn begin(alloc: Global, op: Op, flags: Flags) -> Talk {
        let owner = Owner {
            tag: 0,
            actor: Actor::new(0),
        };
        let handle = HandleNo::new(ROOT);
        let turn = Call::start(alloc, Request { op, flags }, Root { owner, handle });
        Talk::at(alloc, turn)
    }

    /// Answers the step that is due.
    pub(crate) fn take(&mut self, answer: Answer) {
        let passes = match self.call.as_mut() {
            Some(call) => call.pass(&answer),
            None => true,
        };
        if !passes {
            self.turn(answer);
        }
    }

    // The turn by which the call is moved. Apart from `take`, so that a turn that passes makes no room for it.
    #[inline(never)]
    fn turn(&mut self, answer: Answer) {
        let alloc = self.alloc;
        if let Some(call) = self.call.take() {
            *self = Talk::at(alloc, call.take(alloc, answer));
        }
    }

    /// The step that is due; none, if the call has replied.
    pub(crate) fn step(&self) -> Option<LentStep<'_>> {
        match &self.call {
            Some(call) => Some(call.due()),
            None => None,
        }
    }

    /// The reply, if no step is due.
    pub(crate) fn reply(&self) -> &Reply {
        &self.reply
    }

    /// The handle that the step is about, or that the reply hands over; or 0, which is none.
    pub(crate) fn handle(&self) -> u64 {
        match (self.step(), &self.reply) {
            (Some(step), _) => parts_of(&step).1.number(),
            (None, Reply::Opened(standing)) => standing.handle().number(),
            _ => 0,
        }
    }
}
