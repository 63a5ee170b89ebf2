//! What a worker was told.
ghost use Rattle.std.specs.Prelude.{◌≡◌, []};

use path_text::NoMemory;
use root_ops::Reply;
use std::alloc::Global;
use std::marker::Model;

/// A reply, with the number of its job.
#[derive(Debug, Drop)]
pub struct Numbered {
    pub job: usize,
    pub reply: Reply,
}

/// The replies to one worker's session, in the order in which they came. Contracts see them as their list.
#[derive(Debug, Drop)]
pub struct Told {
    pub(crate) replies: Vec<Numbered>,
}

impl Model for Told {
    ghost use Rattle.std.specs.Prelude.{List};
    ghost use Rattle.workers.specs.declared.told.Numbered.{Numbered};

    ghost Value = { List Numbered };

    ghost view = { λ t. t.replies.items };
}

impl Told {
    /// The replies, to be looked at.
    pub fn as_slice(&self) -> &[Numbered]
        ensures { result.now ≡ self.now }
    {
        self.replies.as_slice()
    }

    /// The replies, to be taken apart: each Standing in them is still open, and its session can release it.
    pub fn into_replies(self) -> Vec<Numbered>
        ensures { result.items ≡ self }
    {
        self.replies
    }
}

/// Room for so many replies, with none yet.
#[derive(Debug, Drop)]
pub struct Sheet {
    pub replies: Vec<Numbered>,
    ghost blank: { replies.items ≡ [] },
}

impl Sheet {
    /// NoMemory where the room was refused.
    pub fn new(alloc: Global, replies: usize) -> Result<Sheet, NoMemory> {
        Ok(Sheet {
            replies: Vec::with_capacity(alloc, replies)?,
        })
    }
}
