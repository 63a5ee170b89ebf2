//! What a walk is to reach.
ghost use Rattle.std.specs.Prelude.{◌≡◌};

/// What a walk is to reach, and whether it follows a link at the very last part of the caller's path.
#[derive(Clone, Copy, Debug, PartialEq, Eq)]
pub enum Goal {
    /// The object that the whole path means. A link at its last part is followed.
    Follow,
    /// The same, but a link at its last part is itself the object (O_PATH with O_NOFOLLOW of open(2)).
    NoFollow,
    /// The deepest directory on the way that is there. A link at the last part is followed.
    Deepest,
}

impl Goal {
    ghost use Rattle.walk_plan.specs.Plan.{follows};

    /// Whether a link at the very last part of the caller's path is followed.
    pub fn follows_last_link(self) -> bool
        ensures { result ≡ follows self }
    {
        match self {
            Goal::Follow | Goal::Deepest => true,
            Goal::NoFollow => false,
        }
    }
}
