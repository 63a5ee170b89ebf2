//! Which descriptor a call hands out of a handle, and what becomes of the handle's own.
ghost use Rattle.std.specs.Prelude.{◌≡◌};
ghost use Rattle.call_course.specs.Taking.{taken};

use system_calls::errors::ENOMEM;

/// What is done as a call hands out what a handle is on.
#[repr(C)]
#[derive(Clone, Copy, Debug, PartialEq, Eq)]
pub struct Taking {
    /// 0; or the number of the error by which there is nothing to be handed out (errno(3)).
    pub error: u32,
    /// The directory is opened anew: what that gives is handed out. Else it is the handle's own descriptor.
    pub anew: bool,
}

/// What is done with a handle as a call hands out what it is on. The handle's descriptor is `held` unless it was let
/// go. It is `shared` where it is the caller's own, which is never handed out. Takes no memory.
///
/// Errors: ENOMEM (12) of a descriptor that was let go.
pub fn take(shared: bool, held: bool) -> Taking
    ensures { result ≡ taken shared held }
{
    Taking {
        error: if shared || held { 0 } else { ENOMEM },
        anew: shared,
    }
}
