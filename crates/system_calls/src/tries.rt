//! When a call is begun again.
ghost use Rattle.std.specs.Prelude.{◌≡◌, ◌≤◌, ◌<◌, true, false};
ghost use Rattle.system_calls.specs.Errors.{EAGAIN};
ghost use Rattle.system_calls.specs.Tries.{is_due, next_try, pause_after, TRIES, PAUSE_MAX};

use crate::errors::EAGAIN;

const TRIES: u32 = 32;

const AT_ONCE: u32 = 8;

const FIRST_PAUSE: u32 = 10_000;

const PAUSE_MAX: u32 = 1_000_000;
// So many times 10 microseconds are doubled to less than a millisecond.
const DOUBLED: u32 = 6;

/// Whether a call is begun again.
#[repr(C)]
#[derive(Clone, Copy, Debug, PartialEq, Eq)]
pub struct NextTry {
    /// Another try is due.
    pub due: bool,
    /// So many nanoseconds are waited before it.
    pub pause: u32,
}

fn is_due(tries: u32, may_retry: bool, error: u32, lost: bool) -> bool
    ensures { result ≡ is_due tries may_retry error lost }
{
    may_retry && error == EAGAIN && !lost && tries < TRIES
}

// The pause after so many tries.
fn pause_after(tries: u32) -> u32
    ensures { result ≡ pause_after tries }
{
    if tries < AT_ONCE {
        0
    } else if tries - AT_ONCE <= DOUBLED {
        FIRST_PAUSE << (tries - AT_ONCE)
    } else {
        PAUSE_MAX
    }
}

/// Whether a call is begun again after so many tries, and after which pause: only where the caller lets it try again,
/// the last try ended by EAGAIN (11), and it has lost nothing: what it made is where it made it. A call makes 32 tries
/// at most. The first eight come one right after another; the ninth after 10 microseconds, and each further one after
/// twice as long, up to a millisecond. Takes no memory.
pub fn next_try(tries: u32, may_retry: bool, error: u32, lost: bool) -> NextTry
    ensures exact { result ≡ next_try tries may_retry error lost }
    ensures only_then { result.due ≡ true → (may_retry ≡ true) × (error ≡ EAGAIN) × (lost ≡ false) × (tries < TRIES) }
    ensures within { result.pause ≤ PAUSE_MAX }
{
    if is_due(tries, may_retry, error, lost) {
        NextTry {
            due: true,
            pause: pause_after(tries),
        }
    } else {
        NextTry {
            due: false,
            pause: 0,
        }
    }
}
