//! Lines that carry a digest of themselves, by which a changed byte is seen.
ghost use Rattle.std.specs.Prelude.{◌≡◌, IfOk, OnOk, MatchResult, string_bytes};
ghost use Rattle.path_text.specs.Name.{same_bytes};
ghost use Rattle.explore_parts.specs.declared.seal.SealFault.TheVariants.{NoMemory as OutOfMemory};
ghost use Rattle.explore_parts.specs.Seal.{sum_of, sealed, IsSealed, WhyNotSealed};

use event_log::Output;
use path_text::NoMemory;
use sha2::{Digest, Sha256};
use std::alloc::Global;
use thiserror::Error;

// What stands before a digest, and behind it.
const BEFORE: &str = ",\"sum\":\"";

const BEHIND: &str = "\"}";

// How many hexadecimal digits a digest has.
const DIGITS: usize = 64;

/// Why a line isn't as it was sealed.
#[derive(Clone, Copy, Debug, PartialEq, Eq, Error)]
pub(crate) enum SealFault {
    /// It ends with no digest.
    #[error("no digest")]
    NoSum,
    /// It ends with another digest than its own.
    #[error("another digest")]
    Spoilt,
    #[error("no memory")]
    NoMemory,
}

impl From<NoMemory> for SealFault {
    ghost from_gives = { λ _ fault. fault ≡ OutOfMemory };

    fn from(_error: NoMemory) -> SealFault {
        SealFault::NoMemory
    }
}

/// The SHA-256 of some bytes in hexadecimal digits. NoMemory where its room was refused.
pub fn sum_of(alloc: Global, bytes: &[u8]) -> Result<String, NoMemory>
    ensures { IfOk result (λ sum. string_bytes sum ≡ sum_of bytes.now) }
{
    match hex::encode(alloc, Sha256::digest(bytes)) {
        Ok(sum) => Ok(sum),
        Err(_) => Err(NoMemory),
    }
}

/// Ends an object of JSON with its digest. NoMemory where its room was refused.
pub(crate) fn seal(alloc: Global, out: &mut Output) -> Result<(), NoMemory>
    ensures { OnOk result (out.new ≡ sealed out.old) }
{
    let sum = sum_of(alloc, out.as_slice())?;
    out.text(BEFORE)?;
    out.text(sum.as_str())?;
    out.text(BEHIND)
}

// Whether the two are the same bytes.
fn are_same(bytes: &[u8], others: &[u8]) -> bool
    ensures { result ≡ same_bytes bytes.now others.now }
{
    bytes == others
}

/// Whether a line is as it was sealed: it ends with its digest. Errors: `NoSum` where it doesn't end with a digest;
/// `Spoilt` where it ends with another one; `NoMemory`.
pub(crate) fn check_seal(alloc: Global, line: &[u8]) -> Result<(), SealFault>
    ensures { MatchResult result (λ _. IsSealed line.now) (WhyNotSealed line.now) }
{
    let Some(long) = line.len().checked_sub(BEFORE.len() + DIGITS + BEHIND.len()) else {
        return Err(SealFault::NoSum);
    };
    let (body, end) = line.split_at(long);
    let (before, rest) = end.split_at(BEFORE.len());
    let (sum, behind) = rest.split_at(DIGITS);
    if !are_same(before, BEFORE.as_bytes()) {
        return Err(SealFault::NoSum);
    }
    if !are_same(behind, BEHIND.as_bytes()) {
        return Err(SealFault::NoSum);
    }
    if are_same(sum_of(alloc, body)?.as_bytes(), sum) {
        Ok(())
    } else {
        Err(SealFault::Spoilt)
    }
}
