//! Flags, by their numbers in inroot.h, <fcntl.h> and <linux/openat2.h>.
ghost use Rattle.std.specs.Prelude.{◌≡◌, if◌then◌else◌};
ghost use Rattle.kernel_calls.specs.Flags.{has, resolve_of};

pub const O_CLOEXEC: u32 = 0o2000000;

pub const O_PATH: u32 = 0o10000000;

pub const BENEATH: u32 = 1;

pub const NO_LINKS: u32 = 2;

pub const NO_XDEV: u32 = 128;

pub const RESOLVE_NO_XDEV: u32 = 0x01;

pub const RESOLVE_NO_MAGICLINKS: u32 = 0x02;

pub const RESOLVE_NO_SYMLINKS: u32 = 0x04;

pub const RESOLVE_BENEATH: u32 = 0x08;

const RESOLVE_IN_ROOT: u32 = 0x10;

/// Whether one of these flags is there.
#[inline(always)]
pub fn has(flags: u32, flag: u32) -> bool
    ensures { result ≡ has flags flag }
{
    flags & flag != 0
}

/// These bits, if that holds.
#[inline(always)]
pub fn bit(holds: bool, bits: u32) -> u32
    ensures { result ≡ (if holds then bits else 0) }
{
    if holds { bits } else { 0 }
}

#[inline(always)]
pub(crate) fn resolve_of(flags: u32) -> u32
    ensures { result ≡ resolve_of flags }
{
    let below = if has(flags, BENEATH) {
        RESOLVE_BENEATH
    } else {
        RESOLVE_IN_ROOT
    };
    RESOLVE_NO_MAGICLINKS
        | below
        | bit(has(flags, NO_LINKS), RESOLVE_NO_SYMLINKS)
        | bit(has(flags, NO_XDEV), RESOLVE_NO_XDEV)
}
