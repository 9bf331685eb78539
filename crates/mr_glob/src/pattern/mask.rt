// Which of 64 bytes in a row pass a test, as a mask with a bit for each.
ghost use Rattle.std.specs.Prelude.{◌≡◌, ◌≢◌, ◌==◌, ℕ, ◌<◌, nat_le, false};
ghost use Rattle.mr_glob.specs.Glob.{in_range};
ghost use Rattle.mr_glob.specs.GlobPlaces.{IsFrontOf, Marks, is_set};

use std::simd::prelude::*;

/// How many bytes are tested at once: as many as a mask has bits.
pub(super) const WINDOW: usize = 64;

/// The bytes that the text begins with, and zeroes behind a shorter text.
#[inline(always)]
pub(super) fn front(text: &[u8]) -> u8x64
    ensures { IsFrontOf result text.now }
{
    if text.len() >= WINDOW {
        return u8x64::from_slice(text);
    }
    let mut bytes = [0; WINDOW];
    bytes[..text.len()].copy_from_slice(text);
    u8x64::from_array(bytes)
}

/// The bytes that are this one.
#[inline(always)]
pub(super) fn equal_to(bytes: u8x64, byte: u8) -> u64
    ensures { Marks (λ b. b == byte) bytes result }
{
    bytes.simd_eq(u8x64::splat(byte)).to_bitmask()
}

/// The bytes that are no less.
#[inline(always)]
fn at_least(bytes: u8x64, least: u8) -> u64
    ensures { Marks (λ b. nat_le least b) bytes result }
{
    bytes.simd_ge(u8x64::splat(least)).to_bitmask()
}

/// The bytes that are no greater.
#[inline(always)]
fn at_most(bytes: u8x64, most: u8) -> u64
    ensures { Marks (λ b. nat_le b most) bytes result }
{
    bytes.simd_le(u8x64::splat(most)).to_bitmask()
}

/// The bytes that lie between the two ends of a range, whichever comes first.
#[inline(always)]
pub(super) fn between(bytes: u8x64, first: u8, last: u8) -> u64
    ensures { Marks (λ b. in_range b (first, last)) bytes result }
{
    at_least(bytes, first.min(last)) & at_most(bytes, first.max(last))
}

/// The lowest place whose bit is set.
#[inline(always)]
pub(super) fn lowest(mask: u64) -> usize
    requires { mask ≢ 0 }
    ensures set { result < 64 }
    ensures below { (k : ℕ) → k < result → is_set mask k ≡ false }
{
    mask.trailing_zeros() as usize
}
