//! Sixteen tags at once.
ghost use Rattle.std.specs.Prelude.{◌≡◌, ◌==◌, ◌+◌, ◌<◌, ◌≤◌, ◌^◌, ◌&&◌, true, false, if◌then◌else◌, length, nat_lt, nat_le};
ghost use Rattle.std.specs.Int.{w64, trailing_zeros};
ghost use Rattle.std.specs.Slice.Scan.{IsFirstPlace};
ghost use Rattle.hashbag_slots.specs.Columns.{tag_at};
ghost use Rattle.hashbag_slots.specs.Group.{IsMaskOf, IsTagMask, IsTagMaskBeforeEmpty, IsLowestOf, IsWithinMask, IsRestAfter};

use crate::tags::{EMPTY, LEAST_LIVE};
use std::simd::prelude::*;

/// How many tags are read at once.
pub const GROUP_WIDTH: usize = 16;

// Returns the number of the lowest of 16 bits that is set, 16 if none is.
#[inline(always)]
fn first_set(bits: u64) -> usize
    ensures { result ≡ (if bits == 0 then 16 else trailing_zeros w64 bits) }
{
    if bits == 0 {
        GROUP_WIDTH
    } else {
        bits.trailing_zeros() as usize
    }
}

/// Returns how many of the 16 tags from the place `from` on come before the first that is `tag`, 16 if none is `tag`.
#[inline(always)]
pub fn first_equal(tags: &[u8], from: usize, tag: u8) -> usize
    requires { from + 16 ≤ length tags.now }

    // `from + result` is the first of these places whose tag is `tag`, or `from + 16` if there is none.
    ensures first { IsFirstPlace (λ p. tag_at tags.now p == tag) from (from + 16) (from + result) }
{
    let equal = u8x16::from_slice(&tags[from..]).simd_eq(u8x16::splat(tag));
    first_set(equal.to_bitmask())
}

/// Returns how many of the 16 slots from the place `from` on come before the first Live one, 16 if none is Live.
#[inline(always)]
pub fn first_live(tags: &[u8], from: usize) -> usize
    requires { from + 16 ≤ length tags.now }

    // A slot is Live if its tag is 128 or more.
    ensures first { IsFirstPlace (λ p. nat_le 128 (tag_at tags.now p)) from (from + 16) (from + result) }
{
    let live = u8x16::from_slice(&tags[from..]).simd_ge(u8x16::splat(LEAST_LIVE));
    first_set(live.to_bitmask())
}

/// Returns how many of the 16 slots from the place `from` on come before the first that is not Live, 16 if all are Live.
#[inline(always)]
pub fn first_not_live(tags: &[u8], from: usize) -> usize
    requires { from + 16 ≤ length tags.now }

    // A slot is Live if its tag is 128 or more.
    ensures first { IsFirstPlace (λ p. nat_lt (tag_at tags.now p) 128) from (from + 16) (from + result) }
{
    let free = u8x16::from_slice(&tags[from..]).simd_lt(u8x16::splat(LEAST_LIVE));
    first_set(free.to_bitmask())
}

/// Returns a mask of the 16 tags from the place `from` on: bit i is set if the tag at `from + i` is `tag`.
#[inline(always)]
pub fn match_tag(tags: &[u8], from: usize, tag: u8) -> u64
    requires { from + 16 ≤ length tags.now }
    ensures { IsTagMask tags.now tag from (from + 16) result }
{
    let equal = u8x16::from_slice(&tags[from..]).simd_eq(u8x16::splat(tag));
    equal.to_bitmask()
}

/// Returns a mask of the 16 slots from the place `from` on: bit i is set if the slot at `from + i` is Live.
#[inline(always)]
pub fn match_live(tags: &[u8], from: usize) -> u64
    requires { from + 16 ≤ length tags.now }

    // A slot is Live if its tag is 128 or more.
    ensures { IsMaskOf (λ p. nat_le 128 (tag_at tags.now p)) from (from + 16) result }
{
    let live = u8x16::from_slice(&tags[from..]).simd_ge(u8x16::splat(LEAST_LIVE));
    live.to_bitmask()
}

/// Returns the place of the lowest set bit. Bit i is of the place `from + i`.
#[inline(always)]
pub fn lowest(bits: u64, from: usize) -> usize
    requires positive { 0 < bits }
    requires fits { from + 64 ≤ 2 ^ 64 }

    // If the bits are a mask of a test, the result is the first place that passes the test, and it is before the end of the mask.
    ensures first { IsLowestOf from bits result }
    ensures before_until { IsWithinMask from bits result }
{
    from + bits.trailing_zeros() as usize
}

/// Returns the place of the lowest set bit, and the bits without it. Bit i is of the place `from + i`.
///
/// If the bits are a mask of a test, the returned place is the first that passes the test. The returned bits are the mask of the test at the places
/// after that place.
#[inline(always)]
pub fn take_lowest(bits: u64, from: usize) -> (usize, u64)
    requires positive { 0 < bits }
    requires fits { from + 64 ≤ 2 ^ 64 }
    ensures first { IsLowestOf from bits result.0 }
    ensures before_until { IsWithinMask from bits result.0 }
    ensures rest { IsRestAfter from bits result.0 result.1 }
    ensures fewer { result.1 < bits }
{
    (from + bits.trailing_zeros() as usize, bits & (bits - 1))
}

/// Returns a mask of the 16 tags from the place `from` on, and whether one of the 16 is Empty. Bit i is set if the tag at `from + i` is `tag`, and no
/// tag from `from` to there is Empty.
#[inline(always)]
pub fn match_tag_before_empty(tags: &[u8], from: usize, tag: u8) -> (u64, bool)
    requires room { from + 16 ≤ length tags.now }
    requires other { 0 < tag }
    ensures { IsTagMaskBeforeEmpty tags.now tag from result.0 result.1 }
{
    let empty = match_tag(tags, from, EMPTY);
    let equal = match_tag(tags, from, tag);
    // Subtracting 1 sets the bits below the first Empty tag and clears its own. The bits set above it are of other Empty tags, which aren't
    // `tag`, so `equal` has none of them. Without an Empty tag all bits are set.
    (equal & empty.wrapping_sub(1), empty != 0)
}
