//! Tags of slots, a byte each: what a probe reads of a slot before it reads its cell.
//!
//! | Tag | Slot |
//! |---|---|
//! | 0 | Empty |
//! | 1 | Removed |
//! | 2 | Moved |
//! | 128 plus the top 7 bits of the hash: its fingerprint | Live |
ghost use Rattle.std.specs.Prelude.{◌≡◌, ◌≤◌, ◌++◌, length, take, drop, IfOk, IsOk, replicate};
ghost use Rattle.hashbag_slots.specs.Slots.{IsSlotCount};
ghost use Rattle.hashbag_slots.specs.Columns.{fingerprint_of, IsGuarded};

use std::alloc::{AllocError, Global};

/// The tag of an Empty slot.
pub const EMPTY: u8 = 0;

/// The tag of a Removed slot.
pub const REMOVED: u8 = 1;

/// The tag of a Moved slot.
pub const MOVED: u8 = 2;

/// How many tags of no slot, all `MOVED`, come after the tags of the slots. So sixteen tags can be read from each slot on.
pub const GUARDS: usize = 16;

/// The least tag of a Live slot.
pub const LEAST_LIVE: u8 = 128;

/// Returns the tag of a Live slot whose value has this hash: 128 plus the top 7 bits of the hash. The place is chosen by lower bits.
#[inline(always)]
pub fn fingerprint_of(hash: u64) -> u8
    ensures fingerprint { result ≡ fingerprint_of hash }
    ensures least { 128 ≤ result }
{
    (hash >> 57) as u8 + LEAST_LIVE
}

/// Returns the tags of `slots` Empty slots, and the guards after them.
///
/// # Errors
///
/// `AllocError` if the allocation fails. With `slots` 0 it can't fail.
pub fn empty_tags(alloc: Global, slots: usize) -> Result<Vec<u8>, AllocError>
    requires { IsSlotCount slots }
    ensures tags { IfOk result (λ v. take slots v.items ≡ replicate slots 0) }
    ensures guarded { IfOk result (λ v. IsGuarded slots v.items) }
    ensures none { slots ≡ 0 → IsOk result }
{
    if slots == 0 {
        return Vec::with_capacity(alloc, 0);
    }
    let mut tags = Vec::with_capacity(alloc, slots + GUARDS)?;
    tags.resize(slots, EMPTY)?;
    tags.resize(slots + GUARDS, MOVED)?;
    Ok(tags)
}

/// Makes each of the first `slots` tags Empty.
pub fn make_all_empty(tags: &mut [u8], slots: usize)
    requires { slots ≤ length tags.old }
    ensures { tags.new ≡ replicate slots 0 ++ drop slots tags.old }
{
    tags[..slots].fill(EMPTY);
}
