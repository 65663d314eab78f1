//! Numbers of slots, and tables of slots that hold nothing.
ghost use Rattle.std.specs.Prelude.{◌≡◌, ℕ, ◌*◌, ◌<◌, ◌≤◌, ◌^◌, [], length, nat_le, replicate, IfOk, IsErr};
ghost use Rattle.hashbag_slots.specs.Slots.{IsSlotCount};
ghost use Rattle.hashbag_slots.specs.Columns.{IsReached};
ghost use Rattle.hashbag_table.specs.Tables.{most_used, grown_slots, IsLeast, NoneMoved};

use hashbag_slots::slots::{Slot, Slots};
use std::alloc::{AllocError, Global};

/// The number of slots of the first table that a growth makes.
pub const FIRST_SLOTS: usize = 16;

/// The greatest number of slots of a table, 2^59.
pub const MOST_SLOTS: usize = 1 << 59;

/// Returns a table without slots. It doesn't allocate.
pub fn no_slots<T: Eq + Drop>(alloc: Global) -> Slots<T>
    ensures slots { result.slots ≡ [] }

    // The values are found under any hash, since there are none.
    ensures reached { (hash : T → ℕ) → IsReached hash result }
{
    match Slots::with_slots(alloc, 0) {
        Ok(slots) => slots,
        Err(_) => unreachable!(),
    }
}

/// Drops all values, and makes each slot Empty. It does nothing if all slots are Empty.
pub fn clear_slots<T: Eq + Drop>(slots: &mut Slots<T>)
    requires unmoved { NoneMoved slots.old.slots }
    ensures slots { slots.new.slots ≡ replicate (length slots.old.slots) Slot.Empty }

    // The values are found under any hash, since there are none.
    ensures reached { (hash : T → ℕ) → IsReached hash slots.new }
{
    if slots.live() > 0 || slots.removed() > 0 {
        slots.clear();
    }
}

/// Returns how many of `slots` slots may be Live or Removed: three quarters.
#[inline(always)]
pub fn most_used(slots: usize) -> usize
    requires { slots ≤ 2 ^ 59 }
    ensures { result ≡ most_used slots }
{
    3 * slots / 4
}

// Returns whether at most three eighths of `slots` slots are Live. A new table with as many slots then has room for at least `live` more values.
fn is_sparse(slots: usize, live: usize) -> bool
    requires count { slots ≤ 2 ^ 59 }
    requires live { live ≤ slots }
    ensures { result ≡ nat_le (8 * live) (3 * slots) }
{
    8 * live <= 3 * slots
}

/// Returns how many slots a growth makes, if the table has `slots` slots and `live` values: 16 if `slots` is 0, `slots` if at most three eighths of
/// them are Live, else `2 * slots`.
///
/// # Errors
///
/// `AllocError` if that is more than 2^59.
pub fn grown_slots(slots: usize, live: usize) -> Result<usize, AllocError>
    requires count { IsSlotCount slots }
    requires live { live ≤ slots }
    ensures grown { IfOk result (λ n. n ≡ grown_slots slots live) }

    // The number is 0, or a power of two from 16 to 2^59.
    ensures slots { IfOk result (λ n. IsSlotCount n) }
    ensures past_most { IsErr result → 2 ^ 59 < grown_slots slots live }
{
    if slots == 0 {
        return Ok(FIRST_SLOTS);
    }
    if is_sparse(slots, live) {
        return Ok(slots);
    }
    if slots >= MOST_SLOTS {
        return Err(AllocError);
    }
    Ok(2 * slots)
}

/// Returns the least number of slots, not below `from`, of which `values` may be Live.
///
/// # Errors
///
/// `AllocError` if that is more than 2^59.
pub fn least_slots(from: usize, values: usize) -> Result<usize, AllocError>
    requires count { IsSlotCount from }
    ensures least { IfOk result (λ n. IsLeast from values n) }

    // It fails only if even 2^59 slots aren't enough.
    ensures past_most { IsErr result → most_used (2 ^ 59) < values }
{
    let mut slots = from;
    'slots: while most_used(slots) < values {
        if slots >= MOST_SLOTS {
            return Err(AllocError);
        }
        slots = if slots == 0 { FIRST_SLOTS } else { 2 * slots };
    }
    Ok(slots)
}
