//! What is left of one table of slots after a closure returned a number for each value.
ghost use Rattle.std.specs.Prelude.{◌≡◌, ℕ, ◌<◌, ◌≤◌, ◌^◌, true, Some, drop, length, slice_set};
ghost use Rattle.hashbag_slots.specs.Slots.{is_live, slot_at, slot_entry, count_in, entries};
ghost use Rattle.hashbag_slots.specs.Columns.{IsReached};
ghost use Rattle.hashbag_table.specs.Returned.{MayCall, MayCallInTurn};
ghost use Rattle.hashbag_table.specs.Entries.{total};
ghost use Rattle.hashbag_table.specs.Retained.{LeavesSlot, RetainsFrom};

use hashbag_slots::slots::Slots;

// Calls `f` once for the value at a place, and lowers its count as [`retain_slots`] does. The slot must be Live. Returns the count that is left.
#[inline(always)]
fn retain_at<T: Eq + Drop, F: FnMut(&T, usize) -> usize>(
    slots: &mut Slots<T>,
    place: usize,
    f: &mut F,
) -> usize
    requires live { is_live (slot_at slots.old.slots place) ≡ true }
    requires callable { (e : T × ℕ) → slot_entry (slot_at slots.old.slots place) ≡ Some e → MayCall F.FnMut f.old e }
    ensures called { LeavesSlot F.FnMut f.old (slot_at slots.old.slots place) (slot_at slots.new.slots place) f.new }
    ensures others { slots.new.slots ≡ slice_set slots.old.slots place (slot_at slots.new.slots place) }
    ensures left { result ≡ count_in (slot_at slots.new.slots place) }
    ensures reached { (hash : T → ℕ) → IsReached hash slots.old → IsReached hash slots.new }
{
    let (value, count) = slots.live_at(place);
    let left = f(value, count).min(count);
    if left > 0 {
        slots.set_at(place, left);
        return left;
    }
    let (former, _) = slots.take_at(place);
    drop(former);
    0
}

/// Calls `f` once for each value from the place `from` on, with its count, in the order of places. Each count becomes the lesser of the count and
/// what `f` returns. If that is 0 the value is dropped, and its slot becomes Removed. Returns the total of the counts that are left there.
///
/// # Complexity
///
/// It hashes nothing and doesn't allocate. It reads sixteen tags at once. If no slot before `from` is Live, it stops after the last Live
/// slot, since it knows how many there are. In a table without values it reads no tag.
pub fn retain_slots<T: Eq + Drop, F: FnMut(&T, usize) -> usize>(
    slots: &mut Slots<T>,
    from: usize,
    f: &mut F,
) -> usize
    requires within { from ≤ length slots.old.slots }
    requires callable { MayCallInTurn F.FnMut f.old (entries (drop from slots.old.slots)) }
    requires fits { total (entries (drop from slots.old.slots)) < 2 ^ 64 }

    // `f` was called in turn and became `f.new`. The slots from `from` on are what its numbers left; the slots before are unchanged.
    ensures retained { RetainsFrom F.FnMut from f.old slots.old.slots slots.new.slots f.new }
    ensures total { result ≡ total (entries (drop from slots.new.slots)) }

    // If the values were found under a hash before, they are still.
    ensures reached { (hash : T → ℕ) → IsReached hash slots.old → IsReached hash slots.new }
{
    let mut sum = 0;
    let mut at = from;
    let mut live_left = slots.live();
    'values: while live_left > 0 {
        let Some(place) = slots.next_live(at) else {
            return sum;
        };
        sum += retain_at(slots, place, f);
        at = place + 1;
        live_left -= 1;
    }
    sum
}
