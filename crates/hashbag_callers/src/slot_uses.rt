//! A caller that speaks of the slots behind a bag, in words that `hashbag` re-exports.
ghost use Rattle.std.specs.Prelude.{◌≡◌, ◌+◌, ℕ, length};
ghost use Rattle.hashbag.specs.Growths.{GrowAsListed};
ghost use Rattle.hashbag.specs.Slots.{IsSlotCount, live_count, slot_at};
ghost use Rattle.hashbag.specs.SlotWords.{Slot};
ghost use Rattle.hashbag_callers.specs.Bags.{IsDeadAt};

use hashbag::HashBag;
use std::hash::{BuildHasher, Hash};

/// Keeps one of each value, and returns how many values there are: one in each Live slot of the two tables. A slot of the newer table that
/// isn't Live is unchanged, so no value moves into it.
pub fn keep_one_of_each<T: Eq + Hash + Drop, S: BuildHasher + Drop>(
    bag: &mut HashBag<T, S>,
) -> usize
    // The number of slots is 0, or a power of two from 16 to 2^59.
    ensures count { IsSlotCount (length bag.new.tables.newer) }
    ensures live { result ≡ live_count bag.new.tables.newer + live_count bag.new.tables.waiting }
    ensures not_live { (p : ℕ) (s : Slot T) → IsDeadAt bag.old.tables.newer p s → slot_at bag.new.tables.newer p ≡ s }
{
    bag.retain(|_value: &T, _count: usize| 1);
    let _slots = bag.slots();
    bag.set_len()
}

/// This function does nothing; its clause is a law: the number of slots after each growth during an extend follows from the list before that growth.
pub fn grow_as_listed<T: Eq, S>()
    ensures { GrowAsListed S T.eq }
{}
