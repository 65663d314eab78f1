//! Callers that read the plain facts out of the records that a bag's clauses name. None of them has a proof of its own.
ghost use Rattle.std.specs.Prelude.{◌≡◌, ◌+◌, ◌-◌, ◌<◌, ◌≤◌, length, IsOk, IfOk, OnOk, OnErr};
ghost use Rattle.hashbag.specs.Bag.{IsBagOf, IsPresent};
ghost use Rattle.hashbag.specs.Occurrences.{count, less};
ghost use Rattle.hashbag.specs.Tables.{room};
ghost use Rattle.hashbag_callers.specs.Bags.{KeepsSlots};
ghost use Rattle.hashbag_callers.specs.Transfers.{LowersCount};

use hashbag::{BagError, HashBag};
use std::hash::{BuildHasher, Hash};

/// Removes `n` occurrences of a value, and returns the count after. Each fact of `HasFewer` is a clause.
pub fn take_some<T: Eq + Hash + Drop, S: BuildHasher + Drop>(
    bag: &mut HashBag<T, S>,
    value: &T,
    n: usize,
) -> usize
    // The bag means its list without `n` of the value, or without all if there were fewer. The limit and the hash state are the same.
    ensures removed { IsBagOf T.eq bag.old (less T.eq value.now n bag.old.items) bag.new }

    // If the value was present, only its slot changed: its count is less by `n`, or the slot is Removed if none is left.
    ensures slot { 0 < count T.eq value.now bag.old.items → LowersCount T.eq value.now n bag.old bag.new }
    ensures none { count T.eq value.now bag.old.items ≡ 0 → bag.new ≡ bag.old }
    ensures slots { KeepsSlots bag.old.tables bag.new.tables }
    ensures room { room bag.old.tables ≤ room bag.new.tables }
    ensures built { bag.new.tables.built ≡ bag.old.tables.built }
{
    bag.remove_up_to(value, n)
}

/// Inserts a value, and returns the count before. Each fact of `Inserts` about slots and about room is a clause.
pub fn put_in<T: Eq + Hash + Drop, S: BuildHasher + Drop>(
    bag: &mut HashBag<T, S>,
    value: T,
) -> Result<usize, BagError>
    // With room, the number of slots is the same, and room is at most 1 less. If the value was present, the number is the same, and room isn't less.
    ensures slots { OnOk result (0 < room bag.old.tables → KeepsSlots bag.old.tables bag.new.tables) }
    ensures room { OnOk result (0 < room bag.old.tables → room bag.old.tables ≤ room bag.new.tables + 1) }
    ensures same_slots { OnOk result (IsPresent T.eq value bag.old → KeepsSlots bag.old.tables bag.new.tables) }
    ensures same_room { OnOk result (IsPresent T.eq value bag.old → room bag.old.tables ≤ room bag.new.tables) }
{
    bag.insert(value)
}

/// Inserts a value, and returns the count before. The clauses say when this fails, and with which error.
pub fn insert_plainly<T: Eq + Hash + Drop, S: BuildHasher + Drop>(
    bag: &mut HashBag<T, S>,
    value: T,
) -> Result<usize, BagError>
    ensures passes { bag.old.most < length bag.old.items + 1 → result ≡ Err BagError.TooMany }
    ensures memory_if_within { length bag.old.items + 1 ≤ bag.old.most → OnErr result (result ≡ Err BagError.Memory) }
    ensures err { OnErr result (bag.new ≡ bag.old) }
    ensures takes { length bag.old.items + 1 ≤ bag.old.most → 0 < room bag.old.tables → IsOk result }
    ensures present { length bag.old.items + 1 ≤ bag.old.most → 0 < count T.eq value bag.old.items → IsOk result }
{
    bag.insert(value)
}

/// Stores a value in the place of its equals, and returns the count before. Each fact of `KeepsRoom` is a clause.
pub fn put_in_place<T: Eq + Hash + Drop, S: BuildHasher + Drop>(
    bag: &mut HashBag<T, S>,
    value: T,
) -> Result<usize, BagError>
    // With room, the number of slots is the same, and room is at most 1 less. If the value was present, the number is the same, and room isn't less.
    ensures slots { OnOk result (0 < room bag.old.tables → KeepsSlots bag.old.tables bag.new.tables) }
    ensures room { OnOk result (0 < room bag.old.tables → room bag.old.tables ≤ room bag.new.tables + 1) }
    ensures same_slots { IfOk result (λ before. 0 < before → KeepsSlots bag.old.tables bag.new.tables) }
    ensures same_room { IfOk result (λ before. 0 < before → room bag.old.tables ≤ room bag.new.tables) }
{
    bag.replace(value)
}
