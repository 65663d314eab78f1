//! How tables are made: empty ones, with room, and clones.
ghost use Rattle.std.specs.Prelude.{◌≡◌, ◌<◌, [], All, length, replicate, true, IfOk, IsOk, IsErr};
ghost use Rattle.hashbag_slots.specs.Slots.{entries};
ghost use Rattle.hashbag_table.specs.Entries.{IsCounted, IsEntryClone, HasClones};
ghost use Rattle.hashbag_table.specs.Tables.{IsLeast, IsPacked};

use crate::built::Built;
use crate::capacity::{least_slots, no_slots};
use crate::table::{MOST_VALUES, NOT_QUICK, Table, quick_of};
use hashbag_slots::slots::{Slot, Slots};
use std::alloc::{AllocError, Global};
use std::hash::{BuildHasher, Hash};

impl<T: Eq + Hash + Drop, S: BuildHasher + Drop> Table<T, S> {
    ghost use Rattle.std.specs.Prelude.{length};

    /// Returns an empty table without slots, whose values `hasher` hashes. It doesn't allocate.
    pub fn new(alloc: Global, hasher: S) -> Table<T, S>
        ensures empty { result.entries ≡ [] }
        ensures hasher { result.hasher ≡ hasher }
        ensures newer { result.tables.newer ≡ [] }
        ensures waiting { result.tables.waiting ≡ [] }
        ensures older { result.tables.older ≡ 0 }
        ensures built { result.tables.built ≡ 0 }
    {
        let newer = no_slots(alloc);
        let older = no_slots(alloc);
        Table {
            newer,
            older,
            carried_to: 0,
            edge: 0,
            quick: NOT_QUICK,
            at_once: 0,
            hasher,
            alloc,
            built: Built::first(0),
            lent: [],
        }
    }

    /// Returns an empty table with room for `n` distinct values, which `hasher` hashes. It has the least number of slots with that room.
    ///
    /// # Errors
    ///
    /// `AllocError` if the allocation fails, or if `n` is more than [`MOST_VALUES`]. With `n` 0 it doesn't allocate and can't fail.
    pub fn with_room(alloc: Global, hasher: S, n: usize) -> Result<Table<T, S>, AllocError>
        ensures empty { IfOk result (λ table. table.entries ≡ []) }
        ensures hasher { IfOk result (λ table. table.hasher ≡ hasher) }
        ensures none { n ≡ 0 → IsOk result }
        ensures past_most { MOST_VALUES < n → IsErr result }

        // All slots are Empty. Their number is the least of which `n` may be Live; the `0` sets no lower bound.
        ensures fresh { IfOk result (λ table. table.tables.newer ≡ replicate (length table.tables.newer) Slot.Empty) }
        ensures least { IfOk result (λ table. IsLeast 0 n (length table.tables.newer)) }

        // The table is the only one that was built, and no slot waits in an older table.
        ensures packed { IfOk result (λ table. IsPacked table.tables) }
        ensures built { IfOk result (λ table. table.tables.built ≡ length table.tables.newer) }
    {
        let slots = least_slots(0, n)?;
        let newer = Slots::with_slots(alloc, slots)?;
        let older = no_slots(alloc);
        Ok(Table {
            newer,
            older,
            carried_to: 0,
            edge: 0,
            quick: quick_of(slots, 0),
            at_once: 0,
            hasher,
            alloc,
            built: Built::first(slots),
            lent: [],
        })
    }

    /// Returns a table with clones of all entries, under a clone of the state. The caller ensures that clones of the values equal them.
    ///
    /// # Errors
    ///
    /// `AllocError` if an allocation fails, or the clone of a value or of the state. Then there is no new table.
    ///
    /// # Complexity
    ///
    /// It allocates the least table of slots in which all entries have room, and hashes each clone once.
    pub fn clone_in(&self) -> Result<Table<T, S>, AllocError>
    where
        T: Clone,
        S: Clone,
        requires equal { All (λ e. (x : _) → T.is_clone e.0 x → T.eq e.0 x ≡ true) self.now.entries }
        ensures clones { IfOk result (λ table. HasClones (IsEntryClone T.is_clone) self.now.entries table.entries) }
        ensures hasher { IfOk result (λ table. S.is_clone self.now.hasher table.hasher) }

        // No two values are equal, and each count is at least 1.
        ensures counted { IfOk result (λ table. IsCounted T.eq table.entries) }

        // It has the least number of slots with room for the entries (the `0` sets no lower bound). No other table was built, and no slot waits.
        ensures least { IfOk result (λ table. IsLeast 0 (length self.now.entries) (length table.tables.newer)) }
        ensures packed { IfOk result (λ table. IsPacked table.tables) }
        ensures built { IfOk result (λ table. table.tables.built ≡ length table.tables.newer) }
    {
        let hasher = self.hasher().clone()?;
        let mut table = Table::with_room(self.alloc, hasher, self.set_len())?;
        for (value, count) in self.walk() {
            let clone = value.clone()?;
            table.place_new(clone, count);
        }
        Ok(table)
    }
}
