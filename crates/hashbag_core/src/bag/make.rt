//! How bags are made: empty ones, with room or with a limit, and clones.
ghost use Rattle.std.specs.Prelude.{◌≡◌, ◌<◌, ◌≤◌, [], All, true, length, IsOk, IfOk, IfErr};
ghost use Rattle.hashbag_table.specs.Entries.{HasClones};
ghost use Rattle.hashbag_table.specs.Tables.{room, IsLeast, IsPacked};
ghost use Rattle.hashbag_core.specs.Occurrences.{greatest_total, SameCounts};
ghost use Rattle.hashbag_core.specs.Held.{no_slots_after_building, NeedsSlots};
ghost use Rattle.hashbag_table.specs.declared.table.TheConstants.{MOST_VALUES};
ghost use Rattle.hashbag_core.specs.declared.bag.BagError.TheVariants.{Memory};

use crate::bag::{BagError, FixedState, HashBag};
use hashbag_table::Table;
use std::alloc::Global;
use std::hash::{BuildHasher, Hash};

impl<T: Eq + Hash + Drop> HashBag<T, FixedState> {
    /// Returns an empty bag without slots, whose values are hashed with fixed keys. It doesn't allocate.
    ///
    /// # Examples
    ///
    /// ```
    /// let mut bag = HashBag::new(alloc);
    /// bag.insert("apple")?;
    /// bag.len(); // 1
    /// Ok(())
    /// ```
    pub fn new(alloc: Global) -> HashBag<T, FixedState>
        ensures empty { result.items ≡ [] }

        // The hash state is one that `FixedState::default()` may return: `⟦<FixedState as Default>⟧` is that impl.
        ensures hasher { ⟦<FixedState as Default>⟧.is_default result.hasher }

        // Neither table has slots, and none was built (`0`).
        ensures slots { result.tables ≡ no_slots_after_building 0 }

        // No limit is set.
        ensures limit { result.most ≡ greatest_total }
    {
        HashBag::with_hasher(alloc, FixedState::new())
    }

    /// Returns an empty bag with room for `n` distinct values, which are hashed with fixed keys. It has the least table of slots with that
    /// room.
    ///
    /// # Errors
    ///
    /// `Memory` if the allocation fails, or if `n` is more than 3 * 2^57. With `n` 0 it can't fail.
    ///
    /// # Complexity
    ///
    /// It allocates the slots at once, none with `n` 0. The first `n` insertions of absent values don't allocate slots.
    ///
    /// # Examples
    ///
    /// ```
    /// let mut bag = HashBag::with_capacity(alloc, 20)?;
    /// bag.room(); // 24
    /// // There is room, so this doesn't allocate.
    /// bag.insert("apple")?;
    /// Ok(())
    /// ```
    pub fn with_capacity(alloc: Global, n: usize) -> Result<HashBag<T, FixedState>, BagError>
        ensures empty { IfOk result (λ bag. bag.items ≡ []) }

        // The hash state is one that `FixedState::default()` may return: `⟦<FixedState as Default>⟧` is that impl.
        ensures hasher { IfOk result (λ bag. ⟦<FixedState as Default>⟧.is_default bag.hasher) }

        // When it fails, as under `# Errors`. `MOST_VALUES` is 3 * 2^57.
        ensures none { n ≡ 0 → IsOk result }
        ensures past_most { MOST_VALUES < n → result ≡ Err BagError.Memory }
        ensures memory { IfErr result (λ e. e ≡ BagError.Memory) }

        // The newer table has the least number of slots that gives room for `n` values. The `0` sets no lower bound.
        ensures least { IfOk result (λ bag. IsLeast 0 n (length bag.tables.newer)) }

        // It is the only table: no slot of an older table waits, all room is in it, and no other table was built.
        ensures packed { IfOk result (λ bag. IsPacked bag.tables) }
        ensures room { IfOk result (λ bag. n ≤ room bag.tables) }
        ensures built { IfOk result (λ bag. bag.tables.built ≡ length bag.tables.newer) }

        // No limit is set.
        ensures limit { IfOk result (λ bag. bag.most ≡ greatest_total) }
    {
        HashBag::with_capacity_and_hasher(alloc, n, FixedState::new())
    }
}

impl<T: Eq + Hash + Drop, S: BuildHasher + Drop> HashBag<T, S> {
    /// Returns an empty bag without slots, whose values `hasher` hashes. It doesn't allocate.
    ///
    /// # Examples
    ///
    /// ```
    /// let state = RandomState::new(&rt)?;
    /// let mut bag = HashBag::with_hasher(alloc, state);
    /// bag.insert("apple")?;
    /// bag.contains(&"apple"); // 1
    /// Ok(())
    /// ```
    pub fn with_hasher(alloc: Global, hasher: S) -> HashBag<T, S>
        ensures empty { result.items ≡ [] }
        ensures hasher { result.hasher ≡ hasher }

        // Neither table has slots, and none was built (`0`).
        ensures slots { result.tables ≡ no_slots_after_building 0 }

        // No limit is set.
        ensures limit { result.most ≡ greatest_total }
    {
        HashBag::with_limit(alloc, hasher, usize::MAX)
    }

    /// Returns an empty bag without slots, whose values `hasher` hashes, and whose total is never above `most`. It doesn't allocate.
    ///
    /// # Examples
    ///
    /// ```
    /// let mut bag = HashBag::with_limit(alloc, FixedState::new(), 2);
    /// bag.insert_many("apple", 2)?;
    /// bag.insert("pear").err(); // Some(TooMany)
    /// Ok(())
    /// ```
    pub fn with_limit(alloc: Global, hasher: S, most: usize) -> HashBag<T, S>
        ensures empty { result.items ≡ [] }
        ensures hasher { result.hasher ≡ hasher }

        // Neither table has slots, and none was built (`0`).
        ensures slots { result.tables ≡ no_slots_after_building 0 }
        ensures limit { result.most ≡ most }
    {
        HashBag {
            table: Table::new(alloc, hasher),
            len: 0,
            most,
        }
    }

    /// Returns an empty bag with room for `n` distinct values, which `hasher` hashes. It has the least table of slots with that room.
    ///
    /// # Errors
    ///
    /// `Memory` if the allocation fails, or if `n` is more than 3 * 2^57. With `n` 0 it can't fail.
    ///
    /// # Complexity
    ///
    /// It allocates the slots at once, none with `n` 0. The first `n` insertions of absent values don't allocate slots.
    ///
    /// # Examples
    ///
    /// ```
    /// let state = RandomState::new(&rt)?;
    /// let mut bag = HashBag::with_capacity_and_hasher(alloc, 3, state)?;
    /// // There is room, so this doesn't allocate.
    /// bag.insert("apple")?;
    /// bag.slots(); // 16
    /// Ok(())
    /// ```
    pub fn with_capacity_and_hasher(
        alloc: Global,
        n: usize,
        hasher: S,
    ) -> Result<HashBag<T, S>, BagError>
        ensures empty { IfOk result (λ bag. bag.items ≡ []) }
        ensures hasher { IfOk result (λ bag. bag.hasher ≡ hasher) }

        // When it fails, as under `# Errors`. `MOST_VALUES` is 3 * 2^57.
        ensures none { n ≡ 0 → IsOk result }
        ensures past_most { MOST_VALUES < n → result ≡ Err BagError.Memory }
        ensures memory { IfErr result (λ e. e ≡ BagError.Memory) }

        // The newer table has the least number of slots that gives room for `n` values. The `0` sets no lower bound.
        ensures least { IfOk result (λ bag. IsLeast 0 n (length bag.tables.newer)) }

        // It is the only table: no slot of an older table waits, all room is in it, and no other table was built.
        ensures packed { IfOk result (λ bag. IsPacked bag.tables) }
        ensures room { IfOk result (λ bag. n ≤ room bag.tables) }
        ensures built { IfOk result (λ bag. bag.tables.built ≡ length bag.tables.newer) }

        // No limit is set.
        ensures limit { IfOk result (λ bag. bag.most ≡ greatest_total) }
    {
        let table = Table::with_room(alloc, hasher, n)?;
        Ok(HashBag {
            table,
            len: 0,
            most: usize::MAX,
        })
    }

    /// Returns a bag with a clone of each stored instance, with the same counts and the same limit, under a clone of the state.
    ///
    /// The caller ensures that clones of the values equal them.
    ///
    /// # Errors
    ///
    /// `Memory` if an allocation fails, or the clone of a value or of the state. Then there is no new bag.
    ///
    /// # Complexity
    ///
    /// It allocates the least table of slots that has room for all values, and hashes each clone once.
    ///
    /// # Examples
    ///
    /// ```
    /// let mut bag = HashBag::new(alloc);
    /// bag.insert_many("apple", 2)?;
    /// let other = bag.clone()?;
    /// bag.remove(&"apple");
    /// other.contains(&"apple"); // 2
    /// Ok(())
    /// ```
    pub fn clone(&self) -> Result<HashBag<T, S>, BagError>
    where
        T: Clone,
        S: Clone,
        requires equal { All (λ x. (y : _) → T.is_clone x y → T.eq x y ≡ true) self.now.items }

        // The new bag has a clone of each occurrence. So each value occurs as often as in this bag, and the total is the same.
        ensures clones { IfOk result (λ bag. HasClones T.is_clone self.now.items bag.items) }
        ensures counts { IfOk result (λ bag. SameCounts T.eq self.now.items bag.items) }
        ensures len { IfOk result (λ bag. length bag.items ≡ length self.now.items) }
        ensures hasher { IfOk result (λ bag. S.is_clone self.now.hasher bag.hasher) }
        ensures limit { IfOk result (λ bag. bag.most ≡ self.now.most) }
        ensures memory { IfErr result (λ e. e ≡ BagError.Memory) }

        // The new bag has one table, the least with room for the values. No slot of an older one waits, and no other table was built.
        ensures least { IfOk result (λ bag. NeedsSlots T.eq self.now (length bag.tables.newer)) }
        ensures packed { IfOk result (λ bag. IsPacked bag.tables) }
        ensures built { IfOk result (λ bag. bag.tables.built ≡ length bag.tables.newer) }
    {
        let table = self.table.clone_in()?;
        Ok(HashBag {
            table,
            len: self.len,
            most: self.most,
        })
    }
}
