//! Spare slots of a bag: allocated ahead, and taken into use later.
ghost use Rattle.std.specs.Prelude.{◌≡◌, ◌+◌, ◌-◌, ◌<◌, ◌≤◌, length, IfOk, IfErr};
ghost use Rattle.hashbag_table.specs.Tables.{most_used, room, IsPacked};
ghost use Rattle.hashbag_core.specs.Occurrences.{distinct_count};
ghost use Rattle.hashbag_core.specs.Held.{BuildsSlots, IsSpareFor};
ghost use Rattle.hashbag_table.specs.declared.table.TheConstants.{MOST_VALUES};
ghost use Rattle.hashbag_core.specs.declared.bag.BagError.TheVariants.{Memory};

use crate::bag::{BagError, HashBag};
use hashbag_table::Spare;
use std::hash::{BuildHasher, Hash};

impl<T: Eq + Hash + Drop, S: BuildHasher + Drop> HashBag<T, S> {
    ghost use Rattle.hashbag_core.specs.Bag.{IsBagOf};

    /// Allocates the slots that [`HashBag::reserve`] would build for `n` more distinct values, and leaves them unused.
    ///
    /// They are the least table, not smaller than the newer one, that has room for the present values and `n` more. A caller that needs the slots
    /// later calls [`HashBag::use_spare`], which can't fail. A caller that doesn't need them drops them.
    ///
    /// # Errors
    ///
    /// `Memory` if the allocation fails, or if there would be more than 3 * 2^57 distinct values.
    ///
    /// # Examples
    ///
    /// ```
    /// let mut bag = HashBag::new(alloc);
    /// bag.insert("apple")?;
    /// let spare = bag.spare(20)?;
    /// spare.slots(); // 32
    /// bag.slots(); // 16
    /// Ok(())
    /// ```
    pub fn spare(&self, n: usize) -> Result<Spare<T>, BagError>
        // In clauses a spare is the number of its slots.
        ensures least { IfOk result (λ slots. IsSpareFor T.eq n self.now slots) }
        ensures past_most { MOST_VALUES < distinct_count T.eq self.now.items + n → result ≡ Err BagError.Memory }
        ensures memory { IfErr result (λ e. e ≡ BagError.Memory) }
    {
        let spare = self.table.spare(n)?;
        Ok(spare)
    }

    /// Moves all values into spare slots. The slots that the bag had are freed, and the occurrences stay.
    ///
    /// The caller ensures that the distinct values have room in the spare slots. A spare from `HashBag::spare(n)` has that room until more than `n`
    /// absent values are inserted.
    ///
    /// # Complexity
    ///
    /// Every distinct value is moved and hashed once, a waiting one twice. It doesn't allocate.
    ///
    /// # Examples
    ///
    /// ```
    /// let mut bag = HashBag::new(alloc);
    /// bag.insert("apple")?;
    /// let spare = bag.spare(20)?;
    /// bag.use_spare(spare);
    /// bag.room(); // 23
    /// Ok(())
    /// ```
    pub fn use_spare(&mut self, spare: Spare<T>)
        requires enough { distinct_count T.eq self.old.items ≤ most_used spare }

        // The bag means the list that it meant before, and its hash state and limit are unchanged.
        ensures items { IsBagOf T.eq self.old self.old.items self.new }
        ensures len { length self.new.items ≡ length self.old.items }

        // The spare is the only table, so no slot waits. Room is `most_used` of the spare less the distinct values, and its slots count as built.
        ensures slots { length self.new.tables.newer ≡ spare }
        ensures room { room self.new.tables ≡ most_used spare - distinct_count T.eq self.old.items }
        ensures packed { IsPacked self.new.tables }
        ensures built { BuildsSlots spare self.old self.new }
    {
        self.table.use_spare(spare);
    }
}
