//! How a whole bag loses occurrences: all of them, or what a closure doesn't keep.
ghost use Rattle.std.specs.Prelude.{◌≡◌, ◌≤◌, [], length};
ghost use Rattle.hashbag_table.specs.Returned.{MayCallInTurn};
ghost use Rattle.hashbag_table.specs.Tables.{KeepsRoom};
ghost use Rattle.hashbag_table.specs.Retained.{RetainsTables};
ghost use Rattle.hashbag_core.specs.Held.{cleared};
ghost use Rattle.hashbag_core.specs.Retain.{IsRetained};
ghost use Rattle.hashbag_core.specs.Walks.{IsSetWalkOf};

use crate::bag::HashBag;
use std::hash::{BuildHasher, Hash};

impl<T: Eq + Hash + Drop, S: BuildHasher + Drop> HashBag<T, S> {
    /// Removes all occurrences. The newer table keeps its slots, all of them Empty, and an older one is freed.
    ///
    /// # Complexity
    ///
    /// It doesn't allocate and hashes nothing.
    ///
    /// # Examples
    ///
    /// ```
    /// let mut bag = HashBag::new(alloc);
    /// bag.insert_many("apple", 2)?;
    /// bag.clear();
    /// bag.len(); // 0
    /// bag.slots(); // 16
    /// Ok(())
    /// ```
    pub fn clear(&mut self)
        ensures empty { self.new.items ≡ [] }
        ensures hasher { self.new.hasher ≡ self.old.hasher }
        ensures limit { self.new.most ≡ self.old.most }
        ensures cleared { self.new.tables ≡ cleared self.old.tables }

        // No table was built, and room isn't lower.
        ensures room { KeepsRoom 0 self.old.tables self.new.tables }
    {
        self.table.clear();
        self.len = 0;
    }

    /// Lowers the count of each distinct value to what `f` returns for it, if that is less. If `f` returns 0, the value is removed, and its stored
    /// instance is dropped. `f` is called once for each distinct value, with its count, in no particular order.
    ///
    /// # Complexity
    ///
    /// It doesn't allocate and hashes nothing.
    ///
    /// # Examples
    ///
    /// ```
    /// let mut bag = HashBag::new(alloc);
    /// bag.insert_many(5u64, 3)?;
    /// bag.insert_many(6, 1)?;
    /// bag.retain(|value: &u64, _count: usize| if *value == 5 { 2 } else { 0 });
    /// bag.contains(&5); // 2
    /// bag.contains(&6); // 0
    /// Ok(())
    /// ```
    pub fn retain<F: FnMut(&T, usize) -> usize + Drop>(&mut self, f: F)
        // `f` can be called with each distinct value and its count, in whatever order.
        requires callable { (walk : _) → IsSetWalkOf T.eq self.old walk → MayCallInTurn F.FnMut f walk }
        ensures retained { IsRetained T.eq F.FnMut f self.old self.new }
        ensures len { length self.new.items ≤ length self.old.items }

        // Counts changed in place: no value is in another slot, no table was built, and room isn't lower.
        ensures waiting { length self.new.tables.waiting ≡ length self.old.tables.waiting }
        ensures in_place { RetainsTables self.old.tables self.new.tables }
        ensures room { KeepsRoom 0 self.old.tables self.new.tables }
    {
        self.len = self.table.retain(f);
    }
}
