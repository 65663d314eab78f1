//! Room and slots of a bag: how much there is, what is allocated, and what is freed.
ghost use Rattle.std.specs.Prelude.{◌≡◌, ◌+◌, ◌*◌, ◌<◌, ◌≤◌, [], length, IsOk, IfErr, OnOk, OnErr};
ghost use Rattle.hashbag_slots.specs.Slots.{IsSlotCount};
ghost use Rattle.hashbag_table.specs.Tables.{room, values, CarriesNext, IsNotOverfull, IfNoLarger, KeepsRoom, ShrinksOrStays, NoneMoved};
ghost use Rattle.hashbag_core.specs.Occurrences.{distinct_count};
ghost use Rattle.hashbag_core.specs.Held.{no_slots_after_building, AreHeld, ReservesSlots};
ghost use Rattle.hashbag_table.specs.declared.table.TheConstants.{MOST_VALUES};
ghost use Rattle.hashbag_core.specs.declared.bag.BagError.TheVariants.{Memory};

use crate::bag::{BagError, HashBag};
use std::hash::{BuildHasher, Hash};

impl<T: Eq + Hash + Drop, S: BuildHasher + Drop> HashBag<T, S> {
    ghost use Rattle.hashbag_core.specs.Bag.{IsBagOf};

    /// Returns how many distinct values the bag can have before it grows: [`HashBag::set_len`] and [`HashBag::room`] together.
    ///
    /// # Examples
    ///
    /// ```
    /// let mut bag = HashBag::new(alloc);
    /// bag.capacity(); // 0
    /// bag.insert("apple")?;
    /// bag.capacity(); // 12
    /// Ok(())
    /// ```
    pub fn capacity(&self) -> usize
        ensures { result ≡ distinct_count T.eq self.now.items + room self.now.tables }
    {
        self.table.capacity()
    }

    /// Returns the number of slots of the newer table, 0 if it has none. A slot has a place for one distinct value with its count. A slot of the
    /// newer table is Empty, Live (it holds a value), or Removed (it held one).
    ///
    /// # Examples
    ///
    /// ```
    /// let mut bag = HashBag::new(alloc);
    /// bag.slots(); // 0
    /// bag.insert("apple")?;
    /// bag.slots(); // 16
    /// Ok(())
    /// ```
    pub fn slots(&self) -> usize
        ensures slots { result ≡ length self.now.tables.newer }

        // It is 0, or a power of two from 16 to 2^59.
        ensures count { IsSlotCount result }

        // Each value is in one Live slot of either table, with its count. No value was moved out of the newer table.
        ensures held { AreHeld T.eq self.now.items self.now.tables }
        ensures unmoved { NoneMoved self.now.tables.newer }

        // The values of both tables and the Removed slots of the newer one take at most three quarters of its slots.
        ensures fits { IsNotOverfull self.now.tables }
        ensures values { values self.now.tables ≡ distinct_count T.eq self.now.items }
    {
        self.table.slots()
    }

    /// Returns the number of slots of the older table that aren't carried yet, 0 if there is no older table. Each insertion of an absent
    /// value carries the next 16 of them.
    ///
    /// # Examples
    ///
    /// ```
    /// let mut bag = HashBag::new(alloc);
    /// for value in 0..25u64 {
    ///     bag.insert(value)?;
    /// }
    /// bag.waiting(); // 16
    /// Ok(())
    /// ```
    pub fn waiting(&self) -> usize
        ensures waiting { result ≡ length self.now.tables.waiting }

        // The insertions that there is room for carry all waiting slots, 16 each.
        ensures carries { result ≤ 16 * room self.now.tables }

        // If some slots wait, they are at least 16 fewer than the newer slots. If none waits, the older table has no slots.
        ensures smaller { 0 < result → result + 16 ≤ length self.now.tables.newer }
        ensures freed { result ≡ 0 → self.now.tables.older ≡ 0 }
    {
        self.table.waiting()
    }

    /// Carries all slots of the older table that aren't carried yet. A look-up then probes one table alone. The occurrences stay,
    /// and no room is lost.
    ///
    /// Otherwise only an insertion of an absent value carries slots. So a bag that is filled once and then only looked up is faster after this call.
    /// If no slot waits to be carried, the call does nothing.
    ///
    /// # Complexity
    ///
    /// It hashes each waiting value once, frees the older table, and doesn't allocate.
    ///
    /// # Examples
    ///
    /// ```
    /// let mut bag = HashBag::new(alloc);
    /// for value in 0..25u64 {
    ///     bag.insert(value)?;
    /// }
    /// bag.waiting(); // 16
    /// bag.finish_carry();
    /// bag.waiting(); // 0
    /// Ok(())
    /// ```
    pub fn finish_carry(&mut self)
        // The bag means the list that it meant before, and its hash state and limit are unchanged.
        ensures items { IsBagOf T.eq self.old self.old.items self.new }
        ensures len { length self.new.items ≡ length self.old.items }
        ensures waiting { self.new.tables.waiting ≡ [] }

        // The waiting values are in slots of the newer table that weren't Live. Its other slots are unchanged.
        ensures carried { CarriesNext (length self.old.tables.waiting) self.old.tables self.new.tables }

        // There are as many slots as before, no table was built, and room isn't lower.
        ensures room { KeepsRoom 0 self.old.tables self.new.tables }
    {
        self.table.finish_carry();
    }

    /// Returns how many absent values can be inserted before the bag grows. None of these insertions allocates slots.
    ///
    /// # Examples
    ///
    /// ```
    /// let mut bag = HashBag::new(alloc);
    /// bag.room(); // 0
    /// bag.insert_many("apple", 5)?;
    /// bag.room(); // 11
    /// Ok(())
    /// ```
    pub fn room(&self) -> usize
        ensures { result ≡ room self.now.tables }
    {
        self.table.room()
    }

    /// Makes room for `n` more distinct values: the next `n` insertions of absent values don't allocate slots. The occurrences stay.
    ///
    /// # Errors
    ///
    /// `Memory` if an allocation fails, or if there would be more than 3 * 2^57 distinct values. The bag is then unchanged. With enough
    /// room before the call it can't fail.
    ///
    /// # Complexity
    ///
    /// If there is enough room, it does nothing. Else it allocates the least table of slots that has the room, and is not smaller than the
    /// newer one. Every value is moved into that table and hashed once, a waiting one twice. The former tables are freed.
    ///
    /// # Examples
    ///
    /// ```
    /// let mut bag = HashBag::new(alloc);
    /// bag.reserve(20)?;
    /// bag.room(); // 24
    /// // There is room, so this doesn't allocate.
    /// bag.insert("apple")?;
    /// Ok(())
    /// ```
    pub fn reserve(&mut self, n: usize) -> Result<(), BagError>
        // The bag means the list that it meant before, and its hash state and limit are unchanged.
        ensures items { IsBagOf T.eq self.old self.old.items self.new }
        ensures len { length self.new.items ≡ length self.old.items }
        ensures past_most { 0 < n → MOST_VALUES < distinct_count T.eq self.old.items + n → result ≡ Err BagError.Memory }
        ensures memory { IfErr result (λ e. e ≡ BagError.Memory) }
        ensures err { OnErr result (self.new ≡ self.old) }
        ensures room { OnOk result (n ≤ room self.new.tables) }

        // What becomes of the tables, as under `# Complexity`.
        ensures enough { n ≤ room self.old.tables → IsOk result × (self.new ≡ self.old) }
        ensures reserves { OnOk result (ReservesSlots T.eq n self.old self.new) }
    {
        self.table.reserve(n)?;
        Ok(())
    }

    /// Frees slots that the bag doesn't need. The occurrences stay, and an empty bag is left with no slots.
    ///
    /// # Errors
    ///
    /// `Memory` if the allocation of a smaller table fails. The bag is then unchanged.
    ///
    /// # Complexity
    ///
    /// If the least table that has room for the values is smaller than the newer one, it is allocated. Every value is moved into it and
    /// hashed once, a waiting one twice, and the former tables are freed. Else the call does nothing. An empty bag allocates nothing.
    ///
    /// # Examples
    ///
    /// ```
    /// let mut bag = HashBag::with_capacity(alloc, 1_000)?;
    /// bag.insert("apple")?;
    /// bag.slots(); // 2048
    /// bag.shrink_to_fit()?;
    /// bag.slots(); // 16
    /// Ok(())
    /// ```
    pub fn shrink_to_fit(&mut self) -> Result<(), BagError>
        // The bag means the list that it meant before, and its hash state and limit are unchanged.
        ensures items { IsBagOf T.eq self.old self.old.items self.new }
        ensures len { length self.new.items ≡ length self.old.items }
        ensures memory { IfErr result (λ e. e ≡ BagError.Memory) }
        ensures err { OnErr result (self.new ≡ self.old) }

        // What becomes of the tables, as under `# Complexity`. An empty bag is left with no slots.
        ensures none { self.old.items ≡ [] → IsOk result }
        ensures freed { OnOk result (self.old.items ≡ [] → self.new.tables ≡ no_slots_after_building self.old.tables.built) }
        ensures shrinks { OnOk result (ShrinksOrStays (distinct_count T.eq self.old.items) self.old.tables self.new.tables) }
        ensures enough { IfNoLarger (distinct_count T.eq self.old.items) self.old.tables (IsOk result × (self.new ≡ self.old)) }
    {
        self.table.shrink_to_fit()?;
        // Only for the proof: it uses the clauses `waiting`, `smaller` and `freed` of `Table::waiting`.
        let _waiting = self.table.waiting();
        Ok(())
    }
}
