//! `Entry`: the place of a value in a bag. In clauses `self.entry` is the receiver as it was passed: the bag in `HashBag::entry`, and the
//! `Entry` in its own methods. `self.exit` has the receiver's borrows after the call. An `Entry` has one, so `self.exit.0.now` is the bag.
ghost use Rattle.std.specs.Prelude.{◌≡◌, ◌<◌, ◌↔◌, ℕ, IsOk, IfOk, IfErr, OnErr};
ghost use Rattle.hashbag_table.specs.Tables.{room, KeepsRoom};
ghost use Rattle.hashbag_core.specs.Held.{FitsLimit};
ghost use Rattle.std.specs.Borrow.{sem, MutBor};
ghost use Rattle.hashbag_core.specs.Inserts.{MayFail};
ghost use Rattle.hashbag_core.specs.Occurrences.{count, instance_or_itself};

use crate::bag::{BagError, FixedState, HashBag};
use std::fmt::{self, Debug, Formatter, Write};
use std::hash::{BuildHasher, Hash};

/// An entry of a bag: a borrow of the bag, and the given value.
///
/// It is occupied if the bag has the value, and else vacant. An entry that is dropped changes nothing.
pub struct Entry<'a, T: Eq + Hash + Drop, S: BuildHasher + Drop = FixedState> {
    pub(crate) bag: &'a mut HashBag<T, S>,
    pub(crate) value: T,
}

impl<'a, T: Eq + Hash + Drop, S: BuildHasher + Drop> Drop for Entry<'a, T, S> {
    fn drop(self)
        ensures unchanged { self.exit.0.now ≡ self.entry.bag.now }
    {
        let Entry { bag: _, value } = self;
        drop(value);
    }
}

impl<T: Eq + Hash + Drop, S: BuildHasher + Drop> HashBag<T, S> {
    /// Returns the entry of a value in the bag. It doesn't allocate, and looks nothing up.
    ///
    /// # Examples
    ///
    /// ```
    /// let mut bag = HashBag::new(alloc);
    /// bag.entry("apple").or_insert()?; // 1
    /// bag.entry("apple").or_insert()?; // 1
    /// bag.len(); // 1
    /// Ok(())
    /// ```
    pub fn entry(&mut self, value: T) -> Entry<'_, T, S>
        // The entry has the loan of this bag and the given value. The bag is unchanged.
        ensures same_bag { result.bag.ghost_name ≡ self.entry.ghost_name }
        ensures unchanged { result.bag.now ≡ self.old }
        ensures value { result.value ≡ value }
    {
        Entry { bag: self, value }
    }
}

impl<'a, T: Eq + Hash + Drop, S: BuildHasher + Drop> Entry<'a, T, S> {
    ghost use Rattle.hashbag_core.specs.EntryCalls.{KeepsOccupied, FillsVacant, IsVacantPast, RecountsOccupied, KeepsOthers, ChangesCount, FailsPastLimit};
    ghost use Rattle.hashbag_core.specs.Lending.{stays_if_err};

    /// Returns the stored instance if the entry is occupied, else the given value.
    ///
    /// # Complexity
    ///
    /// It hashes the value once and doesn't allocate.
    ///
    /// # Examples
    ///
    /// ```
    /// let mut bag = HashBag::new(alloc);
    /// bag.insert("apple")?;
    /// *bag.entry("apple").value(); // "apple"
    /// Ok(())
    /// ```
    pub fn value(&self) -> &T
        ensures { result.now ≡ instance_or_itself T.eq self.now.value self.now.bag.now.items }
    {
        match self.bag.get(&self.value) {
            Some((instance, _)) => instance,
            None => &self.value,
        }
    }

    /// Calls `f` on a copy of the count, and sets the count to the number that `f` leaves there. On a vacant entry `f` isn't called.
    ///
    /// If `f` leaves 0, the value is removed, its stored instance is dropped, and the entry is vacant with the given value.
    ///
    /// # Errors
    ///
    /// `TooMany` exactly if the new total would pass the bag's limit; the old count is subtracted first. The bag is then unchanged, and the
    /// entry is dropped with its value.
    ///
    /// # Complexity
    ///
    /// It hashes the value twice if the count is set, and else once. It doesn't allocate.
    ///
    /// # Examples
    ///
    /// ```
    /// let mut bag = HashBag::new(alloc);
    /// bag.insert_many("apple", 3)?;
    /// let less = |count: &mut usize| *count -= 1;
    /// bag.entry("apple").and_modify(less)?.or_insert()?; // 2
    /// bag.entry("pear").and_modify(less)?.or_insert()?; // 1
    /// Ok(())
    /// ```
    pub fn and_modify<F: FnOnce(&mut usize) + Drop>(self, f: F) -> Result<Entry<'a, T, S>, BagError>
        // `f` can be called on the count of an occupied entry.
        requires { (p : MutBor ℕ) → p.now ≡ count T.eq self.value self.bag.now.items → 0 < p.now → F.pre f p }

        // The returned entry has the same loan and the same value.
        ensures same_bag { IfOk result (λ e. e.bag.ghost_name ≡ self.entry.bag.ghost_name) }
        ensures same_value { IfOk result (λ e. e.value ≡ self.entry.value) }

        // If the entry is vacant, the bag is unchanged. If it is occupied, the value has the count that `f` left. If the call failed, the total with
        // that count would pass the limit.
        ensures changes { IfOk result (λ e. ChangesCount T.eq F.FnOnce f self.entry.value self.entry.bag.now e.bag.now) }
        ensures passes { IfErr result (FailsPastLimit T.eq F.FnOnce f self.entry.value self.entry.bag.now) }

        // The other values together have as many occurrences as before.
        ensures len { IfOk result (λ e. KeepsOthers T.eq self.entry.value self.entry.bag.now e.bag.now) }

        // If the entry is occupied, only the slot of its value changed. No table was built, and room isn't lower.
        ensures slot { IfOk result (λ e. RecountsOccupied T.eq self.entry e.bag.now) }
        ensures room { IfOk result (λ e. KeepsRoom 0 self.entry.bag.now.tables e.bag.now.tables) }

        // If it failed, the bag is unchanged once the loan is over.
        ensures* stays { sem 𝓛 (stays_if_err T.row S.row S.Hasher.row T.Hash S.BuildHasher S.Hasher.Hasher self.entry result) }
    {
        let Entry { bag, value } = self;
        let before = bag.contains(&value);
        if before == 0 {
            drop(f);
            return Ok(Entry { bag, value });
        }
        let mut n = before;
        f(&mut n);
        if n > bag.limit() - (bag.len() - before) {
            return Err(BagError::TooMany);
        }
        match bag.recount(&value, n) {
            Ok(_) => return Ok(Entry { bag, value }),
            Err(_) => return Err(BagError::TooMany),
        }
    }

    /// Inserts the given value once if the entry is vacant, and returns the count after: [`Entry::or_insert_many`] with 1.
    ///
    /// # Errors
    ///
    /// - `TooMany` if the entry is vacant and the total would pass the bag's limit. That is tested first.
    /// - `Memory` if the entry is vacant, there is no room, and an allocation fails.
    ///
    /// Then the bag is unchanged, and the value is dropped.
    ///
    /// # Examples
    ///
    /// ```
    /// let mut bag = HashBag::new(alloc);
    /// bag.insert_many("apple", 3)?;
    /// bag.entry("apple").or_insert()?; // 3
    /// bag.entry("pear").or_insert()?; // 1
    /// Ok(())
    /// ```
    pub fn or_insert(self) -> Result<usize, BagError>
        // Occupied: the count is returned, and the bag is unchanged. Vacant: on success the value is inserted once, and 1 is returned.
        ensures occupied { KeepsOccupied T.eq self.entry result self.exit.0.now }
        ensures vacant { FillsVacant T.eq 1 self.entry result self.exit.0.now }

        // When it fails, as under `# Errors`.
        ensures too_many { (result ≡ Err BagError.TooMany) ↔ IsVacantPast T.eq 1 self.entry }
        ensures fails { IfErr result (MayFail T.eq self.entry.bag.now self.entry.value 1) }
        ensures err { OnErr result (self.exit.0.now ≡ self.entry.bag.now) }

        // If the total fits with one more, it succeeds if there is room.
        ensures takes { FitsLimit 1 self.entry.bag.now → 0 < room self.entry.bag.now.tables → IsOk result }
    {
        self.or_insert_many(1)
    }

    /// Inserts `n` occurrences of the given value if the entry is vacant, and returns the count after.
    ///
    /// If the entry is occupied, nothing changes: it returns the present count, and the given value is dropped. An `n` of 0 adds
    /// nothing. Neither can fail.
    ///
    /// # Errors
    ///
    /// - `TooMany` if the entry is vacant and the total would pass the bag's limit. That is tested first.
    /// - `Memory` if the entry is vacant, there is no room, and an allocation fails.
    ///
    /// Then the bag is unchanged, and the value is dropped.
    ///
    /// # Complexity
    ///
    /// It hashes the value twice if it inserts it, and else once. It allocates only if it inserts the value and there is no room.
    ///
    /// # Examples
    ///
    /// ```
    /// let mut bag = HashBag::new(alloc);
    /// bag.entry("apple").or_insert_many(3)?; // 3
    /// bag.entry("apple").or_insert_many(5)?; // 3
    /// Ok(())
    /// ```
    pub fn or_insert_many(self, n: usize) -> Result<usize, BagError>
        // Occupied: the count is returned, and the bag is unchanged. Vacant: on success `n` is returned, and as many occurrences are inserted.
        ensures occupied { KeepsOccupied T.eq self.entry result self.exit.0.now }
        ensures vacant { FillsVacant T.eq n self.entry result self.exit.0.now }
        ensures none { n ≡ 0 → IsOk result × (self.exit.0.now ≡ self.entry.bag.now) }

        // When it fails, as under `# Errors`.
        ensures too_many { (result ≡ Err BagError.TooMany) ↔ IsVacantPast T.eq n self.entry }
        ensures fails { IfErr result (MayFail T.eq self.entry.bag.now self.entry.value n) }
        ensures err { OnErr result (self.exit.0.now ≡ self.entry.bag.now) }

        // If the total fits with `n` more, it succeeds if there is room.
        ensures takes { FitsLimit n self.entry.bag.now → 0 < room self.entry.bag.now.tables → IsOk result }
    {
        let Entry { bag, value } = self;
        let before = bag.contains(&value);
        if before > 0 {
            return Ok(before);
        }
        if n == 0 {
            return Ok(0);
        }
        if n > bag.limit() - bag.len() {
            return Err(BagError::TooMany);
        }
        bag.insert_new(value, n)?;
        Ok(n)
    }
}

impl<'a, T: Eq + Hash + Drop + Debug, S: BuildHasher + Drop> Debug for Entry<'a, T, S> {
    /// Writes [`Entry::value`] and its count, as `Entry(5, 3)`.
    ///
    /// # Examples
    ///
    /// ```
    /// let mut bag = HashBag::new(alloc);
    /// bag.insert_many("apple", 3)?;
    /// format!(in alloc; "{:?}", bag.entry("apple"))?; // Entry("apple", 3)
    /// Ok(())
    /// ```
    fn fmt<W: Write>(&self, f: &mut Formatter<W>) -> fmt::Result {
        let value = self.value();
        let count = self.bag.contains(&self.value);
        write!(f, "Entry({value:?}, {count})")
    }
}
