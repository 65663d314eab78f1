//! How occurrences are removed from a bag: one, some, or all of a value.
ghost use Rattle.std.specs.Borrow.{sem};
ghost use Rattle.std.specs.Prelude.{◌≡◌, ◌≢◌, ◌+◌, ◌-◌, length, min, IfOk, IfErr, IsErrAnd};
ghost use Rattle.hashbag_core.specs.Bag.{IsShorterBy, IsShorterByTaken, IsShorterByAll, LendsCounted, LendsNotOne};
ghost use Rattle.hashbag_core.specs.Occurrences.{count_named, stored_named, IsBag};
ghost use Rattle.hashbag_core.specs.Held.{HasFewer};

use crate::bag::HashBag;
use hashbag_table::Key;
use std::hash::{BuildHasher, Hash};

impl<T: Eq + Hash + Drop, S: BuildHasher + Drop> HashBag<T, S> {
    ghost use Rattle.hashbag_core.specs.Lending.{loses_one};

    /// Removes one occurrence of a value, if there is one, and returns the count before. With the last occurrence the stored instance is
    /// dropped.
    ///
    /// The value is given as a reference, or as a key that names it: `bag.remove(&value)`, `words.remove("the")`.
    ///
    /// # Complexity
    ///
    /// It hashes the key once and doesn't allocate.
    ///
    /// # Examples
    ///
    /// ```
    /// let mut bag = HashBag::new(alloc);
    /// bag.insert_many("apple", 2)?;
    /// bag.remove(&"apple"); // 2
    /// bag.remove(&"apple"); // 1
    /// bag.remove(&"apple"); // 0
    /// Ok(())
    /// ```
    pub fn remove<Q: Key<T>>(&mut self, key: Q) -> usize
        ensures before { result ≡ count_named (Q.names key) self.old.items }

        // One occurrence is gone, if there was one: only the value's slot changed. If there was none, nothing changed. Room isn't lower.
        ensures fewer { HasFewer T.eq (Q.names key) 1 self.old self.new }

        // The total is lower by what was removed.
        ensures len { IsShorterBy (min result 1) self.old self.new }
    {
        self.take_up_to(key, 1)
    }

    /// Removes `n` occurrences of a value, or all if there are fewer, and returns the count after. With the last occurrence the
    /// stored instance is dropped.
    ///
    /// # Complexity
    ///
    /// It hashes the key once and doesn't allocate.
    ///
    /// # Examples
    ///
    /// ```
    /// let mut bag = HashBag::new(alloc);
    /// bag.insert_many("apple", 5)?;
    /// bag.remove_up_to(&"apple", 3); // 2
    /// bag.remove_up_to(&"apple", 3); // 0
    /// Ok(())
    /// ```
    pub fn remove_up_to<Q: Key<T>>(&mut self, key: Q, n: usize) -> usize
        ensures after { result ≡ count_named (Q.names key) self.old.items - n }

        // `n` occurrences are gone, or all: only the value's slot changed. If there was none, nothing changed. Room isn't lower.
        ensures fewer { HasFewer T.eq (Q.names key) n self.old self.new }

        // The total is lower by what was removed.
        ensures len { length self.new.items + count_named (Q.names key) self.old.items ≡ length self.old.items + result }
    {
        self.take_up_to(key, n).saturating_sub(n)
    }

    // Removes `n` occurrences of a value, or all if there are fewer, and returns the count before.
    fn take_up_to<Q: Key<T>>(&mut self, key: Q, n: usize) -> usize
        ensures before { result ≡ count_named (Q.names key) self.old.items }
        ensures fewer { HasFewer T.eq (Q.names key) n self.old self.new }
        ensures len { IsShorterBy (min result n) self.old self.new }
    {
        let before = self.table.take_up_to(key, n);
        self.len -= before.min(n);
        before
    }

    /// Removes one occurrence of a value. If it was the last one, returns the stored instance in `Ok`. Else it returns in `Err` the stored
    /// instance, which stays in the bag, with the count before, or `Err(None)` if the value is absent.
    ///
    /// A caller's proof can use what is returned, but not what the bag is after the call; it can use both with [`HashBag::take_one`]. `take_one`
    /// returns no reference, so it can be called in a loop.
    ///
    /// # Complexity
    ///
    /// It hashes the key once, and twice if one of several is removed. It doesn't allocate.
    ///
    /// # Examples
    ///
    /// ```
    /// let mut bag = HashBag::new(alloc);
    /// bag.insert_many("apple", 2)?;
    /// bag.try_take(&"apple").err(); // Some(Some(("apple", 2)))
    /// bag.try_take(&"apple").ok(); // Some("apple")
    /// bag.try_take(&"apple").err(); // Some(None)
    /// Ok(())
    /// ```
    pub fn try_take<Q: Key<T>>(&mut self, key: Q) -> Result<T, Option<(&T, usize)>>
        // Once the loan is over, one occurrence of the value is gone, if there was one.
        ensures* left { sem 𝓛 (loses_one T.row S.row S.Hasher.row T.Hash S.BuildHasher S.Hasher.Hasher self.entry Q.names key) }
        ensures last { IfOk result (λ instance. stored_named (Q.names key) self.old.items ≡ Some (instance, 1)) }
        ensures others { IfErr result (LendsNotOne (Q.names key) self.old.items) }
    {
        HashBag::taken_or_lent(self.take_one(key), self, key)
    }

    // Returns what was taken, or else the instance that stays, with the count before.
    fn taken_or_lent<'a, Q: Key<T>>(
        taken: Result<T, usize>,
        bag: &'a HashBag<T, S>,
        key: Q,
    ) -> Result<T, Option<(&'a T, usize)>>
        ensures last { IfOk taken (λ instance. result ≡ Ok instance) }
        ensures absent { IfErr taken (λ before. before ≡ 0 → result ≡ Err None) }
        ensures others { IfErr taken (λ n. n ≢ 0 → IsErrAnd result (LendsCounted (Q.names key) n bag.now.items)) }
    {
        match taken {
            Ok(instance) => Ok(instance),
            Err(0) => Err(None),
            Err(before) => match bag.get(key) {
                Some((instance, _)) => Err(Some((instance, before))),
                None => Err(None),
            },
        }
    }

    /// Removes one occurrence of a value. If it was the last one, returns the stored instance in `Ok`. Else it returns in `Err` the count
    /// before, which is 0 if the value is absent: then nothing is removed.
    ///
    /// It is [`HashBag::try_take`] without the loan of the instance that stays, so its contract says what the bag is after the call.
    ///
    /// # Complexity
    ///
    /// It hashes the key once and doesn't allocate.
    ///
    /// # Examples
    ///
    /// ```
    /// let mut bag = HashBag::new(alloc);
    /// bag.insert_many("apple", 2)?;
    /// bag.take_one(&"apple").err(); // Some(2)
    /// bag.take_one(&"apple").ok(); // Some("apple")
    /// bag.take_one(&"apple").err(); // Some(0)
    /// Ok(())
    /// ```
    pub fn take_one<Q: Key<T>>(&mut self, key: Q) -> Result<T, usize>
        // One occurrence is gone, if there was one: only the value's slot changed. If there was none, nothing changed. Room isn't lower.
        ensures fewer { HasFewer T.eq (Q.names key) 1 self.old self.new }

        // The total is lower by what was removed.
        ensures len { IsShorterByTaken result self.old self.new }
        ensures last { IfOk result (λ instance. stored_named (Q.names key) self.old.items ≡ Some (instance, 1)) }
        ensures others { IfErr result (λ before. (before ≡ count_named (Q.names key) self.old.items) × (before ≢ 1)) }

        // Before the call equal occurrences were one instance, and the total was within the limit.
        ensures bag { IsBag T.eq self.old.most self.old.items }
    {
        match self.table.take_one(key) {
            Ok(instance) => {
                self.len -= 1;
                Ok(instance)
            }
            Err(before) => {
                self.len -= before.min(1);
                Err(before)
            }
        }
    }

    /// Removes a value, and returns its stored instance and its whole count, or `None` if it is absent.
    ///
    /// # Complexity
    ///
    /// It hashes the key once and doesn't allocate.
    ///
    /// # Examples
    ///
    /// ```
    /// let mut bag = HashBag::new(alloc);
    /// bag.insert_many("apple", 2)?;
    /// bag.take_all(&"apple"); // Some(("apple", 2))
    /// bag.take_all(&"apple"); // None
    /// Ok(())
    /// ```
    pub fn take_all<Q: Key<T>>(&mut self, key: Q) -> Option<(T, usize)>
        ensures taken { result ≡ stored_named (Q.names key) self.old.items }

        // All occurrences are gone: only the value's slot changed. If there was none, nothing changed. Room isn't lower.
        ensures fewer { HasFewer T.eq (Q.names key) (count_named (Q.names key) self.old.items) self.old self.new }

        // The total is lower by the returned count.
        ensures len { IsShorterByAll result self.old self.new }
    {
        let (instance, count) = self.table.remove(key)?;
        self.len -= count;
        Some((instance, count))
    }
}
