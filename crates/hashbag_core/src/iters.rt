//! Walks over a bag: what it holds, one after another.
//!
//! A walk gives the values in no particular order. It knows how many items are left, and after the last one it gives `None` for good.
//!
//! In clauses most walks are the list of the items that are left. `YieldsFirst (λ s. s)` says that `next` gives the first item of that list.
//! `lower` and `upper` are clauses of the trait `Iterator`: the number of items left is within both bounds.
ghost use Rattle.std.specs.Prelude.{◌≡◌, length, Some, IfSome, ⊤};
ghost use Rattle.std.specs.Borrow.{sem};
ghost use Rattle.std.specs.Iterator.{YieldsFirst, YieldsFirstBy, YieldsFirstRef, item_count, at_most, UpTo};
ghost use Rattle.std.specs.Iterator.SizeHint.{IsWithinCount};
ghost use Rattle.hashbag_core.specs.Drain.{drain_rest, empties};
ghost use Rattle.hashbag_core.specs.Walks.{IsSetWalkOf, IsWalkOf};

use crate::bag::HashBag;
use hashbag_table::walk::{DrainWalk, IntoWalk, Walk};
use std::alloc::AllocError;
use std::fmt::{self, Debug, Formatter, Write};
use std::hash::{BuildHasher, Hash};
use std::iter::ExactSizeIterator;
use std::marker::Model;

/// The occurrences of a bag that is lent: [`HashBag::iter`].
///
/// Contracts see it as the list of the occurrences that are left.
#[derive(Drop)]
pub struct Iter<'a, T> {
    // The entries after the current one.
    walk: Walk<'a, T>,
    // The current value, and how many of its occurrences are left.
    at: Option<(&'a T, usize)>,
    // How many occurrences of all values are left.
    to_come: usize,
}

impl<'a, T> Model for Iter<'a, T> {
    ghost use Rattle.std.specs.Prelude.{List};
    ghost use Rattle.hashbag_core.specs.Iter.{occurrences_left, IsPending};

    ghost Value = { List T };

    ghost view = { λ a. occurrences_left a.at a.walk };

    ghost invariant = { λ a. IsPending a.at a.walk a.to_come };
}

impl<'a, T> Clone for Iter<'a, T> {
    ghost is_clone = { λ s r. r ≡ s };

    ghost is_infallible = { λ _. ⊤ };

    /// Returns a walk that goes on from the same place. It doesn't allocate and can't fail.
    ///
    /// # Examples
    ///
    /// ```
    /// let mut bag = HashBag::new(alloc);
    /// bag.insert_many("apple", 3)?;
    /// let mut walk = bag.iter();
    /// walk.next(); // Some("apple")
    /// walk.clone()?.count(); // 2
    /// walk.count(); // 2
    /// Ok(())
    /// ```
    fn clone(&self) -> Result<Iter<'a, T>, AllocError> {
        Ok(Iter {
            walk: self.walk.clone()?,
            at: self.at,
            to_come: self.to_come,
        })
    }
}

impl<'a, T> Iterator for Iter<'a, T> {
    type Item = &'a T;

    ghost next_gives = { YieldsFirstRef (λ s. s) };

    ghost remaining = { item_count (λ s. s) };

    fn next(&mut self) -> Option<&'a T> {
        if let Some((value, count)) = self.at {
            if count > 0 {
                self.at = Some((value, count - 1));
                self.to_come -= 1;
                return Some(value);
            }
        }
        let (value, count) = self.walk.next()?;
        self.at = Some((value, count - 1));
        self.to_come -= 1;
        Some(value)
    }

    fn size_hint(&self) -> (usize, Option<usize>)
        ensures lower { IsWithinCount result.0 (at_most (length self.now)) }
        ensures upper { IfSome result.1 (UpTo (at_most (length self.now))) }
        ensures exact { result ≡ (length self.now, Some (length self.now)) }
    {
        (self.to_come, Some(self.to_come))
    }
}

impl<'a, T> ExactSizeIterator for Iter<'a, T> {
    fn len(&self) -> usize {
        self.to_come
    }
}

impl<'a, T: Debug> Debug for Iter<'a, T> {
    /// Writes the occurrences that are left in the form of a set: `{5, 5, 5}`.
    fn fmt<W: Write>(&self, f: &mut Formatter<W>) -> fmt::Result {
        f.debug_set().entries(self.clone().unwrap()).finish()
    }
}

/// The distinct values of a bag that is lent, each with its count: [`HashBag::set_iter`].
///
/// Contracts see it as the list of the values that are left, with their counts.
#[derive(Drop)]
pub struct SetIter<'a, T> {
    walk: Walk<'a, T>,
}

impl<'a, T> Model for SetIter<'a, T> {
    ghost use Rattle.std.specs.Prelude.{ℕ, List};

    ghost Value = { List (T × ℕ) };

    ghost view = { λ a. a.walk };
}

impl<'a, T> Clone for SetIter<'a, T> {
    ghost is_clone = { λ s r. r ≡ s };

    ghost is_infallible = { λ _. ⊤ };

    /// Returns a walk that goes on from the same place. It doesn't allocate and can't fail.
    ///
    /// # Examples
    ///
    /// ```
    /// let mut bag = HashBag::new(alloc);
    /// bag.insert_many("apple", 3)?;
    /// let mut walk = bag.set_iter();
    /// walk.clone()?.next(); // Some(("apple", 3))
    /// walk.next(); // Some(("apple", 3))
    /// Ok(())
    /// ```
    fn clone(&self) -> Result<SetIter<'a, T>, AllocError> {
        Ok(SetIter {
            walk: self.walk.clone()?,
        })
    }
}

impl<'a, T> Iterator for SetIter<'a, T> {
    type Item = (&'a T, usize);

    ghost next_gives = { YieldsFirstBy (λ e. (e.0.now, e.1)) (λ s. s) };

    ghost remaining = { item_count (λ s. s) };

    #[inline(always)]
    fn next(&mut self) -> Option<(&'a T, usize)> {
        self.walk.next()
    }

    fn size_hint(&self) -> (usize, Option<usize>)
        ensures lower { IsWithinCount result.0 (at_most (length self.now)) }
        ensures upper { IfSome result.1 (UpTo (at_most (length self.now))) }
        ensures exact { result ≡ (length self.now, Some (length self.now)) }
    {
        self.walk.size_hint()
    }
}

impl<'a, T> ExactSizeIterator for SetIter<'a, T> {
    fn len(&self) -> usize {
        self.walk.len()
    }
}

impl<'a, T: Debug> Debug for SetIter<'a, T> {
    /// Writes the values that are left, with their counts, as a set of pairs, as `{(5, 3)}`.
    fn fmt<W: Write>(&self, f: &mut Formatter<W>) -> fmt::Result {
        f.debug_set().entries(self.clone().unwrap()).finish()
    }
}

/// The distinct values that were removed from a bag, by value, each with its count: [`HashBag::drain`].
///
/// Contracts see the list of the values that are left, with their counts, as `drain_rest`.
pub struct Drain<'a, T> {
    drained: DrainWalk<'a, T>,
}

impl<'a, T: Drop> Drop for Drain<'a, T> {
    fn drop(self) {
        let Drain { drained } = self;
        drop(drained);
    }
}

impl<'a, T: Drop> Iterator for Drain<'a, T> {
    type Item = (T, usize);

    ghost next_gives = { YieldsFirst drain_rest };

    ghost remaining = { item_count drain_rest };

    fn next(&mut self) -> Option<(T, usize)> {
        self.drained.next()
    }

    fn size_hint(&self) -> (usize, Option<usize>)
        ensures lower { IsWithinCount result.0 (at_most (length (drain_rest self.now))) }
        ensures upper { IfSome result.1 (UpTo (at_most (length (drain_rest self.now)))) }
        ensures exact { result ≡ (length (drain_rest self.now), Some (length (drain_rest self.now))) }
    {
        self.drained.size_hint()
    }
}

impl<'a, T: Drop> ExactSizeIterator for Drain<'a, T> {
    fn len(&self) -> usize {
        self.drained.len()
    }
}

impl<'a, T> Drain<'a, T> {
    /// Returns a walk over references to what is left. This walk doesn't advance. Neither this call nor a step of either walk allocates or hashes.
    ///
    /// # Examples
    ///
    /// ```
    /// let mut bag = HashBag::new(alloc);
    /// bag.insert_many("apple", 2)?;
    /// let drain = bag.drain();
    /// drain.rest().len(); // 1
    /// Ok(())
    /// ```
    pub fn rest(&self) -> SetIter<'_, T>
        ensures { result ≡ drain_rest self.now }
    {
        SetIter {
            walk: self.drained.rest(),
        }
    }
}

impl<'a, T: Debug> Debug for Drain<'a, T> {
    /// Writes the values that are left, with their counts, as a list of pairs, as `[(5, 3)]`.
    fn fmt<W: Write>(&self, f: &mut Formatter<W>) -> fmt::Result {
        f.debug_list().entries(self.rest()).finish()
    }
}

/// The distinct values of a bag that was used up, by value, each with its count. Values that aren't read are dropped with the walk.
///
/// Contracts see it as the list of the values that are left, with their counts.
pub struct IntoIter<T> {
    owned: IntoWalk<T>,
}

impl<T> Model for IntoIter<T> {
    ghost use Rattle.std.specs.Prelude.{ℕ, List};

    ghost Value = { List (T × ℕ) };

    ghost view = { λ a. a.owned };
}

impl<T: Drop> Drop for IntoIter<T> {
    fn drop(self) {
        let IntoIter { owned } = self;
        drop(owned);
    }
}

impl<T: Drop> Iterator for IntoIter<T> {
    type Item = (T, usize);

    ghost next_gives = { YieldsFirst (λ s. s) };

    ghost remaining = { item_count (λ s. s) };

    #[inline(always)]
    fn next(&mut self) -> Option<(T, usize)> {
        self.owned.next()
    }

    fn size_hint(&self) -> (usize, Option<usize>)
        ensures lower { IsWithinCount result.0 (at_most (length self.now)) }
        ensures upper { IfSome result.1 (UpTo (at_most (length self.now))) }
        ensures exact { result ≡ (length self.now, Some (length self.now)) }
    {
        self.owned.size_hint()
    }
}

impl<T: Drop> ExactSizeIterator for IntoIter<T> {
    fn len(&self) -> usize {
        self.owned.len()
    }
}

impl<T> IntoIter<T> {
    /// Returns a walk over references to what is left. This walk doesn't advance. Neither this call nor a step of either walk allocates or hashes.
    ///
    /// # Examples
    ///
    /// ```
    /// let mut bag = HashBag::new(alloc);
    /// bag.insert_many("apple", 2)?;
    /// let mut walk = bag.into_iter();
    /// walk.rest().next(); // Some(("apple", 2))
    /// walk.next(); // Some(("apple", 2))
    /// Ok(())
    /// ```
    pub fn rest(&self) -> SetIter<'_, T>
        ensures { result ≡ self.now }
    {
        SetIter {
            walk: self.owned.rest(),
        }
    }
}

impl<T: Debug> Debug for IntoIter<T> {
    /// Writes the values that are left, with their counts, as a list of pairs, as `[(5, 3)]`.
    fn fmt<W: Write>(&self, f: &mut Formatter<W>) -> fmt::Result {
        f.debug_list().entries(self.rest()).finish()
    }
}

impl<T: Eq + Hash + Drop, S: BuildHasher + Drop> HashBag<T, S> {
    /// Walks over the `len()` occurrences. All occurrences of a value are given, each as the stored instance, before the next value.
    ///
    /// # Complexity
    ///
    /// Neither this call nor a step of the walk allocates or hashes.
    ///
    /// # Examples
    ///
    /// ```
    /// let mut bag = HashBag::new(alloc);
    /// bag.insert_many("apple", 2)?;
    /// let mut walk = bag.iter();
    /// walk.next(); // Some("apple")
    /// walk.next(); // Some("apple")
    /// walk.next(); // None
    /// Ok(())
    /// ```
    pub fn iter(&self) -> Iter<'_, T>
        ensures { IsWalkOf T.eq self.now result }
    {
        Iter {
            walk: self.table.walk(),
            at: None,
            to_come: self.len,
        }
    }

    /// Walks over the distinct values: each stored instance once, with its count. The counts add up to `len()`.
    ///
    /// # Complexity
    ///
    /// Neither this call nor a step of the walk allocates or hashes.
    ///
    /// # Examples
    ///
    /// ```
    /// let mut bag = HashBag::new(alloc);
    /// bag.insert_many("apple", 2)?;
    /// bag.insert("pear")?;
    /// let mut most = 0;
    /// for (_, count) in bag.set_iter() {
    ///     most = count.max(most);
    /// }
    /// most; // 2
    /// Ok(())
    /// ```
    pub fn set_iter(&self) -> SetIter<'_, T>
        ensures { IsSetWalkOf T.eq self.now result }
    {
        SetIter {
            walk: self.table.walk(),
        }
    }

    /// Removes everything, and walks over the distinct values: each stored instance once, by value, with its count.
    ///
    /// The bag is empty at once, has no slots, and keeps its state, however many values are then read. Unread values are dropped with the walk.
    ///
    /// # Complexity
    ///
    /// Neither this call nor a step of the walk allocates or hashes.
    ///
    /// # Examples
    ///
    /// ```
    /// let mut bag = HashBag::new(alloc);
    /// bag.insert_many("apple", 2)?;
    /// let pairs: Vec<(&str, usize)> = bag.drain().collect(alloc)?;
    /// pairs.as_slice(); // [("apple", 2)]
    /// bag.is_empty(); // true
    /// Ok(())
    /// ```
    pub fn drain(&mut self) -> Drain<'_, T>
        // Once the loan is over, the bag has no occurrences and no slots. It has the same state and limit as before.
        ensures* ends_empty { sem 𝓛 (empties T.row S.row S.Hasher.row T.Hash S.BuildHasher S.Hasher.Hasher self.entry result) }

        // The walk gives each value that was in the bag once, with its count.
        ensures set_walk { IsSetWalkOf T.eq self.old (drain_rest result) }
    {
        self.len = 0;
        Drain {
            drained: self.table.drain(),
        }
    }
}

impl<'a, T: Eq + Hash + Drop, S: BuildHasher + Drop> IntoIterator for &'a HashBag<T, S> {
    type Item = &'a T;

    type IntoIter = Iter<'a, T>;

    ghost into_iter_gives = { λ bag r. IsWalkOf T.eq bag.now r };

    /// Walks over the occurrences, as [`HashBag::iter`] does.
    ///
    /// # Examples
    ///
    /// ```
    /// let mut bag = HashBag::new(alloc);
    /// bag.insert_many("apple", 2)?;
    /// bag.insert("pear")?;
    /// let mut longest = 0;
    /// for word in &bag {
    ///     longest = word.len().max(longest);
    /// }
    /// longest; // 5
    /// Ok(())
    /// ```
    fn into_iter(self) -> Iter<'a, T> {
        self.iter()
    }
}

impl<T: Eq + Hash + Drop, S: BuildHasher + Drop> IntoIterator for HashBag<T, S> {
    type Item = (T, usize);

    type IntoIter = IntoIter<T>;

    ghost into_iter_gives = { λ bag r. IsSetWalkOf T.eq bag r };

    /// Turns the bag into a walk over its distinct values: each stored instance once, by value, with its count. Unread values are dropped
    /// with the walk.
    ///
    /// # Complexity
    ///
    /// Neither this call nor a step of the walk allocates or hashes.
    ///
    /// # Examples
    ///
    /// ```
    /// let mut first = HashBag::new(alloc);
    /// first.insert_many("apple", 2)?;
    /// let mut second = HashBag::new(alloc);
    /// for (value, count) in first {
    ///     second.insert_many(value, count)?;
    /// }
    /// second.contains(&"apple"); // 2
    /// Ok(())
    /// ```
    fn into_iter(self) -> IntoIter<T> {
        let HashBag { table, .. } = self;
        IntoIter {
            owned: table.into_walk(),
        }
    }
}

impl<T: Eq + Hash + Drop + Debug, S: BuildHasher + Drop> Debug for HashBag<T, S> {
    /// Writes the occurrences in the form of a set: `{5, 5, 5}`.
    ///
    /// # Examples
    ///
    /// ```
    /// let mut bag = HashBag::new(alloc);
    /// bag.insert_many("apple", 2)?;
    /// format!(in alloc; "{bag:?}")?; // {"apple", "apple"}
    /// Ok(())
    /// ```
    fn fmt<W: Write>(&self, f: &mut Formatter<W>) -> fmt::Result {
        f.debug_set().entries(self.iter()).finish()
    }
}
