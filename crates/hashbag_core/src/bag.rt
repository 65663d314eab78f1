//! `HashBag`: how often each of several values occurs.
//!
//! In clauses `self.old` is the bag before a call, `self.new` the bag after it, and `self.now` a bag that is only read. `OnOk` and `OnErr` say what
//! holds on success and on failure. `IfOk` and `IfErr` say what holds of the returned value and of the error. `×` is "and", `⊎` is "or",
//! `(x : A) ×` is "there is an x", `(x : A) →` is "for every x". `ensures*` says what holds once a loan is over: the prover uses it at the end of
//! the loan, and no proof can name it.
ghost use Rattle.std.specs.Prelude.{◌≡◌, ◌+◌, ◌<◌, ◌≤◌, ◌↔◌, [], length, true, false, None, IsTrue, IsOk, IfOk, IfErr, OnOk, OnErr};
ghost use Rattle.hashbag_table.specs.Additions.{Stores};
ghost use Rattle.hashbag_table.specs.Entries.{entry_of, count_of, IsCounted};
ghost use Rattle.hashbag_table.specs.Tables.{room};
ghost use Rattle.hashbag_core.specs.Bag.{limited, total_recounted, Lends};
ghost use Rattle.hashbag_core.specs.Occurrences.{count_named, stored_named, count, distinct_count, IsBag};
ghost use Rattle.hashbag_core.specs.Inserts.{Inserts, Replaces, MayFail};
ghost use Rattle.hashbag_core.specs.declared.bag.BagError.TheVariants.{Memory, TooMany};

mod capacity;
mod equality;
mod extends;
mod keys;
mod make;
mod recount;
mod retain;
mod spare;
mod take;

pub use extends::TryExtendError;
use hashbag_table::{Key, Table};
use std::alloc::AllocError;
use std::hash::{BuildHasher, BuildHasherDefault, FoldHasher, Hash};
use std::marker::Model;
use thiserror::Error;

/// Why a call failed.
#[derive(Clone, Copy, Debug, PartialEq, Eq, Error)]
pub enum BagError {
    /// An allocation failed, or a call would make room for more than 3 * 2^57 distinct values.
    #[error("no memory")]
    Memory,
    /// The total would pass the bag's limit.
    #[error("total past its end")]
    TooMany,
    /// The limit would be below the total.
    #[error("limit below total")]
    BelowTotal,
}

impl BagError {
    /// Returns the number by which programs report the error: 1 for `Memory`, 2 for `TooMany`, 9 for `BelowTotal`.
    ///
    /// # Examples
    ///
    /// ```
    /// BagError::TooMany.number(); // 2
    /// ```
    pub fn number(&self) -> u8
        ensures number_of_memory { self.now ≡ BagError.Memory → result ≡ 1 }
        ensures number_of_too_many { self.now ≡ BagError.TooMany → result ≡ 2 }
        ensures number_of_below_total { self.now ≡ BagError.BelowTotal → result ≡ 9 }
    {
        match self {
            BagError::Memory => 1,
            BagError::TooMany => 2,
            BagError::BelowTotal => 9,
        }
    }
}

impl From<AllocError> for BagError {
    ghost from_gives = { λ _ e. e ≡ Memory };

    fn from(_e: AllocError) -> BagError {
        BagError::Memory
    }
}

// Stores a value itself with the count 1, and returns the count before, 0 if the value was absent. If the total is at its limit, an absent value isn't
// inserted. One look-up decides both.
fn put_within<T: Eq + Hash + Drop, S: BuildHasher + Drop>(
    table: &mut Table<T, S>,
    value: T,
    at_limit: bool,
) -> Result<usize, BagError>
    ensures before { IfOk result (λ before. (before ≡ count_of T.eq value table.old.entries) × (at_limit ≡ true → 0 < before)) }
    ensures stored { OnOk result (Stores T.eq value 1 table.old table.new) }
    ensures counted { OnOk result (IsCounted T.eq table.new.entries) }
    ensures error { IfErr result (λ e. (at_limit ≡ true → e ≡ TooMany) × (at_limit ≡ false → e ≡ Memory)) }
    ensures absent { OnErr result (entry_of T.eq value table.old.entries ≡ None) }
    ensures err { OnErr result (table.new ≡ table.old) }
    ensures takes { at_limit ≡ false → 0 < room table.old.tables → IsOk result }
{
    if at_limit {
        match table.put_present(value) {
            Some(before) => return Ok(before),
            None => return Err(BagError::TooMany),
        }
    }
    match table.put_instance(value) {
        Ok(before) => return Ok(before),
        Err(_) => return Err(BagError::Memory),
    }
}

/// The state that hashes the values of a bag if no other is given. Its keys are fixed, so a bag hashes alike in every run of a
/// program.
///
/// So whoever chooses the values can choose many with the same hash. Each insertion then takes time in proportion to their number.
/// For values that strangers choose, use `HashBag::with_hasher(alloc, RandomState::new(&rt)?)`, whose keys are random.
pub type FixedState = BuildHasherDefault<FoldHasher>;

/// A bag of values, also called a counted multiset: how often each distinct value occurs.
///
/// Values that `==` calls equal are one value, which is stored once, as the instance that was inserted first. The count of a present
/// value is a `usize` of at least 1. The total of all counts is at most the bag's limit, which is `usize::MAX` if no other is set.
///
/// Contracts see a bag as the plain list of its occurrences, in an order that means nothing, and the state that hashes its values. They
/// also see the slots of its newer table, the slots of its older table that aren't carried yet, and the limit.
///
/// # Examples
///
/// ```
/// let mut words: HashBag<String> = HashBag::new(alloc);
/// for word in "the cat and the hat".split_whitespace() {
///     words.insert_key(word)?;
/// }
/// words.len(); // 5
/// words.set_len(); // 4
/// words.contains("the"); // 2
/// Ok(())
/// ```
#[derive(Drop)]
pub struct HashBag<T: Eq + Hash + Drop, S: BuildHasher + Drop = FixedState> {
    pub(crate) table: Table<T, S>,
    pub(crate) len: usize,
    most: usize,
}

impl<T: Eq + Hash + Drop, S: BuildHasher + Drop> Model for HashBag<T, S> {
    ghost use Rattle.hashbag_core.specs.Bag.{Bag, occurrences, IsTallied};

    ghost Value = { Bag T S };

    ghost view = { λ a. record { items = occurrences a.table.entries; hasher = a.table.hasher; tables = a.table.tables; most = a.most } };

    ghost invariant = { λ a. IsTallied T.eq a.table.entries a.len a.most };
}

impl<T: Eq + Hash + Drop, S: BuildHasher + Drop> HashBag<T, S> {
    /// Returns the limit: the greatest total that the bag may have.
    ///
    /// # Examples
    ///
    /// ```
    /// let bag: HashBag<u64> = HashBag::with_limit(alloc, FixedState::new(), 1_000);
    /// bag.limit(); // 1000
    /// ```
    #[inline(always)]
    pub fn limit(&self) -> usize
        ensures limit { result ≡ self.now.most }
        ensures within { length self.now.items ≤ result }
    {
        self.most
    }

    /// Sets the limit. Nothing else changes, and it doesn't allocate.
    ///
    /// # Errors
    ///
    /// `BelowTotal` if `most` is below the total. The bag is then unchanged.
    ///
    /// # Examples
    ///
    /// ```
    /// let mut bag = HashBag::new(alloc);
    /// bag.insert_many("apple", 2)?;
    /// bag.set_limit(1).err(); // Some(BelowTotal)
    /// bag.set_limit(3)?;
    /// bag.limit(); // 3
    /// Ok(())
    /// ```
    pub fn set_limit(&mut self, most: usize) -> Result<(), BagError>
        ensures set { OnOk result (self.new ≡ limited most self.old) }
        ensures below { (result ≡ Err BagError.BelowTotal) ↔ (most < length self.old.items) }
        ensures only { IfErr result (λ e. e ≡ BagError.BelowTotal) }
        ensures err { OnErr result (self.new ≡ self.old) }
    {
        if most < self.len {
            return Err(BagError::BelowTotal);
        }
        self.most = most;
        Ok(())
    }

    /// Returns the number of occurrences: the sum of all counts.
    ///
    /// # Examples
    ///
    /// ```
    /// let mut bag = HashBag::new(alloc);
    /// bag.insert_many("apple", 2)?;
    /// bag.insert("pear")?;
    /// bag.len(); // 3
    /// Ok(())
    /// ```
    pub fn len(&self) -> usize
        ensures len { result ≡ length self.now.items }

        // Equal occurrences are one instance, and the total is within the limit.
        ensures bag { IsBag T.eq self.now.most self.now.items }
    {
        self.len
    }

    /// Returns the number of distinct values.
    ///
    /// # Examples
    ///
    /// ```
    /// let mut bag = HashBag::new(alloc);
    /// bag.insert_many("apple", 2)?;
    /// bag.insert("pear")?;
    /// bag.set_len(); // 2
    /// Ok(())
    /// ```
    pub fn set_len(&self) -> usize
        ensures { result ≡ distinct_count T.eq self.now.items }
    {
        self.table.set_len()
    }

    /// Returns whether there are no occurrences.
    ///
    /// # Examples
    ///
    /// ```
    /// let mut bag = HashBag::new(alloc);
    /// bag.insert("apple")?;
    /// bag.is_empty(); // false
    /// bag.remove(&"apple");
    /// bag.is_empty(); // true
    /// Ok(())
    /// ```
    pub fn is_empty(&self) -> bool
        ensures { IsTrue result ↔ (self.now.items ≡ []) }
    {
        self.len == 0
    }

    /// Returns the state that hashes the values.
    ///
    /// # Examples
    ///
    /// ```
    /// let state = RandomState::new(&rt)?;
    /// let first: HashBag<u64, RandomState> = HashBag::with_hasher(alloc, state);
    /// let second: HashBag<u64, RandomState> = HashBag::with_hasher(alloc, *first.hasher());
    /// first.hasher().hash_one(7) == second.hasher().hash_one(7); // true
    /// Ok(())
    /// ```
    pub fn hasher(&self) -> &S
        ensures { result.now ≡ self.now.hasher }
    {
        self.table.hasher()
    }

    /// Returns the count of a value, 0 if it is absent.
    ///
    /// The value is given as a reference, or as a key that names it: `bag.contains(&value)`, `words.contains("the")`.
    ///
    /// # Complexity
    ///
    /// It hashes the key once and doesn't allocate.
    ///
    /// # Examples
    ///
    /// ```
    /// let mut bag = HashBag::new(alloc);
    /// bag.insert_many("apple", 2)?;
    /// bag.contains(&"apple"); // 2
    /// bag.contains(&"pear"); // 0
    /// Ok(())
    /// ```
    #[inline(always)]
    pub fn contains<Q: Key<T>>(&self, key: Q) -> usize
        ensures count { result ≡ count_named (Q.names key) self.now.items }

        // Equal occurrences are one instance, and the total is within the limit.
        ensures bag { IsBag T.eq self.now.most self.now.items }
    {
        match self.table.get(key) {
            Some((_, count)) => count,
            None => 0,
        }
    }

    /// Returns the stored instance of a value with its count, or `None` if the value is absent.
    ///
    /// # Complexity
    ///
    /// It hashes the key once and doesn't allocate.
    ///
    /// # Examples
    ///
    /// ```
    /// let mut bag = HashBag::new(alloc);
    /// bag.insert_many("apple", 2)?;
    /// bag.get(&"apple"); // Some(("apple", 2))
    /// bag.get(&"pear"); // None
    /// Ok(())
    /// ```
    #[inline(always)]
    pub fn get<Q: Key<T>>(&self, key: Q) -> Option<(&T, usize)>
        ensures found { Lends result (stored_named (Q.names key) self.now.items) }

        // Equal occurrences are one instance, and the total is within the limit.
        ensures bag { IsBag T.eq self.now.most self.now.items }
    {
        self.table.get(key)
    }

    /// Inserts one occurrence of a value and returns the count before: [`HashBag::insert_many`] with 1.
    ///
    /// # Errors
    ///
    /// - `TooMany` exactly if the total would pass the limit. That is tested first.
    /// - `Memory` if the value is absent, there is no room, and an allocation fails.
    ///
    /// Then the bag is unchanged, and the value is dropped.
    ///
    /// # Complexity
    ///
    /// Same as [`HashBag::insert_many`].
    ///
    /// # Examples
    ///
    /// ```
    /// let mut bag = HashBag::new(alloc);
    /// bag.insert("apple")?; // 0
    /// bag.insert("apple")?; // 1
    /// bag.contains(&"apple"); // 2
    /// Ok(())
    /// ```
    #[inline(always)]
    pub fn insert(&mut self, value: T) -> Result<usize, BagError>
        ensures before { IfOk result (λ before. before ≡ count T.eq value self.old.items) }

        // The value has one occurrence more; other values have as many as before. `Inserts` also says which slots changed.
        ensures inserted { OnOk result (Inserts T.eq value 1 self.old self.new) }

        // When it fails, as under `# Errors`.
        ensures too_many { (result ≡ Err BagError.TooMany) ↔ (self.old.most < length self.old.items + 1) }
        ensures fails { IfErr result (MayFail T.eq self.old value 1) }
        ensures err { OnErr result (self.new ≡ self.old) }

        // If the total fits, it succeeds if there is room or the value is present.
        ensures takes { length self.old.items + 1 ≤ self.old.most → 0 < room self.old.tables → IsOk result }
        ensures present { length self.old.items + 1 ≤ self.old.most → 0 < count T.eq value self.old.items → IsOk result }
    {
        self.insert_many(value, 1)
    }

    /// Inserts `n` occurrences of a value and returns the count before.
    ///
    /// If the value is present, the stored instance stays, and the given one is dropped. An insertion of 0 changes nothing and can't fail.
    ///
    /// # Errors
    ///
    /// - `TooMany` exactly if the total would pass the limit. That is tested first.
    /// - `Memory` if `n` isn't 0, the value is absent, there is no room, and an allocation fails.
    ///
    /// Then the bag is unchanged, and the value is dropped.
    ///
    /// # Complexity
    ///
    /// It hashes the value once. It allocates only if the value is absent and there is no room. If the value is absent, up to 16 slots of
    /// an older table are carried, and each value in them is hashed once.
    ///
    /// # Examples
    ///
    /// ```
    /// let mut bag = HashBag::new(alloc);
    /// bag.insert_many("apple", 3)?; // 0
    /// bag.insert_many("apple", 2)?; // 3
    /// bag.insert_many("apple", usize::MAX).err(); // Some(TooMany)
    /// bag.len(); // 5
    /// Ok(())
    /// ```
    #[inline(always)]
    pub fn insert_many(&mut self, value: T, n: usize) -> Result<usize, BagError>
        ensures before { IfOk result (λ before. before ≡ count T.eq value self.old.items) }

        // The value has `n` occurrences more; other values have as many as before. `Inserts` also says which slots changed.
        ensures inserted { OnOk result (Inserts T.eq value n self.old self.new) }

        // When it fails, as under `# Errors`.
        ensures too_many { (result ≡ Err BagError.TooMany) ↔ (self.old.most < length self.old.items + n) }
        ensures fails { IfErr result (MayFail T.eq self.old value n) }
        ensures err { OnErr result (self.new ≡ self.old) }

        // If the total fits, it succeeds if there is room or the value is present, or `n` is 0.
        ensures takes { length self.old.items + n ≤ self.old.most → 0 < room self.old.tables → IsOk result }
        ensures present { length self.old.items + n ≤ self.old.most → 0 < count T.eq value self.old.items → IsOk result }
        ensures none { n ≡ 0 → IsOk result }
    {
        if n > self.most - self.len {
            return Err(BagError::TooMany);
        }
        if n == 0 {
            return Ok(self.contains(&value));
        }
        let before = self.table.add(value, n)?;
        self.len += n;
        // Only for the proof: it uses the clause `entries` of `Table::show_invariant`.
        self.table.show_invariant();
        Ok(before)
    }

    /// Replaces all occurrences of a value by the given instance, with the count 1, and returns the count before. The instance that was
    /// stored is dropped.
    ///
    /// # Errors
    ///
    /// - `TooMany` exactly if the total would pass the limit. That is tested first, and can't happen if the value is present.
    /// - `Memory` if the value is absent, there is no room, and an allocation fails.
    ///
    /// Then the bag is unchanged, and the value is dropped.
    ///
    /// # Complexity
    ///
    /// It hashes the value once. It allocates only if the value is absent and there is no room. If the value is absent, up to 16 slots of an older table are carried, and each value in them is hashed once.
    ///
    /// # Examples
    ///
    /// ```
    /// let mut bag = HashBag::new(alloc);
    /// bag.insert_many("apple", 3)?;
    /// bag.replace("apple")?; // 3
    /// bag.contains(&"apple"); // 1
    /// Ok(())
    /// ```
    pub fn replace(&mut self, value: T) -> Result<usize, BagError>
        ensures before { IfOk result (λ before. before ≡ count T.eq value self.old.items) }

        // The given instance is the value's only occurrence; other values have as many as before. `Replaces` also says which slots changed.
        ensures replaced { OnOk result (Replaces T.eq value self.old self.new) }

        // When it fails, as under `# Errors`.
        ensures too_many { (result ≡ Err BagError.TooMany) ↔ (self.old.most < total_recounted T.eq value 1 self.old) }
        ensures fails { IfErr result (MayFail T.eq self.old value 1) }
        ensures absent { OnErr result (count T.eq value self.old.items ≡ 0) }
        ensures err { OnErr result (self.new ≡ self.old) }

        // If the new total fits, it succeeds if there is room.
        ensures takes { total_recounted T.eq value 1 self.old ≤ self.old.most → 0 < room self.old.tables → IsOk result }
    {
        let at_limit = self.len == self.most;
        match put_within(&mut self.table, value, at_limit) {
            Ok(before) => {
                self.len = self.len - before + 1;
                return Ok(before);
            }
            Err(error) => return Err(error),
        }
    }

    // Inserts `n` occurrences of a value, if the total stays within the limit.
    pub(crate) fn insert_within(&mut self, value: T, n: usize) -> Result<(), BagError>
        ensures inserted { OnOk result (Inserts T.eq value n self.old self.new) }
        ensures fails { IfErr result (MayFail T.eq self.old value n) }
        ensures err { OnErr result (self.new ≡ self.old) }
    {
        self.insert_many(value, n)?;
        Ok(())
    }

    // Inserts one or more occurrences of an absent value.
    pub(crate) fn insert_new(&mut self, value: T, n: usize) -> Result<(), BagError>
        requires absent { count T.eq value self.old.items ≡ 0 }
        requires positive { 0 < n }
        requires fits { length self.old.items + n ≤ self.old.most }
        ensures inserted { OnOk result (Inserts T.eq value n self.old self.new) }
        ensures memory { IfErr result (λ e. e ≡ BagError.Memory) }
        ensures err { OnErr result (self.new ≡ self.old) }

        // It succeeds if there is room.
        ensures takes { 0 < room self.old.tables → IsOk result }
    {
        self.table.insert_new(value, n)?;
        self.len += n;
        // Only for the proof: it uses the clause `entries` of `Table::show_invariant`.
        self.table.show_invariant();
        Ok(())
    }
}
