//! How the count of a value is set.
ghost use Rattle.std.specs.Prelude.{◌≡◌, ◌+◌, ◌-◌, ◌<◌, ◌≤◌, ◌↔◌, length, IfOk, IfErr, IsOk, OnErr, OnOk};
ghost use Rattle.std.specs.List.Sorted.{IsPermutation};
ghost use Rattle.hashbag_table.specs.Entries.{count_of, IsCounted};
ghost use Rattle.hashbag_table.specs.Tables.{room, KeepsRoom};
ghost use Rattle.hashbag_core.specs.Bag.{occurrences, IsPresent, total_recounted};
ghost use Rattle.hashbag_core.specs.Occurrences.{count, recount};
ghost use Rattle.hashbag_core.specs.Inserts.{Inserts, MayFail};
ghost use Rattle.hashbag_core.specs.Held.{Recounts};

use crate::bag::{BagError, HashBag};
use hashbag_table::Table;
use std::hash::{BuildHasher, Hash};

// Sets the count of a present value, or removes it if the new count is 0, and returns the count before in `Ok`. If the value is absent, or its count
// would rise by more than `more`, nothing changes, and the count is returned in `Err`: 0 if the value is absent.
fn set_or_remove<T: Eq + Hash + Drop, S: BuildHasher + Drop>(
    table: &mut Table<T, S>,
    value: &T,
    n: usize,
    more: usize,
) -> Result<usize, usize>
    requires counted { IsCounted T.eq table.old.entries }
    ensures before { IfOk result (λ before. (before ≡ count_of T.eq value.now table.old.entries) × (0 < before) × (n ≤ before + more)) }
    ensures count { IfErr result (λ before. (before ≡ count_of T.eq value.now table.old.entries) × (0 < before → before + more < n)) }
    ensures set { OnOk result (IsPermutation (recount T.eq value.now n (occurrences table.old.entries)) (occurrences table.new.entries)) }
    ensures hasher { OnOk result (table.new.hasher ≡ table.old.hasher) }
    ensures counted { OnOk result (IsCounted T.eq table.new.entries) }
    ensures slot { OnOk result (Recounts T.eq value.now n table.old.tables table.new.tables) }
    ensures room { OnOk result (KeepsRoom 0 table.old.tables table.new.tables) }
    ensures err { OnErr result (table.new ≡ table.old) }
{
    if n > 0 {
        match table.set_count(value, n, more) {
            Ok(before) => return Ok(before),
            Err(before) => return Err(before),
        }
    }
    match table.remove(value) {
        Some((former, before)) => {
            drop(former);
            return Ok(before);
        }
        None => return Err(0),
    }
}

impl<T: Eq + Hash + Drop, S: BuildHasher + Drop> HashBag<T, S> {
    ghost use Rattle.hashbag_core.specs.Bag.{IsBagOf};

    /// Sets the count of a value to `n`, and returns the count before. A present value keeps its stored instance, and the given one is dropped. An
    /// absent value is inserted. With 0 the value is removed.
    ///
    /// # Errors
    ///
    /// - `TooMany` exactly if the total, with `n` in the place of the count before, would pass the limit. That is tested first.
    /// - `Memory` if `n` isn't 0, the value is absent, there is no room, and an allocation fails.
    ///
    /// Then the bag is unchanged, and the value is dropped.
    ///
    /// # Complexity
    ///
    /// It hashes the value twice, and once if it returns `TooMany`. It allocates only if it inserts the value and there is no room. If it
    /// inserts it, up to 16 slots of an older table are carried, and each value in them is hashed once.
    ///
    /// # Examples
    ///
    /// ```
    /// let mut bag = HashBag::new(alloc);
    /// bag.set_count("apple", 3)?; // 0
    /// bag.set_count("apple", 1)?; // 3
    /// bag.set_count("apple", 0)?; // 1
    /// bag.contains(&"apple"); // 0
    /// Ok(())
    /// ```
    pub fn set_count(&mut self, value: T, n: usize) -> Result<usize, BagError>
        ensures before { IfOk result (λ before. before ≡ count T.eq value self.old.items) }
        ensures set { OnOk result (IsBagOf T.eq self.old (recount T.eq value n self.old.items) self.new) }

        // If the value was absent, it was inserted `n` times. If it was present, only its slot changed, and room isn't lower.
        ensures inserted { OnOk result (count T.eq value self.old.items ≡ 0 → Inserts T.eq value n self.old self.new) }
        ensures slot { OnOk result (IsPresent T.eq value self.old → Recounts T.eq value n self.old.tables self.new.tables) }
        ensures room { OnOk result (IsPresent T.eq value self.old → KeepsRoom 0 self.old.tables self.new.tables) }
        ensures len { OnOk result (length self.new.items + count T.eq value self.old.items ≡ length self.old.items + n) }

        // When it fails, as under `# Errors`.
        ensures too_many { (result ≡ Err BagError.TooMany) ↔ (self.old.most < total_recounted T.eq value n self.old) }
        ensures fails { IfErr result (MayFail T.eq self.old value n) }
        ensures err { OnErr result (self.new ≡ self.old) }

        // If the new total fits, it succeeds if there is room or the value is present, or `n` is 0.
        ensures takes { total_recounted T.eq value n self.old ≤ self.old.most → 0 < room self.old.tables → IsOk result }
        ensures present { total_recounted T.eq value n self.old ≤ self.old.most → IsPresent T.eq value self.old → IsOk result }
        ensures none { n ≡ 0 → IsOk result }
    {
        let before = self.contains(&value);
        if before == 0 {
            return self.insert_many(value, n);
        }
        if n > self.most - (self.len - before) {
            return Err(BagError::TooMany);
        }
        match self.recount(&value, n) {
            Ok(count) => return Ok(count),
            Err(_) => return Err(BagError::TooMany),
        }
    }

    // Sets the count of a present value, or removes it if the new count is 0, and returns the count before in `Ok`. One look-up finds what is compared
    // with the limit and what is changed. `Err`: nothing changed, since the value is absent (0), or the total would pass the limit.
    pub(crate) fn recount(&mut self, value: &T, n: usize) -> Result<usize, usize>
        ensures before { IfOk result (λ before. (before ≡ count T.eq value.now self.old.items) × (0 < before) × (total_recounted T.eq value.now n self.old ≤ self.old.most)) }
        ensures count { IfErr result (λ before. (before ≡ count T.eq value.now self.old.items) × (0 < before → self.old.most < total_recounted T.eq value.now n self.old)) }
        ensures put { OnOk result (IsBagOf T.eq self.old (recount T.eq value.now n self.old.items) self.new) }
        ensures after { OnOk result (count T.eq value.now self.new.items ≡ n) }
        ensures slot { OnOk result (Recounts T.eq value.now n self.old.tables self.new.tables) }
        ensures room { OnOk result (KeepsRoom 0 self.old.tables self.new.tables) }
        ensures len { IfOk result (λ before. length self.new.items + before ≡ length self.old.items + n) }
        ensures err { OnErr result (self.new ≡ self.old) }
    {
        match set_or_remove(&mut self.table, value, n, self.most - self.len) {
            Ok(before) => {
                self.len = self.len - before + n;
                return Ok(before);
            }
            Err(before) => return Err(before),
        }
    }
}
