//! Additions by keys: by what names a value, as a text names a `String`.
ghost use Rattle.std.specs.Prelude.{◌≡◌, ◌+◌, ◌-◌, ◌<◌, ◌≤◌, ◌^◌, true, None, IfOk, OnOk, OnErr, IsTrue};
ghost use Rattle.hashbag_slots.specs.Probed.{IfAbsent, IfFull};
ghost use Rattle.hashbag_slots.specs.Hashing.{hash_under};
ghost use Rattle.hashbag_slots.specs.Slots.{IsAbsent, IsFirstFree, recounted};
ghost use Rattle.hashbag_table.specs.Entries.{with_fewer, IsCounted};
ghost use Rattle.hashbag_table.specs.Additions.{AddsNamed};
ghost use Rattle.hashbag_table.specs.Named.{named_entry, named_count};
ghost use Rattle.hashbag_table.specs.Table.{IsMapOf};
ghost use Rattle.hashbag_table.specs.Tables.{KeepsRoom, Rewrites};

use crate::key::{Key, ToValue};
use crate::table::{Spot, Table};
use hashbag_slots::slots::{Probed, Slot};
use std::alloc::AllocError;
use std::hash::{BuildHasher, Hash};

impl<T: Eq + Hash + Drop, S: BuildHasher + Drop> Table<T, S> {
    // The slow path of `add_key`, if the newer table doesn't have a value that the key names. `first` is what a probe of that table showed.
    #[inline(never)]
    fn add_key_slow<Q: ToValue<T>>(
        &mut self,
        hash: u64,
        key: Q,
        n: usize,
        first: Probed,
    ) -> Result<usize, AllocError>
        requires hashed { hash ≡ hash_under Q.hash_input S.BuildHasher S.Hasher.Hasher self.old.hasher key }
        requires shown { IfAbsent first (λ _. IsAbsent (Q.names key) self.old.tables.newer) }
        requires free { IfAbsent first (IsFirstFree hash self.old.tables.newer) }
        requires full { IfFull first (IsAbsent (Q.names key) self.old.tables.newer) }
        requires positive { 0 < n }
        requires fits { named_count (Q.names key) self.old.entries + n < 2 ^ 64 }
        ensures before { IfOk result (λ before. before ≡ named_count (Q.names key) self.old.entries) }
        ensures added { OnOk result (AddsNamed T.eq (Q.names key) n self.old self.new) }
        ensures counted { IsCounted T.eq self.new.entries }
        ensures absent { OnErr result (named_entry (Q.names key) self.old.entries ≡ None) }
        ensures err { OnErr result (self.new ≡ self.old) }
    {
        self.show_invariant();
        if let Some(spot) = self.spot_after_probe(hash, key, first) {
            let before = self.raise_spot(spot, n);
            return Ok(before);
        }
        let value = key.to_value(self.alloc)?;
        self.insert_probed(hash, value, n, first)?;
        Ok(0)
    }

    /// Adds `n` to the count of the value that a key names and returns the count before, 0 if the value was absent. If the value is
    /// present, the stored instance stays. If it is absent, it is built from the key and inserted.
    ///
    /// # Errors
    ///
    /// `AllocError` if the value is absent, and an allocation for it or for slots fails. The table is then unchanged.
    ///
    /// # Complexity
    ///
    /// It hashes the key once, and each value that it carries. A present value allocates nothing.
    #[inline(always)]
    pub fn add_key<Q: ToValue<T>>(&mut self, key: Q, n: usize) -> Result<usize, AllocError>
        requires positive { 0 < n }
        requires fits { named_count (Q.names key) self.old.entries + n < 2 ^ 64 }
        ensures before { IfOk result (λ before. before ≡ named_count (Q.names key) self.old.entries) }

        // `n` of some value that the key names were added. `AddsNamed` also says which slots changed.
        ensures added { OnOk result (AddsNamed T.eq (Q.names key) n self.old self.new) }

        // No two values are equal, and each count is at least 1.
        ensures counted { IsCounted T.eq self.new.entries }
        ensures absent { OnErr result (named_entry (Q.names key) self.old.entries ≡ None) }
        ensures err { OnErr result (self.new ≡ self.old) }
    {
        let hash = self.hash(key);
        let first = self.probe_path(hash, key);
        if let Probed::Found(place) = first {
            let before = self.raise_spot(Spot::Newer(place), n);
            return Ok(before);
        }
        self.add_key_slow(hash, key, n, first)
    }
}
