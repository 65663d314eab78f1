//! Look-ups: the spot of a value in the two tables of slots, what is there, and what is changed there.
ghost use Rattle.std.specs.Prelude.{◌≡◌, ◌+◌, ◌-◌, ◌<◌, ◌≤◌, ◌^◌, ℕ, [], ◌∷◌, true, false, length, Some, None, IfSome, IfNone, IfOk, IfErr, OnErr, IsSome, slice_set, option_map};
ghost use Rattle.std.specs.List.Sorted.{IsPermutation};
ghost use Rattle.hashbag_slots.specs.Probed.{IfFound, IfAbsent, IfFull};
ghost use Rattle.hashbag_slots.specs.Hashing.{hash_under};
ghost use Rattle.hashbag_slots.specs.Slots.{IsEntryPlace, is_live, HoldsAt, IsAbsent, IsFirstFree, recounted, holds, slot_at, count_in};
ghost use Rattle.hashbag_slots.specs.Columns.{IsReached, HashesAlike};
ghost use Rattle.hashbag_table.specs.Entries.{entry_of, IsCounted};
ghost use Rattle.hashbag_table.specs.Named.{named_entry};
ghost use Rattle.hashbag_table.specs.Tables.{slot_in, HoldsIn, IfEntry, Writes, Swaps};
ghost use Rattle.hashbag_table.specs.Table.{IsEntrySpot};

use crate::table::{Spot, Table};
use hashbag_slots::key::Key;
use hashbag_slots::slots::find::MOST_CACHED;
use hashbag_slots::slots::{Probed, Slot, Slots, hash_of};
use std::hash::{BuildHasher, Hash};

// Stores another equal instance at a place, with the count 1, and returns the former one.
fn store_once<T: Eq>(slots: &mut Slots<T>, place: usize, value: T) -> T
    requires equal { holds (T.eq value) (slot_at slots.old.slots place) ≡ true }
    ensures former { slot_at slots.old.slots place ≡ Slot.Live result (count_in (slot_at slots.old.slots place)) }
    ensures after { slots.new.slots ≡ slice_set slots.old.slots place (Slot.Live value 1) }
    ensures reached { (hash : T → ℕ) → HashesAlike T.eq hash → IsReached hash slots.old → IsReached hash slots.new }
{
    let former = slots.put_at(place, value);
    slots.set_at(place, 1);
    former
}

// Returns the place in the older table of the value that a key names, if its home isn't before `edge`.
#[inline(always)]
fn find_waiting<T: Eq + Hash, S: BuildHasher, Q: Key<T>>(
    older: &Slots<T>,
    edge: usize,
    state: &S,
    hash: u64,
    key: Q,
) -> Option<usize>
    requires within { edge ≤ length older.now.slots }
    requires not_live { (p : ℕ) → p < edge → is_live (slot_at older.now.slots p) ≡ false }
    requires ends { 0 < edge → slot_at older.now.slots (edge - 1) ≡ Slot.Empty }
    requires hashed { hash ≡ hash_under Q.hash_input S.BuildHasher S.Hasher.Hasher state.now key }
    requires reached { IsReached (hash_under T.hash_input S.BuildHasher S.Hasher.Hasher state.now) older.now }
    ensures found { IfSome result (HoldsAt (Q.names key) older.now.slots) }
    ensures map { IsEntryPlace (Q.names key) older.now.slots result }
{
    if older.slots() == 0 || older.home(hash) < edge {
        return None;
    }
    older.find_hashed(state, hash, key)
}

impl<T: Eq + Hash + Drop, S: BuildHasher + Drop> Table<T, S> {
    // Returns the hash of a key under the table's own state. A hash under another state wouldn't find the value.
    #[inline(always)]
    pub(super) fn hash<Q: Key<T>>(&self, key: Q) -> u64
        ensures { result ≡ hash_under Q.hash_input S.BuildHasher S.Hasher.Hasher self.now.hasher key }
    {
        hash_of(&self.hasher, key)
    }

    /// Returns the stored instance of the value that a key names and its count, or `None` if there is none.
    ///
    /// # Complexity
    ///
    /// It hashes the key once for both tables and doesn't allocate.
    #[inline(always)]
    pub fn get<Q: Key<T>>(&self, key: Q) -> Option<(&T, usize)>
        ensures found { option_map (λ e. (e.0.now, e.1)) result ≡ named_entry (Q.names key) self.now.entries }

        // No two values are equal, and each count is at least 1.
        ensures counted { IsCounted T.eq self.now.entries }
    {
        let hash = self.hash(key);
        let mask = self.quick;
        if mask < MOST_CACHED {
            match self.newer.find_small(mask, hash, key) {
                Some(place) => return Some(self.newer.live_at(place)),
                None => return None,
            }
        }
        if self.older.slots() == 0 {
            match self.newer.find_large(hash, key) {
                Some(place) => return Some(self.newer.live_at(place)),
                None => return None,
            }
        }
        match self.spot_slow(hash, key) {
            Some(Spot::Newer(place)) => Some(self.newer.live_at(place)),
            Some(Spot::Waiting(place)) => {
                // Only for the proof: it uses the clauses `value` and `bound` of `Slots::slots`.
                let _slots = self.older.slots();
                Some(self.older.live_at(self.carried_to + place))
            }
            None => None,
        }
    }

    // Returns the spot of the value that a key names, in tables of any size. While slots wait, most values are in the older table, if it still has those
    // of their home.
    #[inline(never)]
    fn spot_slow<Q: Key<T>>(&self, hash: u64, key: Q) -> Option<Spot>
        requires hashed { hash ≡ hash_under Q.hash_input S.BuildHasher S.Hasher.Hasher self.now.hasher key }
        ensures map { IsEntrySpot (Q.names key) self.now result }
        ensures held { IfSome result (HoldsIn (Q.names key) self.now.tables) }
        ensures counted { IsCounted T.eq self.now.entries }
    {
        if let Some(place) = find_waiting(&self.older, self.edge, &self.hasher, hash, key) {
            return Some(Spot::Waiting(place - self.carried_to));
        }
        match self.newer.find_hashed(&self.hasher, hash, key) {
            Some(place) => Some(Spot::Newer(place)),
            None => None,
        }
    }

    // Returns the spot in the older table of the value that a key names. The newer table must not have the value.
    #[inline(always)]
    fn waiting_spot<Q: Key<T>>(&self, hash: u64, key: Q) -> Option<Spot>
        requires hashed { hash ≡ hash_under Q.hash_input S.BuildHasher S.Hasher.Hasher self.now.hasher key }
        requires absent { IsAbsent (Q.names key) self.now.tables.newer }
        ensures map { IsEntrySpot (Q.names key) self.now result }
        ensures held { IfSome result (HoldsIn (Q.names key) self.now.tables) }
    {
        match find_waiting(&self.older, self.edge, &self.hasher, hash, key) {
            Some(place) => Some(Spot::Waiting(place - self.carried_to)),
            None => None,
        }
    }

    // Returns the spot of the value that a key names. `hash` is the key's hash.
    #[inline(always)]
    pub(super) fn spot_of<Q: Key<T>>(&self, hash: u64, key: Q) -> Option<Spot>
        requires hashed { hash ≡ hash_under Q.hash_input S.BuildHasher S.Hasher.Hasher self.now.hasher key }
        ensures map { IsEntrySpot (Q.names key) self.now result }
        ensures held { IfSome result (HoldsIn (Q.names key) self.now.tables) }
        ensures counted { IsCounted T.eq self.now.entries }
    {
        let mask = self.quick;
        if mask < MOST_CACHED {
            match self.newer.find_small(mask, hash, key) {
                Some(place) => return Some(Spot::Newer(place)),
                None => return None,
            }
        }
        if self.older.slots() == 0 {
            match self.newer.find_large(hash, key) {
                Some(place) => return Some(Spot::Newer(place)),
                None => return None,
            }
        }
        self.spot_slow(hash, key)
    }

    // Returns the spot of the value that a key names. `first` is what a probe of the newer table showed. Unless that was the value, the newer table isn't
    // probed again.
    #[inline(always)]
    pub(super) fn spot_after_probe<Q: Key<T>>(
        &self,
        hash: u64,
        key: Q,
        first: Probed,
    ) -> Option<Spot>
        requires hashed { hash ≡ hash_under Q.hash_input S.BuildHasher S.Hasher.Hasher self.now.hasher key }
        requires shown { IfAbsent first (λ _. IsAbsent (Q.names key) self.now.tables.newer) }
        requires full { IfFull first (IsAbsent (Q.names key) self.now.tables.newer) }
        ensures map { IsEntrySpot (Q.names key) self.now result }
        ensures held { IfSome result (HoldsIn (Q.names key) self.now.tables) }
    {
        match first {
            Probed::Found(_) => return self.spot_of(hash, key),
            Probed::Absent(_) => return self.waiting_spot(hash, key),
            Probed::Full => return self.waiting_spot(hash, key),
        }
    }

    // Returns what a probe of the newer table along a key's path shows.
    #[inline(always)]
    pub(super) fn probe_path<Q: Key<T>>(&self, hash: u64, key: Q) -> Probed
        requires hashed { hash ≡ hash_under Q.hash_input S.BuildHasher S.Hasher.Hasher self.now.hasher key }
        ensures map { IfFound result (λ p. IsEntrySpot (Q.names key) self.now (Some (Spot.Newer p))) }
        ensures held { IfFound result (λ p. HoldsIn (Q.names key) self.now.tables (Spot.Newer p)) }
        ensures absent { IfAbsent result (λ _. IsAbsent (Q.names key) self.now.tables.newer) }
        ensures free { IfAbsent result (IsFirstFree hash self.now.tables.newer) }
        ensures full { IfFull result (IsAbsent (Q.names key) self.now.tables.newer) }
        ensures counted { IsCounted T.eq self.now.entries }
    {
        self.show_invariant();
        self.newer.probe_path(&self.hasher, hash, key)
    }

    // Sets the count of the value at a spot.
    #[inline(always)]
    pub(super) fn set_spot(&mut self, spot: Spot, n: usize)
        requires live { is_live (slot_in self.old.tables spot) ≡ true }
        requires positive { 0 < n }
        ensures after { Writes spot (recounted n (slot_in self.old.tables spot)) self.old.tables self.new.tables }
        ensures map { IfEntry self.old.tables spot (λ e. Swaps self.old.entries self.new.entries e ((e.0, n) ∷ [])) }
        ensures hasher { self.new.hasher ≡ self.old.hasher }
        ensures counted { IsCounted T.eq self.new.entries }
    {
        // Only for the proof: it uses the clauses `value` and `bound` of `Slots::slots`.
        let _slots = self.older.slots();
        if let Spot::Newer(place) = spot {
            self.newer.set_at(place, n);
            return;
        }
        if let Spot::Waiting(place) = spot {
            self.older.set_at(self.carried_to + place, n);
        }
    }

    // Removes the value at a spot, and leaves Removed there.
    pub(super) fn take_spot(&mut self, spot: Spot) -> (T, usize)
        requires live { is_live (slot_in self.old.tables spot) ≡ true }
        ensures taken { slot_in self.old.tables spot ≡ Slot.Live result.0 result.1 }
        ensures after { Writes spot Slot.Removed self.old.tables self.new.tables }
        ensures map { Swaps self.old.entries self.new.entries (result.0, result.1) [] }
        ensures hasher { self.new.hasher ≡ self.old.hasher }
        ensures counted { IsCounted T.eq self.new.entries }
    {
        // Only for the proof: it uses the clauses `value` and `bound` of `Slots::slots`.
        let _slots = self.older.slots();
        match spot {
            Spot::Newer(place) => {
                let entry = self.newer.take_at(place);
                return entry;
            }
            Spot::Waiting(place) => {
                let entry = self.older.take_at(self.carried_to + place);
                return entry;
            }
        }
    }

    // Returns the count of the value at a spot.
    #[inline(always)]
    pub(super) fn count_at(&self, spot: Spot) -> usize
        requires live { is_live (slot_in self.now.tables spot) ≡ true }
        ensures count { IfEntry self.now.tables spot (λ e. result ≡ e.1) }
    {
        // Only for the proof: it uses the clauses `value` and `bound` of `Slots::slots`.
        let _slots = self.older.slots();
        match spot {
            Spot::Newer(place) => {
                let (_, count) = self.newer.live_at(place);
                return count;
            }
            Spot::Waiting(place) => {
                let (_, count) = self.older.live_at(self.carried_to + place);
                return count;
            }
        }
    }

    // Adds to the count of the value at a spot, and returns the count before.
    #[inline(always)]
    pub(super) fn raise_spot(&mut self, spot: Spot, n: usize) -> usize
        requires live { is_live (slot_in self.old.tables spot) ≡ true }
        requires positive { 0 < n }
        requires fits { IfEntry self.old.tables spot (λ e. e.1 + n < 2 ^ 64) }
        ensures before { IfEntry self.old.tables spot (λ e. result ≡ e.1) }
        ensures after { Writes spot (recounted (result + n) (slot_in self.old.tables spot)) self.old.tables self.new.tables }
        ensures map { IfEntry self.old.tables spot (λ e. Swaps self.old.entries self.new.entries e ((e.0, result + n) ∷ [])) }
        ensures hasher { self.new.hasher ≡ self.old.hasher }
        ensures counted { IsCounted T.eq self.new.entries }
    {
        let before = self.count_at(spot);
        self.set_spot(spot, before + n);
        before
    }

    // Stores another equal instance at a spot, with the count 1, and returns the former one.
    pub(super) fn put_spot(&mut self, spot: Spot, value: T) -> T
        requires equal { holds (T.eq value) (slot_in self.old.tables spot) ≡ true }
        ensures after { Writes spot (Slot.Live value 1) self.old.tables self.new.tables }
        ensures map { IfEntry self.old.tables spot (λ e. Swaps self.old.entries self.new.entries e ((value, 1) ∷ [])) }
        ensures hasher { self.new.hasher ≡ self.old.hasher }
        ensures counted { IsCounted T.eq self.new.entries }
    {
        // Only for the proof: it uses the clauses `value` and `bound` of `Slots::slots`.
        let _slots = self.older.slots();
        match spot {
            Spot::Newer(place) => {
                let former = store_once(&mut self.newer, place, value);
                return former;
            }
            Spot::Waiting(place) => {
                let former = store_once(&mut self.older, self.carried_to + place, value);
                return former;
            }
        }
    }
}
