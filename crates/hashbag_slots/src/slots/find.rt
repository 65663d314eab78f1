//! Look-ups by a key: by a reference to a value, or by what names a value. In clauses `HoldsAt` says that the slot at a place has a value that the
//! key names, and `IsAbsent` that no slot has one. `IsReached`: a probe finds each value of the table by its hash.
//! `hash_under ..` is the hash under a state.
ghost use Rattle.std.specs.Prelude.{◌≡◌, ℕ, ◌+◌, ◌-◌, ◌<◌, ◌≤◌, length, false, IfSome, IfNone, Some};
ghost use Rattle.hashbag_slots.specs.Probed.{IfFound, IfAbsent, IfFull, IsFull};
ghost use Rattle.hashbag_slots.specs.Hashing.{hash_under};
ghost use Rattle.hashbag_slots.specs.Slots.{is_live, path_slot, slot_at, HoldsAt, IsAbsent, IsFirstFree, IsEntryPlace};
ghost use Rattle.hashbag_slots.specs.Columns.{IsReached, IsReachedAt};

use crate::group::match_tag;
use crate::key::Key;
pub use crate::probe::MOST_CACHED;
use crate::probe::{Probed, find_large, find_place, find_small, probe_path};
use crate::slots::{Slot, Slots, hash_of};
use crate::tags::EMPTY;
use std::hash::{BuildHasher, Hash};

impl<T: Eq + Hash> Slots<T> {
    /// Returns the place of the Live slot whose value a key names, or `None` if there is none.
    ///
    /// # Complexity
    ///
    /// It hashes the key once, under the state that hashed the table's values, and probes once, past Removed and Moved slots.
    #[inline(always)]
    pub fn find<S: BuildHasher, Q: Key<T>>(&self, state: &S, key: Q) -> Option<usize>
        requires reached { IsReached (hash_under T.hash_input S.BuildHasher S.Hasher.Hasher state.now) self.now }
        ensures found { IfSome result (HoldsAt (Q.names key) self.now.slots) }
        ensures absent { IfNone result (IsAbsent (Q.names key) self.now.slots) }

        // The entry at the returned place is the one that the key names among all entries. `None`: there is no such entry.
        ensures map { IsEntryPlace (Q.names key) self.now.slots result }
    {
        let hash = hash_of(state, key);
        self.find_hashed(state, hash, key)
    }

    /// Finds as [`Slots::find`] does, with the key's hash under the state. It hashes nothing.
    #[inline(always)]
    pub fn find_hashed<S: BuildHasher, Q: Key<T>>(
        &self,
        state: &S,
        hash: u64,
        key: Q,
    ) -> Option<usize>
        requires hashed { hash ≡ hash_under Q.hash_input S.BuildHasher S.Hasher.Hasher state.now key }
        requires reached { IsReached (hash_under T.hash_input S.BuildHasher S.Hasher.Hasher state.now) self.now }
        ensures found { IfSome result (HoldsAt (Q.names key) self.now.slots) }
        ensures absent { IfNone result (IsAbsent (Q.names key) self.now.slots) }

        // The entry at the returned place is the one that the key names among all entries. `None`: there is no such entry.
        ensures map { IsEntryPlace (Q.names key) self.now.slots result }
    {
        find_place(self.tags.as_slice(), self.slots, &self.cells, hash, key)
    }

    /// Finds as [`Slots::find_hashed`] does, in a table of `mask + 1` slots.
    #[inline(always)]
    pub fn find_small<Q: Key<T>>(&self, mask: usize, hash: u64, key: Q) -> Option<usize>
        requires mask { mask + 1 ≡ length self.now.slots }
        requires reached { IsReachedAt (Q.names key) hash self.now }
        ensures found { IfSome result (HoldsAt (Q.names key) self.now.slots) }
        ensures absent { IfNone result (IsAbsent (Q.names key) self.now.slots) }

        // The entry at the returned place is the one that the key names among all entries. `None`: there is no such entry.
        ensures map { IsEntryPlace (Q.names key) self.now.slots result }
    {
        find_small(self.tags.as_slice(), mask, &self.cells, hash, key)
    }

    /// Finds as [`Slots::find_hashed`] does, in a table of any size, as it is best in a large one.
    #[inline(always)]
    pub fn find_large<Q: Key<T>>(&self, hash: u64, key: Q) -> Option<usize>
        requires reached { IsReachedAt (Q.names key) hash self.now }
        ensures found { IfSome result (HoldsAt (Q.names key) self.now.slots) }
        ensures absent { IfNone result (IsAbsent (Q.names key) self.now.slots) }

        // The entry at the returned place is the one that the key names among all entries. `None`: there is no such entry.
        ensures map { IsEntryPlace (Q.names key) self.now.slots result }
    {
        find_large(self.tags.as_slice(), self.slots, &self.cells, hash, key)
    }

    /// Returns whether one of the 16 slots from the place `from` on is Empty: the place after the last one of them, or 0.
    #[inline(always)]
    pub fn after_last_empty(&self, from: usize) -> usize
        requires { from < length self.now.slots }
        ensures past { 0 < result → (from < result) × (result ≤ from + 16) × (result ≤ length self.now.slots) }
        ensures empty { 0 < result → slot_at self.now.slots (result - 1) ≡ Slot.Empty }
    {
        let empty = match_tag(self.tags.as_slice(), from, EMPTY);
        if empty == 0 {
            return 0;
        }
        from + 64 - empty.leading_zeros() as usize
    }

    /// Returns the home of a hash.
    #[inline(always)]
    pub fn home(&self, hash: u64) -> usize
        requires { 0 < length self.now.slots }
        ensures { result ≡ path_slot (length self.now.slots) hash 0 }
    {
        hash as usize & (self.slots - 1)
    }

    /// Returns what a probe along the path of a key's hash shows. Mostly the first 16 slots decide.
    ///
    /// - `Found`: the place of the Live slot whose value the key names.
    /// - `Absent`: no slot has the value, and this is the first place on the path whose slot is not Live, for [`Slots::place_at`].
    /// - `Full`: no slot has the value, and none is free.
    #[inline(always)]
    pub fn probe_path<S: BuildHasher, Q: Key<T>>(&self, state: &S, hash: u64, key: Q) -> Probed
        requires hashed { hash ≡ hash_under Q.hash_input S.BuildHasher S.Hasher.Hasher state.now key }
        requires reached { IsReached (hash_under T.hash_input S.BuildHasher S.Hasher.Hasher state.now) self.now }
        ensures found { IfFound result (HoldsAt (Q.names key) self.now.slots) }
        ensures absent { IfAbsent result (λ _. IsAbsent (Q.names key) self.now.slots) }
        ensures free { IfAbsent result (IsFirstFree hash self.now.slots) }

        // No slot has the value, and all are Live.
        ensures full { IfFull result (IsFull (Q.names key) hash self.now) }

        // `Found`: the entry at the place is the one that the key names among all entries.
        ensures map { IfFound result (λ p. IsEntryPlace (Q.names key) self.now.slots (Some p)) }
    {
        probe_path(
            self.tags.as_slice(),
            self.slots,
            &self.cells,
            state,
            hash,
            key,
        )
    }
}
