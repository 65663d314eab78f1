//! `Slots`: one table of slots with open addressing, which holds distinct values, each with a count.
//!
//! A table has no slots, or a power of two from 16 to 2^59 of them. A place is the index of a slot. A probe for a value begins at the value's 64-bit
//! hash modulo the number of slots. It reads slot after slot, slot 0 after the last one. It ends at an Empty slot, or at a Live one with an equal
//! value. So a value is found if no Empty slot is before the value's own on that path. Every call keeps this, and says so by `IsReached`.
//!
//! In clauses `hash_under ..` is the hash under a state. `Places` says that the value is now Live in a slot that wasn't Live, and no other slot
//! changed.
//!
//! Costs are counted in hashes and in probes; a probe reads a value's path, sixteen slots at once. A call hashes nothing and doesn't
//! allocate unless its comment says so.
//!
//! Contracts here also say in which slot a value is. Contracts of public calls in the crates above don't.
ghost use Rattle.std.specs.Prelude.{◌≡◌, ℕ, ◌+◌, ◌<◌, ◌≤◌, ◌^◌, length, true, false, IfSome, IfNone, IfOk, IfErr, IsOk, OnErr, replicate, slice_set, ◌∷◌, ◌++◌, [], None, Some};
ghost use Rattle.std.specs.List.Sorted.{IsPermutation};
ghost use Rattle.std.specs.Map.{lookup_entry};
ghost use Rattle.std.specs.Option.{option_map};
ghost use Rattle.hashbag_slots.specs.Probed.{IfFound, IfAbsent};
ghost use Rattle.hashbag_slots.specs.Hashing.{hash_under};
ghost use Rattle.hashbag_slots.specs.Slots.{IsSlotCount, path_slot, is_live, holds, live_count, removed_count, slot_at, HoldsAt, IsAbsent, IsNextLive, IsFirstFree, IsSet, slot_entry, entry_at, entries, recounted, raised, count_in, with_value, Places, PlacesAlong};
ghost use Rattle.hashbag_slots.specs.Columns.{slot_of, IsReached, PlacesBy, HashesAlike};

pub mod blank;
mod carry;
pub mod find;

use crate::cells::Cells;
use crate::live::{Course, drop_if_live, next_live};
pub use crate::probe::Probed;
use crate::probe::first_free;
use crate::tags::{LEAST_LIVE, REMOVED, empty_tags, fingerprint_of, make_all_empty};
use crate::walk::{IntoWalk, Walk};
use std::alloc::{AllocError, Global};
use std::hash::{BuildHasher, Hash};
use std::marker::Model;

/// What a slot holds, as contracts see it.
#[derive(Drop)]
pub enum Slot<T> {
    /// Nothing, and nothing since the table was made or cleared: a probe ends here.
    Empty,
    /// Nothing: its value was removed. A probe goes on.
    Removed,
    /// Nothing: its value was carried to a newer table. A probe goes on.
    Moved,
    /// A value and its count, which is at least 1. A probe goes on if the value isn't the sought one.
    Live(T, usize),
}

/// Returns the 64-bit hash of a key under a state.
#[inline(always)]
pub fn hash_of<Q: Hash + Copy, S: BuildHasher>(state: &S, key: Q) -> u64
    ensures { result ≡ hash_under Q.hash_input S.BuildHasher S.Hasher.Hasher state.now key }
{
    state.hash_one(key)
}

/// A table of slots. No two Live slots have equal values.
///
/// Contracts see its slots in the order of their places, and their tags. `IsReached`, which says that values are found under a hash, depends on the
/// tags. Each call requires and ensures `IsReached`. A table that is dropped drops each of its values once.
pub struct Slots<T: Eq> {
    // The tags of the slots, and the guards.
    tags: Vec<u8>,
    cells: Cells<(T, usize)>,
    slots: usize,
    live: usize,
    removed: usize,
}

impl<T: Eq> Model for Slots<T> {
    ghost use Rattle.hashbag_slots.specs.Columns.{Columns};

    ghost Value = { Columns T };

    ghost use Rattle.std.specs.Prelude.{take};
    ghost use Rattle.hashbag_slots.specs.Columns.{columns, IsStored};

    ghost view = { λ s. columns (take s.slots s.tags.items) s.cells };

    ghost invariant = { λ s. IsStored T.eq s.slots s.tags.items s.cells s.live s.removed };
}

impl<T: Eq + Drop> Drop for Slots<T> {
    fn drop(self) {
        let Slots {
            tags,
            mut cells,
            slots,
            live,
            removed: _,
        } = self;
        drop_if_live(&tags.as_slice()[..slots], &mut cells, live);
        cells.free();
    }
}

impl<T: Eq> Slots<T> {
    /// Returns a table of `n` Empty slots.
    ///
    /// # Errors
    ///
    /// `AllocError` if an allocation fails. With `n` 0 it can't fail.
    ///
    /// # Complexity
    ///
    /// It allocates a byte and a cell for each slot, nothing with `n` 0.
    pub fn with_slots(alloc: Global, n: usize) -> Result<Slots<T>, AllocError>
        // `n` is 0, or a power of two from 16 to 2^59.
        requires { IsSlotCount n }
        ensures slots { IfOk result (λ s. s.slots ≡ replicate n Slot.Empty) }

        // There is no value yet, so a probe finds each value under any hash.
        ensures reached { IfOk result (λ s. (hash : T → ℕ) → IsReached hash s) }
        ensures none { n ≡ 0 → IsOk result }
    {
        let tags = empty_tags(alloc, n)?;
        let cells = Cells::new(alloc, n)?;
        Ok(Slots {
            tags,
            cells,
            slots: n,
            live: 0,
            removed: 0,
        })
    }

    /// Returns the number of slots.
    #[inline]
    pub fn slots(&self) -> usize
        ensures value { result ≡ length self.now.slots }

        // It is 0, or a power of two from 16 to 2^59.
        ensures count { IsSlotCount result }
        ensures bound { result ≤ 2 ^ 59 }

        // No two Live slots have equal values, and each count is at least 1.
        ensures distinct { IsSet T.eq self.now.slots }
    {
        self.slots
    }

    /// Returns the number of Live slots, and so of values.
    pub fn live(&self) -> usize
        ensures { result ≡ live_count self.now.slots }
    {
        self.live
    }

    /// Returns the number of Removed slots.
    pub fn removed(&self) -> usize
        ensures { result ≡ removed_count self.now.slots }
    {
        self.removed
    }

    /// Returns a reference to the value at a place, with its count, or `None` if the slot is not Live.
    #[inline(always)]
    pub fn at(&self, place: usize) -> Option<(&T, usize)>
        requires { place < length self.now.slots }
        ensures { option_map (λ e. (e.0.now, e.1)) result ≡ slot_entry (slot_at self.now.slots place) }
    {
        if self.tags[place] < LEAST_LIVE {
            return None;
        }
        let entry = self.cells.get(place);
        Some((&entry.0, entry.1))
    }

    /// Returns a reference to the value at a place, with its count. The slot must be Live; its tag isn't read.
    #[inline(always)]
    pub fn live_at(&self, place: usize) -> (&T, usize)
        requires { is_live (slot_at self.now.slots place) ≡ true }
        ensures { Some (result.0.now, result.1) ≡ slot_entry (slot_at self.now.slots place) }
    {
        let (value, count) = self.cells.get(place);
        (value, *count)
    }

    /// Returns the first place from `from` on whose slot is Live, or `None` if there is none. It reads sixteen tags at once.
    #[inline(always)]
    pub fn next_live(&self, from: usize) -> Option<usize>
        ensures some { IfSome result (IsNextLive self.now.slots from) }
        ensures none { IfNone result ((p : ℕ) → from ≤ p → is_live (slot_at self.now.slots p) ≡ false) }
        ensures bound { IfSome result (λ p. p < 2 ^ 59) }
    {
        next_live(&self.tags.as_slice()[..self.slots], from)
    }

    /// Sets the count of the value at a place to `n`. The slot must be Live.
    #[inline(always)]
    pub fn set_at(&mut self, place: usize, n: usize)
        requires live { is_live (slot_at self.old.slots place) ≡ true }
        requires positive { 0 < n }
        ensures after { self.new.slots ≡ slice_set self.old.slots place (recounted n (slot_at self.old.slots place)) }

        // If a probe found each value by its `hash` before, it still does.
        ensures reached { (hash : T → ℕ) → IsReached hash self.old → IsReached hash self.new }
    {
        let (value, _) = self.cells.take(place);
        self.cells.put(place, (value, n));
    }

    /// Adds `n` to the count of the value at a place. The slot must be Live, and the sum must fit a `usize`. In this repository only tests call it.
    #[inline(always)]
    pub fn add_at(&mut self, place: usize, n: usize)
        requires live { is_live (slot_at self.old.slots place) ≡ true }
        requires fits { count_in (slot_at self.old.slots place) + n < 2 ^ 64 }
        ensures after { self.new.slots ≡ slice_set self.old.slots place (raised n (slot_at self.old.slots place)) }

        // If a probe found each value by its `hash` before, it still does.
        ensures reached { (hash : T → ℕ) → IsReached hash self.old → IsReached hash self.new }
    {
        let (value, count) = self.cells.take(place);
        self.cells.put(place, (value, count + n));
    }

    /// Replaces the value at a place by an equal instance, keeps its count, and returns the former instance. It hashes nothing: equal values
    /// have one hash.
    pub fn put_at(&mut self, place: usize, value: T) -> T
        requires equal { holds (T.eq value) (slot_at self.old.slots place) ≡ true }
        ensures former { slot_at self.old.slots place ≡ Slot.Live result (count_in (slot_at self.old.slots place)) }
        ensures after { self.new.slots ≡ slice_set self.old.slots place (with_value value (slot_at self.old.slots place)) }

        // If equal values have one `hash` (`HashesAlike`), and a probe found each value by its `hash` before, a probe still does.
        ensures reached { (hash : T → ℕ) → HashesAlike T.eq hash → IsReached hash self.old → IsReached hash self.new }
    {
        let (former, count) = self.cells.take(place);
        self.cells.put(place, (value, count));
        former
    }

    /// Removes the value at a place, returns it with its count, and leaves Removed there. The slot must be Live.
    #[inline(always)]
    pub fn take_at(&mut self, place: usize) -> (T, usize)
        requires { is_live (slot_at self.old.slots place) ≡ true }
        ensures taken { slot_at self.old.slots place ≡ Slot.Live result.0 result.1 }
        ensures after { self.new.slots ≡ slice_set self.old.slots place Slot.Removed }

        // If a probe found each value by its `hash` before, it still does.
        ensures reached { (hash : T → ℕ) → IsReached hash self.old → IsReached hash self.new }
    {
        self.take_leaving(place, REMOVED)
    }

    // Removes the value at a place, and leaves the tag of a Removed or a Moved slot there. The slot must be Live.
    #[inline(always)]
    fn take_leaving(&mut self, place: usize, tag: u8) -> (T, usize)
        requires live { is_live (slot_at self.old.slots place) ≡ true }
        requires tag { (0 < tag) × (tag < 3) }
        ensures taken { slot_at self.old.slots place ≡ Slot.Live result.0 result.1 }
        ensures positive { 0 < result.1 }
        ensures after { self.new.slots ≡ slice_set self.old.slots place (slot_of tag None) }
        ensures reached { (hash : T → ℕ) → IsReached hash self.old → IsReached hash self.new }
    {
        self.tags[place] = tag;
        self.live -= 1;
        self.removed += usize::from(tag == REMOVED);
        self.cells.take(place)
    }

    /// Drops all values, and makes each slot Empty. It keeps the memory of the slots.
    ///
    /// # Complexity
    ///
    /// If a slot is Live, it reads all tags, sixteen at once. It writes them all.
    pub fn clear(&mut self)
    where
        T: Drop,
        ensures slots { self.new.slots ≡ replicate (length self.old.slots) Slot.Empty }

        // There is no value left, so a probe finds each value under any hash.
        ensures reached { (hash : T → ℕ) → IsReached hash self.new }
    {
        drop_if_live(
            &self.tags.as_slice()[..self.slots],
            &mut self.cells,
            self.live,
        );
        make_all_empty(self.tags.as_mut_slice(), self.slots);
        self.live = 0;
        self.removed = 0;
    }

    /// Walks over references to the values of this table and of an older one, each with its count, in no particular order.
    pub fn walk<'a>(&'a self, older: &'a Slots<T>) -> Walk<'a, T>
        ensures entries { IsPermutation (entries self.now.slots ++ entries older.now.slots) result }
        ensures fits { length result < 2 ^ 63 }
    {
        Walk {
            newer_tags: &self.tags.as_slice()[..self.slots],
            newer: &self.cells,
            older_tags: &older.tags.as_slice()[..older.slots],
            older: &older.cells,
            cells: &self.cells,
            course: Course::first(),
            left: self.live + older.live,
        }
    }

    /// Turns this table and an older one into a walk, which gives their values with their counts, in no particular order. Unread values are dropped
    /// with the walk.
    pub fn into_walk(self, older: Slots<T>) -> IntoWalk<T>
        ensures entries { IsPermutation (entries self.slots ++ entries older.slots) result }
        ensures fits { length result < 2 ^ 63 }
    {
        let Slots {
            tags: mut newer_tags,
            cells: newer,
            slots: newer_slots,
            live: newer_live,
            removed: _,
        } = self;
        let Slots {
            tags: mut older_tags,
            cells: older,
            slots: older_slots,
            live: older_live,
            removed: _,
        } = older;
        newer_tags.truncate(newer_slots);
        older_tags.truncate(older_slots);
        IntoWalk {
            newer_tags,
            newer,
            older_tags,
            older,
            course: Course::first(),
            left: newer_live + older_live,
        }
    }
}

impl<T: Eq + Hash> Slots<T> {
    /// Places an absent value with the count `n` in the first slot on its path that is not Live. All other slots are unchanged. At least one slot
    /// must not be Live.
    ///
    /// # Complexity
    ///
    /// It hashes the value once, and probes once.
    #[inline(always)]
    pub fn place<S: BuildHasher>(&mut self, state: &S, value: T, n: usize)
        requires positive { 0 < n }
        requires absent { IsAbsent (T.eq value) self.old.slots }
        requires room { live_count self.old.slots < length self.old.slots }
        requires reached { IsReached (hash_under T.hash_input S.BuildHasher S.Hasher.Hasher state.now) self.old }

        // `placed` says that one slot changed, and `first` also says which: the first on the value's path that wasn't Live.
        ensures placed { Places value n self.old.slots self.new.slots }
        ensures first { PlacesBy (hash_under T.hash_input S.BuildHasher S.Hasher.Hasher state.now) value n self.old self.new }
        ensures reached { IsReached (hash_under T.hash_input S.BuildHasher S.Hasher.Hasher state.now) self.new }
    {
        let hash = hash_of(state, &value);
        self.place_hashed(state, hash, value, n);
    }

    /// Returns the first place on the path of a hash whose slot is not Live. At least one slot must not be Live.
    #[inline(always)]
    pub fn first_free(&self, hash: u64) -> usize
        requires room { live_count self.now.slots < length self.now.slots }
        ensures free { IsFirstFree hash self.now.slots result }
    {
        first_free(&self.tags.as_slice()[..self.slots], hash)
    }

    /// Returns the first place from `place` on, along the path, whose slot is not Live. At least one slot must not be Live.
    #[inline(always)]
    pub fn free_from(&self, place: usize) -> usize
        requires room { live_count self.now.slots < length self.now.slots }

        // On the path of a hash, all slots before `place` are Live: then the result is the first one on that path that isn't.
        ensures free { (hash step : ℕ) → step < length self.now.slots → place ≡ path_slot (length self.now.slots) hash step → ((before : ℕ) → before < step → is_live (slot_at self.now.slots (path_slot (length self.now.slots) hash before)) ≡ true) → IsFirstFree hash self.now.slots result }
    {
        // The path that begins at `place`.
        self.first_free(place as u64)
    }

    /// Places a value as [`Slots::place`] does, with its hash under the state. It hashes nothing.
    #[inline(always)]
    pub fn place_hashed<S: BuildHasher>(&mut self, state: &S, hash: u64, value: T, n: usize)
        requires hashed { hash ≡ hash_under T.hash_input S.BuildHasher S.Hasher.Hasher state.now value }
        requires positive { 0 < n }
        requires absent { IsAbsent (T.eq value) self.old.slots }
        requires room { live_count self.old.slots < length self.old.slots }
        requires reached { IsReached (hash_under T.hash_input S.BuildHasher S.Hasher.Hasher state.now) self.old }

        // `placed` says that one slot changed, and `first` also says which.
        ensures placed { Places value n self.old.slots self.new.slots }
        ensures first { PlacesAlong hash value n self.old.slots self.new.slots }
        ensures reached { IsReached (hash_under T.hash_input S.BuildHasher S.Hasher.Hasher state.now) self.new }
    {
        let place = self.first_free(hash);
        self.place_at(place, state, hash, value, n);
    }

    /// Places an absent value with the count `n` at `place`. The caller has found `place`: the first on the path of `hash` whose slot isn't Live.
    /// `hash` is the value's hash under the state. The call hashes and probes nothing.
    #[inline(always)]
    pub fn place_at<S: BuildHasher>(
        &mut self,
        place: usize,
        state: &S,
        hash: u64,
        value: T,
        n: usize,
    )
        requires hashed { hash ≡ hash_under T.hash_input S.BuildHasher S.Hasher.Hasher state.now value }
        requires positive { 0 < n }
        requires absent { IsAbsent (T.eq value) self.old.slots }
        requires free { IsFirstFree hash self.old.slots place }
        requires reached { IsReached (hash_under T.hash_input S.BuildHasher S.Hasher.Hasher state.now) self.old }

        // `after`: the slot at `place` alone changed. `placed` says the same without the place.
        ensures placed { Places value n self.old.slots self.new.slots }
        ensures after { self.new.slots ≡ slice_set self.old.slots place (Slot.Live value n) }
        ensures reached { IsReached (hash_under T.hash_input S.BuildHasher S.Hasher.Hasher state.now) self.new }
    {
        self.removed -= usize::from(self.tags[place] == REMOVED);
        self.tags[place] = fingerprint_of(hash);
        self.cells.put(place, (value, n));
        self.live += 1;
    }
}
