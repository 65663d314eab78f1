//! The carry of an older table's values into a newer one, sixteen slots at once.
ghost use Rattle.std.specs.Prelude.{◌≡◌, ℕ, ◌+◌, ◌<◌, ◌≤◌, length};
ghost use Rattle.hashbag_slots.specs.Group.{IsMaskOf};
ghost use Rattle.hashbag_slots.specs.Hashing.{hash_under};
ghost use Rattle.hashbag_slots.specs.Slots.{is_live, live_count, slot_at, IsSet, AreApart};
ghost use Rattle.hashbag_slots.specs.Columns.{IsReached, CarriesUnder};

use crate::group::{GROUP_WIDTH, match_live, take_lowest};
use crate::slots::{Slots, hash_of};
use crate::tags::{LEAST_LIVE, MOVED};
use std::hash::{BuildHasher, Hash};

impl<T: Eq> Slots<T> {
    // Returns whether the slot at a place is Live.
    #[inline(always)]
    fn is_live_at(&self, place: usize) -> bool
        requires { place < length self.now.slots }
        ensures live { result ≡ is_live (slot_at self.now.slots place) }
        ensures distinct { IsSet T.eq self.now.slots }
    {
        self.tags[place] >= LEAST_LIVE
    }

    // Returns a mask of the 16 slots from the place `from` on: bit i is set if the slot at `from + i` is Live.
    #[inline(always)]
    fn live_among(&self, from: usize) -> u64
        requires { from + 16 ≤ length self.now.slots }
        ensures { IsMaskOf (λ p. is_live (slot_at self.now.slots p)) from (from + 16) result }
    {
        match_live(self.tags.as_slice(), from)
    }
}

impl<T: Eq + Hash> Slots<T> {
    // Carries what is in one slot of the older table: a Live value is placed here, and its slot there becomes Moved.
    #[inline(always)]
    fn carry_slot<S: BuildHasher>(&mut self, state: &S, older: &mut Slots<T>, at: usize)
        requires within { at < length older.old.slots }
        requires apart { AreApart T.eq older.old.slots self.old.slots }
        requires room { live_count self.old.slots + live_count older.old.slots ≤ length self.old.slots }
        requires reached { IsReached (hash_under T.hash_input S.BuildHasher S.Hasher.Hasher state.now) self.old }
        ensures { CarriesUnder T.Hash S.BuildHasher S.Hasher.Hasher state.now at 1 self.old older.old self.new older.new }
    {
        if older.is_live_at(at) {
            // The value is hashed before it is taken: no code of its type runs while it is in neither table.
            let (key, _) = older.live_at(at);
            let hash = hash_of(state, key);
            let (value, n) = older.take_leaving(at, MOVED);
            self.place_hashed(state, hash, value, n);
        }
    }

    // Carries what is in 16 slots of the older table, from the place `from` on. It reads their tags at once. The processor can't predict which of
    // them are Live, so a branch for each slot would cost more.
    #[inline(always)]
    fn carry_group<S: BuildHasher>(&mut self, state: &S, older: &mut Slots<T>, from: usize)
        requires within { from + 16 ≤ length older.old.slots }
        requires apart { AreApart T.eq older.old.slots self.old.slots }
        requires room { live_count self.old.slots + live_count older.old.slots ≤ length self.old.slots }
        requires reached { IsReached (hash_under T.hash_input S.BuildHasher S.Hasher.Hasher state.now) self.old }
        ensures { CarriesUnder T.Hash S.BuildHasher S.Hasher.Hasher state.now from 16 self.old older.old self.new older.new }
    {
        // Only for the proof: it uses the clauses `value` and `bound` of `slots`.
        let _slots = older.slots();
        let mut ahead = older.live_among(from);
        'live: while ahead != 0 {
            let (place, rest) = take_lowest(ahead, from);
            self.carry_slot(state, older, place);
            ahead = rest;
        }
    }

    /// Carries `many` slots of an older table, from the place `from` on: each Live value is placed here as by `place`, with its count, and its slot
    /// there becomes Moved. All other slots of both tables are unchanged. No value may be Live in both tables, and the values of both must fit here.
    ///
    /// # Complexity
    ///
    /// It hashes and probes once for each value that it carries.
    pub fn carry_from<S: BuildHasher>(
        &mut self,
        state: &S,
        older: &mut Slots<T>,
        from: usize,
        many: usize,
    )
        requires within { from + many ≤ length older.old.slots }
        requires apart { AreApart T.eq older.old.slots self.old.slots }
        requires room { live_count self.old.slots + live_count older.old.slots ≤ length self.old.slots }
        requires reached { IsReached (hash_under T.hash_input S.BuildHasher S.Hasher.Hasher state.now) self.old }

        // The slots were carried as said above. Then no value is Live in both tables. A probe finds each value here, and in `older` if it did before.
        ensures { CarriesUnder T.Hash S.BuildHasher S.Hasher.Hasher state.now from many self.old older.old self.new older.new }
    {
        // Only for the proof: it uses the clauses `value` and `bound` of `slots`.
        let _slots = older.slots();
        let end = from + many;
        let mut at = from;
        'places: while at < end {
            if at + GROUP_WIDTH <= end {
                self.carry_group(state, older, at);
                at += GROUP_WIDTH;
            } else {
                self.carry_slot(state, older, at);
                at += 1;
            }
        }
    }
}
