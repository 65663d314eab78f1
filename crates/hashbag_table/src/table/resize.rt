//! Room: a table that grows, carries what waits, or gets other slots on request.
ghost use Rattle.std.specs.Prelude.{◌≡◌, ◌++◌, ◌+◌, ◌-◌, ◌*◌, ◌<◌, ◌≤◌, ℕ, [], length, replicate, OnOk, OnErr, IsOk, IsErr};
ghost use Rattle.std.specs.List.Sorted.{IsPermutation};
ghost use Rattle.hashbag_slots.specs.Slots.{entries, slot_at, IsFirstFree};
ghost use Rattle.hashbag_slots.specs.Columns.{IsReached};
ghost use Rattle.hashbag_table.specs.Entries.{IsCounted};
ghost use Rattle.hashbag_table.specs.Table.{IsMapOf};
ghost use Rattle.hashbag_table.specs.Tables.{most_used, room, values, IfNoLarger, AreTablesUnder, HasLeast, IsPacked, KeepsRoom, ReservesOrStays, ShrinksOrStays, Carried, CarriedOn, CarriesNext, IsReady, MayAdoptUnder};

use crate::capacity::{grown_slots, least_slots, no_slots};
use crate::table::{MOST_VALUES, NOT_QUICK, Table, quick_of};
use hashbag_slots::slots::{Slot, Slots};
use std::alloc::{AllocError, Global};
use std::hash::{BuildHasher, Hash};
use std::mem;

// How many slots one insertion of an absent value carries.
const CARRIED_AT_ONCE: usize = 16;

// Carries the next `most` waiting slots of the older table into the newer one, or all if there are fewer. Returns how many slots of the older table
// were carried so far. If no slot waits any more, the older table is freed, and the returned number is 0.
//
// It hashes each value that it carries once, and doesn't allocate. If the older table has no slots, it does nothing.
fn carry_next<T: Eq + Hash + Drop, S: BuildHasher>(
    newer: &mut Slots<T>,
    older: &mut Slots<T>,
    carried_to: usize,
    most: usize,
    hasher: &S,
    alloc: Global,
) -> usize
    requires tables { AreTablesUnder T.Hash S.BuildHasher S.Hasher.Hasher hasher.now newer.old older.old carried_to }
    ensures tables { AreTablesUnder T.Hash S.BuildHasher S.Hasher.Hasher hasher.now newer.new older.new result }
    ensures carried { CarriedOn most carried_to result newer.old older.old newer.new older.new }
    ensures freed { length older.new.slots ≤ result → length older.new.slots ≡ 0 }
    ensures far { 0 < result → result ≡ carried_to + most }

    // An Empty slot of the older table stays Empty.
    ensures empty { (p : ℕ) → slot_at older.old.slots p ≡ Slot.Empty → slot_at older.new.slots p ≡ Slot.Empty }
{
    let slots = older.slots();
    if slots == 0 {
        return 0;
    }
    // Only for the proof: it uses the contract of `slots`.
    let _slots = newer.slots();
    let many = (slots - carried_to).min(most);
    newer.carry_from(hasher, older, carried_to, many);
    if carried_to + many == slots {
        let _freed = mem::replace(older, no_slots(alloc));
        return 0;
    }
    carried_to + many
}

// Returns `edge` after a carry. `last` is the place after the last Empty slot among those that were carried, 0 if none of them is Empty.
#[inline(always)]
fn edge_after(edge: usize, last: usize, carried_to: usize) -> usize
    ensures none { carried_to ≡ 0 → result ≡ 0 }
    ensures last { 0 < carried_to → 0 < last → result ≡ last }
    ensures kept { 0 < carried_to → last ≡ 0 → result ≡ edge }
{
    if carried_to == 0 {
        return 0;
    }
    if last > 0 {
        return last;
    }
    edge
}

impl<T: Eq + Hash + Drop, S: BuildHasher + Drop> Table<T, S> {
    // Carries the next 16 waiting slots. It doesn't allocate.
    #[inline(never)]
    fn carry(&mut self)
        requires room { 0 < room self.old.tables }
        requires waits { 0 < self.old.tables.older }
        ensures carried { CarriesNext 16 self.old.tables self.new.tables }
        ensures some { 0 < room self.new.tables }
        ensures carries { length self.new.tables.waiting ≤ 16 * (room self.new.tables - 1) }
        ensures built { self.new.tables.built ≡ self.old.tables.built }
        ensures entries { IsPermutation self.old.entries self.new.entries }
        ensures hasher { self.new.hasher ≡ self.old.hasher }
    {
        let last = self.older.after_last_empty(self.carried_to);
        self.carried_to = carry_next(
            &mut self.newer,
            &mut self.older,
            self.carried_to,
            CARRIED_AT_ONCE,
            &self.hasher,
            self.alloc,
        );
        self.edge = edge_after(self.edge, last, self.carried_to);
        self.quick = quick_of(self.newer.slots(), self.older.slots());
    }

    // Carries the next 16 waiting slots, if some wait. `place` is the first place on some path whose slot isn't Live; the first such place after the carry
    // is returned. It doesn't allocate.
    pub(super) fn carry_past(&mut self, place: usize) -> usize
        requires room { 0 < room self.old.tables }
        ensures ready { IsReady self.old.tables self.new.tables }
        ensures free { (hash : ℕ) → IsFirstFree hash self.old.tables.newer place → IsFirstFree hash self.new.tables.newer result }
        ensures entries { IsPermutation self.old.entries self.new.entries }
        ensures hasher { self.new.hasher ≡ self.old.hasher }
    {
        if self.older.slots() == 0 {
            return place;
        }
        self.carry();
        self.newer.free_from(place)
    }

    /// Carries all slots that wait. A look-up then probes one table alone. The entries stay. If no slot waits, it does nothing.
    ///
    /// # Complexity
    ///
    /// It hashes each waiting value once, reads the waiting slots once, frees them, and doesn't allocate.
    pub fn finish_carry(&mut self)
        // The entries are the same, in whatever order, and so is the hash state.
        ensures entries { IsMapOf T.eq self.old self.old.entries self.new }
        ensures waiting { self.new.tables.waiting ≡ [] }

        // The waiting values are in slots of the newer table that weren't Live. Its other slots are unchanged.
        ensures carried { CarriesNext (length self.old.tables.waiting) self.old.tables self.new.tables }

        // There are as many slots as before, no table was built, and room isn't lower.
        ensures room { KeepsRoom 0 self.old.tables self.new.tables }
    {
        let waiting = self.older.slots() - self.carried_to;
        self.carried_to = carry_next(
            &mut self.newer,
            &mut self.older,
            self.carried_to,
            waiting,
            &self.hasher,
            self.alloc,
        );
        self.edge = 0;
        self.quick = quick_of(self.newer.slots(), self.older.slots());
        self.at_once = 0;
    }

    // Makes `newer` the newer table. No other method gives an existing `Table` new slots. The former newer table becomes the older one: its first
    // `many` slots are carried at once, and its other slots wait. The former older table, of which no slot waits, is freed. The slots of `newer`
    // count as built. It doesn't allocate.
    fn adopt(&mut self, newer: Slots<T>, many: usize)
        requires none_waits { self.old.tables.waiting ≡ [] }
        requires may { MayAdoptUnder T.Hash S.BuildHasher S.Hasher.Hasher self.old.hasher newer self.old.tables.newer many }
        ensures carried { Carried many newer.slots self.old.tables.newer self.new.tables.newer self.new.tables.waiting }
        ensures built { self.new.tables.built ≡ self.old.tables.built + length newer.slots }
        ensures entries { IsPermutation (entries newer.slots ++ self.old.entries) self.new.entries }
        ensures hasher { self.new.hasher ≡ self.old.hasher }
    {
        self.built.raise(newer.slots());
        // First, since these numbers are of the former tables: if a hash panics in the carry, where a type allows that, they are right all the same.
        self.edge = 0;
        self.quick = NOT_QUICK;
        self.at_once = 0;
        let former = mem::replace(&mut self.newer, newer);
        let _freed = mem::replace(&mut self.older, former);
        self.carried_to = carry_next(
            &mut self.newer,
            &mut self.older,
            0,
            many,
            &self.hasher,
            self.alloc,
        );
        self.quick = quick_of(self.newer.slots(), self.older.slots());
    }

    // Grows, if there is no room left: makes a new table, and carries the first 16 slots into it. If an allocation fails, the table is unchanged.
    #[inline(never)]
    fn grow(&mut self) -> Result<(), AllocError>
        requires full { room self.old.tables ≡ 0 }
        ensures ready { OnOk result (IsReady self.old.tables self.new.tables) }
        ensures entries { OnOk result (IsPermutation self.old.entries self.new.entries) }
        ensures hasher { self.new.hasher ≡ self.old.hasher }
        ensures err { OnErr result (self.new ≡ self.old) }
    {
        let grown = grown_slots(self.newer.slots(), self.newer.live())?;
        let newer = Slots::with_slots(self.alloc, grown)?;
        self.adopt(newer, CARRIED_AT_ONCE);
        Ok(())
    }

    // Prepares the tables for an absent value. Without room they grow. With room the next 16 waiting slots are carried, if there are some; this
    // doesn't allocate.
    pub(super) fn carry_or_grow(&mut self) -> Result<(), AllocError>
        ensures ready { OnOk result (IsReady self.old.tables self.new.tables) }
        ensures takes { 0 < room self.old.tables → IsOk result }
        ensures entries { OnOk result (IsPermutation self.old.entries self.new.entries) }
        ensures hasher { self.new.hasher ≡ self.old.hasher }
        ensures err { OnErr result (self.new ≡ self.old) }
    {
        if self.room() > 0 {
            if self.older.slots() > 0 {
                self.carry();
            }
            return Ok(());
        }
        self.grow()
    }

    // Moves every value into `newer`, and makes it the newer table. All slots of `newer` must be Empty, with room for all values. It frees both
    // former tables, and doesn't allocate. It hashes each value once, and once more if it waited: while values move, each is in one of the two tables.
    pub(super) fn move_all_into(&mut self, newer: Slots<T>)
        requires empty { newer.slots ≡ replicate (length newer.slots) Slot.Empty }
        requires reached { (hash : T → ℕ) → IsReached hash newer }
        requires enough { length self.old.entries ≤ most_used (length newer.slots) }
        ensures slots { length self.new.tables.newer ≡ length newer.slots }
        ensures packed { IsPacked self.new.tables }
        ensures built { self.new.tables.built ≡ self.old.tables.built + length newer.slots }
        ensures values { values self.new.tables ≡ length self.old.entries }
        ensures entries { IsMapOf T.eq self.old self.old.entries self.new }
    {
        self.finish_carry();
        let many = self.slots();
        self.adopt(newer, many);
    }

    /// Makes room for `n` more distinct values. The entries stay.
    ///
    /// # Errors
    ///
    /// `AllocError` if an allocation fails, or if there would be more than [`MOST_VALUES`] distinct values. The table is then unchanged.
    ///
    /// # Complexity
    ///
    /// If there is enough room, it does nothing. Else it allocates the least table of slots that has the room, and is not smaller than the
    /// newer one. Every value is moved into that table and hashed once, a waiting one twice. The former tables are freed.
    pub fn reserve(&mut self, n: usize) -> Result<(), AllocError>
        // The entries are the same, in whatever order, and so is the hash state.
        ensures entries { IsMapOf T.eq self.old self.old.entries self.new }
        ensures past_most { 0 < n → MOST_VALUES < length self.old.entries + n → IsErr result }
        ensures err { OnErr result (self.new ≡ self.old) }

        // What becomes of the slots, as under `# Complexity`.
        ensures enough { n ≤ room self.old.tables → IsOk result × (self.new ≡ self.old) }
        ensures room { OnOk result (n ≤ room self.new.tables) }
        ensures reserves { OnOk result (ReservesOrStays n (length self.old.entries) self.old.tables self.new.tables) }
    {
        let slots = self.newer.slots();
        if n <= self.room() {
            return Ok(());
        }
        let values = self.set_len();
        if n > MOST_VALUES - values {
            return Err(AllocError);
        }
        let least = least_slots(slots, values + n)?;
        let newer = Slots::with_slots(self.alloc, least)?;
        self.move_all_into(newer);
        Ok(())
    }

    /// Frees slots that the entries don't need. The entries stay. A table without entries is left with no slots.
    ///
    /// # Errors
    ///
    /// `AllocError` if the allocation of a smaller table fails. The table is then unchanged.
    ///
    /// # Complexity
    ///
    /// If the least table of slots in which the entries have room is smaller than the newer one, that least table is allocated. Every value is moved
    /// into it and hashed once, a waiting one twice, and the former tables are freed. Else the call does nothing. Without entries it allocates nothing.
    pub fn shrink_to_fit(&mut self) -> Result<(), AllocError>
        // The entries are the same, in whatever order, and so is the hash state.
        ensures entries { IsMapOf T.eq self.old self.old.entries self.new }
        ensures err { OnErr result (self.new ≡ self.old) }
        ensures none { self.old.entries ≡ [] → IsOk result }

        // What becomes of the slots, as under `# Complexity`. `freed_built`: without entries no table is built.
        ensures freed { self.old.entries ≡ [] → self.new.tables.newer ≡ [] }
        ensures freed_built { self.old.entries ≡ [] → self.new.tables.built ≡ self.old.tables.built }
        ensures shrinks { OnOk result (ShrinksOrStays (length self.old.entries) self.old.tables self.new.tables) }
        ensures enough { IfNoLarger (length self.old.entries) self.old.tables (IsOk result × (self.new ≡ self.old)) }
    {
        let least = least_slots(0, self.set_len())?;
        if least >= self.newer.slots() {
            return Ok(());
        }
        let newer = Slots::with_slots(self.alloc, least)?;
        self.move_all_into(newer);
        Ok(())
    }
}
