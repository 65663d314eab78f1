//! Spare slots of a table: allocated ahead, and taken into use later.
ghost use Rattle.std.specs.Prelude.{◌≡◌, ◌+◌, ◌<◌, ◌≤◌, length, IfOk, IsErr};
ghost use Rattle.hashbag_table.specs.Table.{IsMapOf};
ghost use Rattle.hashbag_table.specs.Tables.{most_used, values, IsLeast, IsPacked};

use crate::capacity::least_slots;
use crate::spare::Spare;
use crate::table::{MOST_VALUES, Table};
use hashbag_slots::slots::blank::Blank;
use std::alloc::AllocError;
use std::hash::{BuildHasher, Hash};

impl<T: Eq + Hash + Drop, S: BuildHasher + Drop> Table<T, S> {
    /// Allocates the slots that [`Table::reserve`] would build for `n` more distinct values, and leaves them unused.
    ///
    /// # Errors
    ///
    /// `AllocError` if the allocation fails, or if there would be more than [`MOST_VALUES`].
    pub fn spare(&self, n: usize) -> Result<Spare<T>, AllocError>
        // In clauses a spare is the number of its slots: the least with room for the entries and `n` more, and not below the number of newer slots.
        ensures least { IfOk result (λ spare. IsLeast (length self.now.tables.newer) (length self.now.entries + n) spare) }
        ensures past_most { MOST_VALUES < length self.now.entries + n → IsErr result }
    {
        let slots = self.newer.slots();
        let values = self.set_len();
        if n > MOST_VALUES - values {
            return Err(AllocError);
        }
        let least = least_slots(slots, values + n)?;
        let blank = Blank::with_slots(self.alloc, least)?;
        Ok(Spare { blank })
    }

    /// Moves all values into spare slots. The slots of both tables are freed, and the entries stay.
    ///
    /// # Complexity
    ///
    /// Every value is moved and hashed once, a waiting one twice. It doesn't allocate.
    pub fn use_spare(&mut self, spare: Spare<T>)
        requires enough { length self.old.entries ≤ most_used spare }
        ensures slots { length self.new.tables.newer ≡ spare }

        // The spare slots are the only table: no slot waits, all values are in the spare slots, and these count as built.
        ensures packed { IsPacked self.new.tables }
        ensures built { self.new.tables.built ≡ self.old.tables.built + spare }
        ensures values { values self.new.tables ≡ length self.old.entries }

        // The entries are the same, in whatever order, and so is the hash state.
        ensures entries { IsMapOf T.eq self.old self.old.entries self.new }
    {
        let Spare { blank } = spare;
        self.move_all_into(blank.into_slots());
    }
}
