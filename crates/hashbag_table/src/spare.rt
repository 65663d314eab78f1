//! `Spare`: slots that were allocated, and that no table uses yet.
ghost use Rattle.std.specs.Prelude.{◌≡◌};
ghost use Rattle.hashbag_slots.specs.Slots.{IsSlotCount};

use hashbag_slots::slots::blank::Blank;
use std::marker::Model;

/// Slots that are allocated ahead: [`Table::use_spare`](crate::table::Table::use_spare) moves all values into them without allocating.
/// Nothing is written to them before that.
///
/// Contracts see a spare as the number of its slots, all of which are Empty. Dropping a spare frees them.
#[derive(Drop)]
pub struct Spare<T: Eq + Drop> {
    // The slots, to which nothing was written.
    pub(crate) blank: Blank<T>,
}

impl<T: Eq + Drop> Model for Spare<T> {
    ghost use Rattle.std.specs.Prelude.{ℕ};

    ghost Value = { ℕ };

    ghost view = { λ s. s.blank };
}

impl<T: Eq + Drop> Spare<T> {
    /// Returns the number of slots.
    pub fn slots(&self) -> usize
        ensures value { result ≡ self.now }

        // It is 0, or a power of two from 16 to 2^59.
        ensures count { IsSlotCount result }
    {
        self.blank.slots()
    }
}
