//! `Blank`: memory for a table of slots, allocated ahead.
ghost use Rattle.std.specs.Prelude.{◌≡◌, ℕ, replicate, IfOk};
ghost use Rattle.hashbag_slots.specs.Slots.{IsSlotCount};
ghost use Rattle.hashbag_slots.specs.Columns.{IsReached};

use crate::cells::Cells;
use crate::slots::{Slot, Slots};
use crate::tags::{EMPTY, GUARDS, MOVED};
use std::alloc::{AllocError, Global};
use std::marker::Model;

/// Memory for a table of Empty slots. The tags are written when the table is made, so a `Blank` that isn't used costs no more than its allocation.
///
/// Contracts see the number of slots.
pub struct Blank<T> {
    // No tag is written yet. There is room for those of the slots and the guards.
    tags: Vec<u8>,
    slots: usize,
    cells: Cells<(T, usize)>,
}

impl<T> Model for Blank<T> {
    ghost use Rattle.std.specs.Prelude.{◌≡◌, ℕ, ◌+◌, ◌≤◌, [], replicate, None, vec_capacity};
    ghost use Rattle.hashbag_slots.specs.Slots.{IsSlotCount};

    ghost Value = { ℕ };

    ghost view = { λ b. b.slots };

    ghost invariant = { λ b. IsSlotCount b.slots × (b.tags.items ≡ []) × (b.cells ≡ replicate b.slots None) × (b.slots + 16 ≤ vec_capacity b.tags) };
}

impl<T: Drop> Drop for Blank<T> {
    fn drop(self) {
        let Blank {
            tags: _,
            slots: _,
            cells,
        } = self;
        cells.free();
    }
}

impl<T: Eq> Blank<T> {
    /// Allocates memory for `n` slots.
    ///
    /// # Errors
    ///
    /// `AllocError` if an allocation fails.
    pub fn with_slots(alloc: Global, n: usize) -> Result<Blank<T>, AllocError>
        // `n` is 0, or a power of two from 16 to 2^59.
        requires { IsSlotCount n }
        ensures slots { IfOk result (λ b. b ≡ n) }
    {
        let tags = Vec::with_capacity(alloc, n + GUARDS)?;
        let cells = Cells::new(alloc, n)?;
        Ok(Blank {
            tags,
            slots: n,
            cells,
        })
    }

    /// Returns the number of slots.
    pub fn slots(&self) -> usize
        ensures value { result ≡ self.now }

        // It is 0, or a power of two from 16 to 2^59.
        ensures count { IsSlotCount result }
    {
        self.slots
    }

    /// Returns the table, whose slots are Empty. It doesn't allocate.
    pub fn into_slots(self) -> Slots<T>
        ensures slots { result.slots ≡ replicate self Slot.Empty }

        // There is no value yet, so a probe finds each value under any hash.
        ensures reached { (hash : T → ℕ) → IsReached hash result }
    {
        let Blank {
            mut tags,
            slots,
            cells,
        } = self;
        if slots > 0 {
            tags.resize(slots, EMPTY).unwrap();
            tags.resize(slots + GUARDS, MOVED).unwrap();
        }
        Slots {
            tags,
            cells,
            slots,
            live: 0,
            removed: 0,
        }
    }
}
