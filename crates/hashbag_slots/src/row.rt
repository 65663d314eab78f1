//! Allocated cells, after the first write.
ghost use Rattle.std.specs.Prelude.{◌≡◌, ◌<◌, length, slice_set, Some, None};
ghost use Rattle.hashbag_slots.specs.Cells.{cell_at, IsFilled, IsBlank, filled_values};
ghost use Rattle.core.specs.Mem.Slots.{slots_items, slots_filled, slots_ptr, slots_len};

use crate::block::{Block, Deed, release};
use core::slots::Slots as Memory;
use std::alloc::Global;
use std::marker::Model;

/// Cells in one allocation. Contracts see the list of them: each cell's value, or `None` if it is empty.
pub struct Row<T> {
    row: Memory<T>,
    deed: Deed<T, Global>,
    alloc: Global,
}

impl<T> Model for Row<T> {
    ghost use Rattle.std.specs.Prelude.{List, Option};

    ghost Value = { List (Option T) };

    ghost use Rattle.std.specs.Prelude.{◌≡◌};
    ghost use Rattle.core.specs.Mem.Slots.{slots_items, slots_filled, slots_ptr, slots_len};
    ghost use Rattle.hashbag_slots.specs.Cells.{filled_values};

    ghost view = { λ o. filled_values (slots_items o.row) (slots_filled o.row) };

    ghost invariant = { λ o. (o.deed.at ≡ slots_ptr o.row) × (o.deed.len ≡ slots_len o.row) × (o.deed.alloc ≡ o.alloc) };
}

impl<T> Row<T> {
    /// Builds a row from `Memory`, core's memory of optional values, and the deed by which that is freed.
    pub fn new(row: Memory<T>, deed: Deed<T, Global>, alloc: Global) -> Row<T>
        requires { (deed.at ≡ slots_ptr row) × (deed.len ≡ slots_len row) × (deed.alloc ≡ alloc) }

        // Each cell has the value at its place in `row`, and is empty if nothing is stored there.
        ensures { result ≡ filled_values (slots_items row) (slots_filled row) }
    {
        Row { row, deed, alloc }
    }

    /// Lends the value in a cell.
    #[inline(always)]
    pub fn get(&self, place: usize) -> &T
        requires { IsFilled self.now place }
        ensures { cell_at self.now place ≡ Some result.now }
    {
        self.row.get(place)
    }

    /// Puts a value into an empty cell.
    #[inline(always)]
    pub fn put(&mut self, place: usize, value: T)
        requires within { place < length self.old }
        requires empty { cell_at self.old place ≡ None }
        ensures { self.new ≡ slice_set self.old place (Some value) }
    {
        self.row.put(place, value);
    }

    /// Takes the value out of a cell.
    #[inline(always)]
    pub fn take(&mut self, place: usize) -> T
        requires { IsFilled self.old place }
        ensures value { cell_at self.old place ≡ Some result }
        ensures after { self.new ≡ slice_set self.old place None }
    {
        self.row.take(place)
    }

    /// Frees the memory of the cells. All cells must be empty, so no value is lost without a drop.
    pub fn free(self)
        requires { IsBlank self }
    {
        let Row { row, deed, alloc } = self;
        release(&alloc, Block::from_memory(row), deed);
    }
}
