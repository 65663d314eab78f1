//! A row of cells, each empty or with a value. A cell is first written when a value is put into it.
//!
//! So a row costs no more than its allocation, however many cells it has: memory is first touched where a value is put.
ghost use Rattle.std.specs.Prelude.{◌≡◌, ℕ, ◌<◌, length, replicate, slice_set, [], Some, None, IfOk, IsOk};
ghost use Rattle.std.specs.declared.alloc.Global.{Global as Heap};
ghost use Rattle.hashbag_slots.specs.Cells.{cell_at, IsFilled, IsBlank};
ghost use Rattle.hashbag_slots.specs.Stores.{cells_of, IsStore};

use crate::block::{Block, Deed, allocate, release};
use crate::row::Row;
use core::mem::replace_with;
use std::alloc::{AllocError, Global};
use std::marker::Model;
use std_alloc::room::may_hold;

/// Where the cells are: nowhere, if there are none; in a block, with its deed, which is the right to free the block; or in a `Row`. Nothing was
/// written to a block. It becomes a row with the first value.
pub enum Store<T> {
    Nothing,
    Unwritten(Block<T>, Deed<T, Global>),
    Written(Row<T>),
}

/// A row of cells. Contracts see the list of them: each cell's value, or `None` if it is empty.
pub struct Cells<T> {
    store: Store<T>,
    alloc: Global,
}

impl<T> Model for Cells<T> {
    ghost use Rattle.std.specs.Prelude.{List, Option};

    ghost Value = { List (Option T) };

    ghost use Rattle.std.specs.declared.alloc.Global.{Global as Heap};
    ghost use Rattle.hashbag_slots.specs.Stores.{cells_of, IsStore};

    ghost view = { λ c. cells_of c.store };

    ghost invariant = { λ c. IsStore c.alloc c.store };
}

// Puts a value into an empty cell. A block becomes a `Row` here.
fn put_into<T>(store: Store<T>, cell: (usize, T, Global)) -> (Store<T>, ())
    requires within { cell.0 < length (cells_of store) }
    requires empty { cell_at (cells_of store) cell.0 ≡ None }
    requires store { IsStore cell.2 store }
    ensures cells { cells_of result.0 ≡ slice_set (cells_of store) cell.0 (Some cell.1) }

    // The result is a Row, of which `IsStore` holds at any allocator.
    ensures store { (alloc : Heap) → IsStore alloc result.0 }
{
    let (place, value, alloc) = cell;
    let mut row = match store {
        Store::Unwritten(block, deed) => Row::new(block.into_memory(&value), deed, alloc),
        Store::Written(row) => row,
        Store::Nothing => unreachable!(),
    };
    row.put(place, value);
    (Store::Written(row), ())
}

impl<T> Cells<T> {
    /// Returns `cells` empty cells.
    ///
    /// # Errors
    ///
    /// `AllocError` if the allocation fails, or if the cells have more bytes than an allocation can have. With `cells` 0 it doesn't allocate
    /// and can't fail.
    pub fn new(alloc: Global, cells: usize) -> Result<Cells<T>, AllocError>
        ensures cells { IfOk result (λ c. c ≡ replicate cells None) }
        ensures none { cells ≡ 0 → IsOk result }
    {
        if cells == 0 {
            return Ok(Cells {
                store: Store::Nothing,
                alloc,
            });
        }
        if !may_hold::<T>(cells) {
            return Err(AllocError);
        }
        let (block, deed) = allocate(&alloc, cells)?;
        Ok(Cells {
            store: Store::Unwritten(block, deed),
            alloc,
        })
    }

    /// Lends the value in a cell.
    #[inline(always)]
    pub fn get(&self, place: usize) -> &T
        requires { IsFilled self.now place }
        ensures { cell_at self.now place ≡ Some result.now }
    {
        match &self.store {
            Store::Written(row) => row.get(place),
            Store::Nothing | Store::Unwritten(_, _) => unreachable!(),
        }
    }

    /// Puts a value into an empty cell.
    #[inline(always)]
    pub fn put(&mut self, place: usize, value: T)
        requires within { place < length self.old }
        requires empty { cell_at self.old place ≡ None }
        ensures { self.new ≡ slice_set self.old place (Some value) }
    {
        if let Store::Written(row) = &mut self.store {
            row.put(place, value);
            return;
        }
        self.put_first(place, value);
    }

    // Puts the first value into cells that weren't written.
    #[inline(never)]
    fn put_first(&mut self, place: usize, value: T)
        requires within { place < length self.old }
        requires empty { cell_at self.old place ≡ None }
        ensures { self.new ≡ slice_set self.old place (Some value) }
    {
        replace_with(&mut self.store, (place, value, self.alloc), put_into);
    }

    /// Takes the value out of a cell.
    #[inline(always)]
    pub fn take(&mut self, place: usize) -> T
        requires { IsFilled self.old place }
        ensures value { cell_at self.old place ≡ Some result }
        ensures after { self.new ≡ slice_set self.old place None }
    {
        match &mut self.store {
            Store::Written(row) => row.take(place),
            Store::Nothing | Store::Unwritten(_, _) => unreachable!(),
        }
    }

    /// Frees the memory of the cells. All cells must be empty, so no value is lost without a drop.
    pub fn free(self)
        requires { IsBlank self }
    {
        let Cells { store, alloc } = self;
        match store {
            Store::Nothing => {}
            Store::Unwritten(block, deed) => release(&alloc, block, deed),
            Store::Written(row) => row.free(),
        }
    }
}
