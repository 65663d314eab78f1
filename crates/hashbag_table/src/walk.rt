//! Walks over a table: its entries one after another, each once.
//!
//! The entries come in no particular order, as [`hashbag_slots::walk`] says. In clauses a walk has the list of the items that are left, and
//! `YieldsFirst` says that `next` gives the first of them. `lower` and `upper` are clauses of the trait `Iterator`: the number of items left is
//! within both bounds.
ghost use Rattle.std.specs.Prelude.{◌≡◌, length, Some, IfSome};
ghost use Rattle.std.specs.Iterator.{YieldsFirst, item_count, at_most, UpTo};
ghost use Rattle.std.specs.Iterator.SizeHint.{IsWithinCount};
ghost use Rattle.hashbag_table.specs.DrainWalk.{drain_rest};

pub use hashbag_slots::walk::{IntoWalk, Walk};
use std::iter::ExactSizeIterator;

/// The entries that were removed from a table, by value. The table is empty from the start. Unread entries are dropped with the walk.
///
/// Contracts see the list of the entries that are left as `drain_rest`.
pub struct DrainWalk<'a, T> {
    pub(crate) taken: IntoWalk<T>,
    // The borrow of the table's empty field `lent`. While it lasts, the table can't be used.
    pub(crate) table: &'a mut [usize; 0],
}

impl<'a, T: Drop> Drop for DrainWalk<'a, T> {
    fn drop(self) {
        let DrainWalk { taken, table: _ } = self;
        drop(taken);
    }
}

impl<'a, T: Drop> Iterator for DrainWalk<'a, T> {
    type Item = (T, usize);

    ghost next_gives = { YieldsFirst drain_rest };

    ghost remaining = { item_count drain_rest };

    fn next(&mut self) -> Option<(T, usize)> {
        self.taken.next()
    }

    fn size_hint(&self) -> (usize, Option<usize>)
        ensures lower { IsWithinCount result.0 (at_most (length (drain_rest self.now))) }
        ensures upper { IfSome result.1 (UpTo (at_most (length (drain_rest self.now)))) }
        ensures exact { result ≡ (length (drain_rest self.now), Some (length (drain_rest self.now))) }
    {
        let len = self.len();
        (len, Some(len))
    }
}

impl<'a, T: Drop> ExactSizeIterator for DrainWalk<'a, T> {
    fn len(&self) -> usize {
        self.taken.len()
    }
}

impl<'a, T> DrainWalk<'a, T> {
    /// Returns a walk over references to what is left. This walk doesn't advance.
    pub fn rest(&self) -> Walk<'_, T>
        ensures { result ≡ drain_rest self.now }
    {
        self.taken.rest()
    }
}
