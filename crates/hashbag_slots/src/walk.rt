//! Walks over two tables of slots, a newer and an older one: their values with their counts, each once.
//!
//! A walk knows how many values are left, and after the last one it gives `None` for good. It hashes nothing and doesn't allocate. A whole walk reads
//! each slot once.
//!
//! A walk makes three passes over each table, one over the newer, one over the older, and so on. A pass takes every third block of 256 slots. So at
//! any time the values given so far have homes all over both tables. A smaller table that is filled by a walk is then filled evenly. In the order of
//! places, the first half of the walk would fill the smaller table from end to end, and the second half would probe through full slots. A block is so
//! large that a pass reads the memory of its own blocks alone.
//!
//! In clauses a walk is the list of the items that are left. `YieldsFirst (λ s. s)` says that `next` gives the first item of that list. `lower` and
//! `upper` are clauses of the trait `Iterator`: the number of items left is within both bounds.
ghost use Rattle.std.specs.Prelude.{◌≡◌, ℕ, length, Some, IfSome, ⊤};
ghost use Rattle.std.specs.Iterator.{YieldsFirst, YieldsFirstBy, item_count, at_most, UpTo};
ghost use Rattle.std.specs.Iterator.SizeHint.{IsWithinCount};
ghost use Rattle.hashbag_slots.specs.Walks.{of_turn};

use crate::cells::Cells;
use crate::live::{Course, drop_live, next_on_course};
use crate::tags::REMOVED;
use std::alloc::AllocError;
use std::iter::ExactSizeIterator;
use std::marker::Model;

// The cells of the table whose turn it is.
#[inline(always)]
pub(crate) fn cells_of_turn<'a, T>(
    turn: usize,
    newer: &'a Cells<(T, usize)>,
    older: &'a Cells<(T, usize)>,
) -> &'a Cells<(T, usize)>
    ensures { result.now ≡ of_turn turn newer.now older.now }
{
    if turn % 2 == 1 { newer } else { older }
}

/// References to the values of two tables, with their counts. Contracts see a walk as the list of the values that are left, with their counts.
#[derive(Drop)]
pub struct Walk<'a, T> {
    pub(crate) newer_tags: &'a [u8],
    pub(crate) newer: &'a Cells<(T, usize)>,
    pub(crate) older_tags: &'a [u8],
    pub(crate) older: &'a Cells<(T, usize)>,
    // The cells of the table whose turn it is.
    pub(crate) cells: &'a Cells<(T, usize)>,
    pub(crate) course: Course,
    pub(crate) left: usize,
}

impl<'a, T> Model for Walk<'a, T> {
    ghost use Rattle.std.specs.Prelude.{◌≡◌, ℕ, List};
    ghost use Rattle.hashbag_slots.specs.Walks.{of_turn, entries_left, IsWalk, IsCourse};

    ghost Value = { List (T × ℕ) };

    ghost view = { λ w. entries_left w.course.turn w.course.next w.newer_tags.now w.older_tags.now w.newer.now w.older.now };

    ghost invariant = { λ w. IsWalk w.newer_tags.now w.older_tags.now w.newer.now w.older.now w.course.turn w.course.next w.left × IsCourse w.newer_tags.now w.older_tags.now w.course × (w.cells.now ≡ of_turn w.course.turn w.newer.now w.older.now) };
}

impl<'a, T> Clone for Walk<'a, T> {
    ghost is_clone = { λ s r. r ≡ s };

    ghost is_infallible = { λ _. ⊤ };

    /// Returns a walk that goes on from the same place. It doesn't allocate and can't fail.
    fn clone(&self) -> Result<Walk<'a, T>, AllocError> {
        let (course, left) = (self.course, self.left);
        Ok(Walk {
            newer_tags: self.newer_tags,
            newer: self.newer,
            older_tags: self.older_tags,
            older: self.older,
            cells: self.cells,
            course,
            left,
        })
    }
}

impl<'a, T> Iterator for Walk<'a, T> {
    type Item = (&'a T, usize);

    ghost next_gives = { YieldsFirstBy (λ e. (e.0.now, e.1)) (λ s. s) };

    ghost remaining = { item_count (λ s. s) };

    #[inline(always)]
    fn next(&mut self) -> Option<(&'a T, usize)> {
        if self.left == 0 {
            return None;
        }
        match next_on_course(self.newer_tags, self.older_tags, self.course) {
            Some((place, course)) => {
                let cells = if course.turn == self.course.turn {
                    self.cells
                } else {
                    cells_of_turn(course.turn, self.newer, self.older)
                };
                let entry = cells.get(place);
                self.cells = cells;
                self.course = course;
                self.left -= 1;
                Some((&entry.0, entry.1))
            }
            None => None,
        }
    }

    fn size_hint(&self) -> (usize, Option<usize>)
        ensures lower { IsWithinCount result.0 (at_most (length self.now)) }
        ensures upper { IfSome result.1 (UpTo (at_most (length self.now))) }
        ensures exact { result ≡ (length self.now, Some (length self.now)) }
    {
        (self.left, Some(self.left))
    }
}

impl<'a, T> ExactSizeIterator for Walk<'a, T> {
    fn len(&self) -> usize {
        self.left
    }
}

/// The values of two tables, with their counts, by value. The walk owns the tables, and drops unread values with them.
///
/// Contracts see a walk as the list of the values that are left, with their counts.
pub struct IntoWalk<T> {
    pub(crate) newer_tags: Vec<u8>,
    pub(crate) newer: Cells<(T, usize)>,
    pub(crate) older_tags: Vec<u8>,
    pub(crate) older: Cells<(T, usize)>,
    pub(crate) course: Course,
    pub(crate) left: usize,
}

impl<T> Model for IntoWalk<T> {
    ghost use Rattle.std.specs.Prelude.{ℕ, List};
    ghost use Rattle.hashbag_slots.specs.Walks.{entries_left, IsWalk, IsCourse};

    ghost Value = { List (T × ℕ) };

    ghost view = { λ w. entries_left w.course.turn w.course.next w.newer_tags.items w.older_tags.items w.newer w.older };

    ghost invariant = { λ w. IsWalk w.newer_tags.items w.older_tags.items w.newer w.older w.course.turn w.course.next w.left × IsCourse w.newer_tags.items w.older_tags.items w.course };
}

impl<T: Drop> Drop for IntoWalk<T> {
    fn drop(self) {
        let IntoWalk {
            newer_tags,
            mut newer,
            older_tags,
            mut older,
            course: _,
            left: _,
        } = self;
        drop_live(newer_tags.as_slice(), &mut newer);
        drop_live(older_tags.as_slice(), &mut older);
        newer.free();
        older.free();
    }
}

impl<T: Drop> Iterator for IntoWalk<T> {
    type Item = (T, usize);

    ghost next_gives = { YieldsFirst (λ s. s) };

    ghost remaining = { item_count (λ s. s) };

    #[inline(always)]
    fn next(&mut self) -> Option<(T, usize)> {
        if self.left == 0 {
            return None;
        }
        match next_on_course(
            self.newer_tags.as_slice(),
            self.older_tags.as_slice(),
            self.course,
        ) {
            Some((place, course)) => {
                self.course = course;
                self.left -= 1;
                if course.turn % 2 == 1 {
                    self.newer_tags[place] = REMOVED;
                    Some(self.newer.take(place))
                } else {
                    self.older_tags[place] = REMOVED;
                    Some(self.older.take(place))
                }
            }
            None => None,
        }
    }

    fn size_hint(&self) -> (usize, Option<usize>)
        ensures lower { IsWithinCount result.0 (at_most (length self.now)) }
        ensures upper { IfSome result.1 (UpTo (at_most (length self.now))) }
        ensures exact { result ≡ (length self.now, Some (length self.now)) }
    {
        (self.left, Some(self.left))
    }
}

impl<T: Drop> ExactSizeIterator for IntoWalk<T> {
    fn len(&self) -> usize {
        self.left
    }
}

impl<T> IntoWalk<T> {
    /// Returns a walk over references to what is left. This walk doesn't advance.
    pub fn rest(&self) -> Walk<'_, T>
        ensures { result ≡ self.now }
    {
        Walk {
            newer_tags: self.newer_tags.as_slice(),
            newer: &self.newer,
            older_tags: self.older_tags.as_slice(),
            older: &self.older,
            cells: cells_of_turn(self.course.turn, &self.newer, &self.older),
            course: self.course,
            left: self.left,
        }
    }
}
