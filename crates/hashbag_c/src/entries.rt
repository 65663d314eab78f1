//! Walks over values, each with a count or with the difference of two counts, and how they are written into the arrays of C.
ghost use Rattle.std.specs.Prelude.{◌≡◌, ◌+◌, ◌≤◌, ◌++◌, ℕ, List, length, take, drop, map};
ghost use Rattle.std.specs.Iterator.{YieldsFirstBy};
ghost use Rattle.std.specs.Slice.Iter.{iter_rest};
ghost use Rattle.std.specs.VecDeque.Iter.{deque_iter_rest};
ghost use Rattle.hashbag_core.specs.Walks.{seen};
ghost use Rattle.hashbag_c.specs.Reads.{HasWritten, HasWrittenTexts};

use crate::bytes::Bytes;
use hashbag_core::{Difference, NotIn, SetIter, SignedDifference};
use std::collections::vec_deque;
use std::hash::{BuildHasher, Hash};
use std::slice;

/// A walk over values, each with a count, or with the difference of two counts.
pub trait Entries<'a, T: 'a, C> {
    /// The entries that are left.
    ghost entries: { Self → List (T × C) };

    /// Returns the next value.
    fn next_entry(&mut self) -> Option<(&'a T, C)>
        // `None` if nothing is left; else the result is the first entry, and the entries after it are left.
        ensures { YieldsFirstBy (λ e. (e.0.now, e.1)) entries self.old result self.new };
}

impl<'a, T> Entries<'a, T, usize> for SetIter<'a, T> {
    ghost entries = { λ walk. walk };

    fn next_entry(&mut self) -> Option<(&'a T, usize)> {
        self.next()
    }
}

impl<'a, T: Eq + Hash + Drop, S: BuildHasher + Drop> Entries<'a, T, usize>
    for Difference<'a, T, S, S> {
    ghost entries = { λ walk. walk };

    fn next_entry(&mut self) -> Option<(&'a T, usize)> {
        self.next()
    }
}

impl<'a, T: Eq + Hash + Drop, S: BuildHasher + Drop> Entries<'a, T, usize> for NotIn<'a, T, S, S> {
    ghost entries = { λ walk. walk };

    fn next_entry(&mut self) -> Option<(&'a T, usize)> {
        self.next()
    }
}

impl<'a, T: Eq + Hash + Drop, S: BuildHasher + Drop> Entries<'a, T, isize>
    for SignedDifference<'a, T, S, S> {
    ghost entries = { λ walk. walk };

    fn next_entry(&mut self) -> Option<(&'a T, isize)> {
        self.next()
    }
}

// A list of values that are lent with their counts.
impl<'a, 'p, T> Entries<'a, T, usize> for slice::Iter<'p, (&'a T, usize)> {
    ghost entries = { λ pairs. map seen (iter_rest pairs) };

    fn next_entry(&mut self) -> Option<(&'a T, usize)> {
        match self.next() {
            Some(pair) => Some(*pair),
            None => None,
        }
    }
}

// The pairs of a queue.
impl<'a, T> Entries<'a, T, usize> for vec_deque::Iter<'a, (T, usize)> {
    ghost entries = { λ pairs. deque_iter_rest pairs };

    fn next_entry(&mut self) -> Option<(&'a T, usize)> {
        match self.next() {
            Some(pair) => Some((&pair.0, pair.1)),
            None => None,
        }
    }
}

// Writes a byte string at a place.
pub(crate) fn put(bytes: &mut [u8], from: usize, piece: &[u8])
    requires { from + length piece.now ≤ length bytes.old }
    ensures { bytes.new ≡ take from bytes.old ++ (piece.now ++ drop (from + length piece.now) bytes.old) }
{
    bytes[from..from + piece.len()].copy_from_slice(piece);
}

/// Writes the first numbers of a walk, each with its count or difference, as many as both slices have places for, and returns how many.
pub fn write_numbers<'a, C: Drop, W: Entries<'a, u64, C> + Drop>(
    mut walk: W,
    values: &mut [u64],
    counts: &mut [C],
) -> usize
    // `result` is how many entries there are, or how many places both slices have if that is less. The slices begin with the first `result` entries.
    ensures { HasWritten (W.entries walk) result values.new counts.new }
{
    let most = values.len().min(counts.len());
    for i in 0..most {
        match walk.next_entry() {
            Some((value, count)) => {
                values[i] = *value;
                counts[i] = count;
            }
            None => return i,
        }
    }
    most
}

/// Writes the first byte strings of a walk, each with its count or difference, as many as there are places for, and returns how many.
pub fn write_texts<'a, C: Drop, W: Entries<'a, Bytes, C> + Drop>(
    mut walk: W,
    bytes: &mut [u8],
    ends: &mut [usize],
    counts: &mut [C],
) -> usize
    // `bytes` begins with the first `result` strings, `ends` with their ends, `counts` with their counts or differences. If that isn't all, the
    // next string has no place. So all are written if `ends` and `counts` have a place for each entry, and `bytes` for all their bytes.
    ensures { HasWrittenTexts (W.entries walk) result bytes.new ends.new counts.new }
{
    let most = ends.len().min(counts.len());
    let mut from: usize = 0;
    for i in 0..most {
        match walk.next_entry() {
            Some((value, count)) => {
                let value = value.as_slice();
                if value.len() > bytes.len() - from {
                    return i;
                }
                put(bytes, from, value);
                from += value.len();
                ends[i] = from;
                counts[i] = count;
            }
            None => return i,
        }
    }
    most
}
