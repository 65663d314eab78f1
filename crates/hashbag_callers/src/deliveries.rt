//! Callers to copy: two deliveries that are matched. One caller reads the first item of a join, one loops over a join, one folds it.
//!
//! The bags are taken by reference. A function that owns two bags can't pass a join of them on by value, if their hash states are type
//! parameters. It lends the bags to a function like these.
ghost use Rattle.std.specs.Prelude.{◌≤◌, ◌↔◌, IsTrue};
ghost use Rattle.hashbag.specs.Occurrences.{count};
ghost use Rattle.hashbag_callers.specs.Deliveries.{IsGreatestSurplus};

use hashbag::HashBag;
use std::hash::{BuildHasher, Hash};

/// Returns whether each ordered value was delivered at least as often as it was ordered.
pub fn is_complete<T: Eq + Hash + Drop, S: BuildHasher + Drop, S2: BuildHasher + Drop>(
    ordered: &HashBag<T, S>,
    delivered: &HashBag<T, S2>,
) -> bool
    ensures { IsTrue result ↔ ((v : T) → count T.eq v ordered.now.items ≤ count T.eq v delivered.now.items) }
{
    ordered.difference(delivered).next().is_none()
}

/// Returns the greatest surplus. The surplus of a value is how many more were delivered than ordered, or 0. It loops over the difference.
pub fn greatest_surplus<T: Eq + Hash + Drop, S: BuildHasher + Drop, S2: BuildHasher + Drop>(
    delivered: &HashBag<T, S>,
    ordered: &HashBag<T, S2>,
) -> usize
    // No count in `delivered` is more than `result` above the count in `ordered`. If `result` isn't 0, some count is exactly `result` above.
    ensures { IsGreatestSurplus T.eq delivered.now.items ordered.now.items result }
{
    let mut greatest = 0;
    for (_, surplus) in delivered.difference(ordered) {
        greatest = greatest.max(surplus);
    }
    greatest
}

/// Returns the same as [`greatest_surplus`], by a fold over the difference.
pub fn greatest_surplus_by_fold<T: Eq + Hash + Drop, S: BuildHasher + Drop, S2: BuildHasher + Drop>(
    delivered: &HashBag<T, S>,
    ordered: &HashBag<T, S2>,
) -> usize
    // No count in `delivered` is more than `result` above the count in `ordered`. If `result` isn't 0, some count is exactly `result` above.
    ensures { IsGreatestSurplus T.eq delivered.now.items ordered.now.items result }
{
    delivered
        .difference(ordered)
        .fold(0, |greatest, entry| entry.1.max(greatest))
}
