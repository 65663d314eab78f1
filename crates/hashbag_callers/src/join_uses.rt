//! Callers to copy: uses of the contracts of the joins.
ghost use Rattle.std.specs.Prelude.{◌≡◌, ◌+◌};
ghost use Rattle.hashbag.specs.Occurrences.{count};
ghost use Rattle.hashbag_callers.specs.Transfers.{lesser_count};

use hashbag::HashBag;
use std::hash::{BuildHasher, Hash};

/// Returns how much the count of a value in `a` is above its count in `b`, or 0 if it isn't above, by the difference of the bags. The clause says:
/// the lesser of both counts, plus the result, is the count in `a`.
pub fn excess_of<T: Eq + Hash + Drop, S: BuildHasher + Drop, S2: BuildHasher + Drop>(
    a: &HashBag<T, S>,
    b: &HashBag<T, S2>,
    value: &T,
) -> usize
    ensures { count T.eq value.now a.now.items ≡ lesser_count T.eq value.now a.now b.now + result }
{
    match a.difference(b).find(|entry| *entry.0 == *value) {
        Some((_, excess)) => excess,
        None => 0,
    }
}
